//! What threads of the system may hand to one another.
use bind_flow::{ImageCode, Images};
use host_core::HostCore;

/// A value of the type may be sent to another thread.
fn is_sent<T: Send>() {}

/// Threads may share a value of the type.
fn is_shared<T: Sync>() {}

#[test]
fn a_run_may_cross_threads() {
    is_sent::<HostCore<ImageCode>>();
    is_sent::<Images>();
    is_shared::<Images>();
}
