// Where threads wait for their turn.
use std::sync::Wait;

/// What a thread is about to do.
#[derive(Clone, Copy, Debug, PartialEq, Eq)]
pub enum GateStep {
    /// Its command of this number, counted from 1.
    Command(u32),
    /// To publish the candidate that it was given.
    Publish,
}

/// Where a thread may be made to wait. It promises nothing, and need not return.
pub trait Gate {
    /// Called by `thread` before `step`.
    fn pass<R: Wait>(&self, rt: &R, thread: u32, step: GateStep);
}

/// A gate at which nobody waits.
#[derive(Debug, Drop)]
pub struct OpenGate;

impl Gate for OpenGate {
    fn pass<R: Wait>(&self, _rt: &R, _thread: u32, _step: GateStep) {}
}
