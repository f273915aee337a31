ghost use Rattle.std.specs.Prelude.{◌≡◌, ◌+◌, ◌<◌, ◌^◌, sum_by};

use host_events::Listed;
use std::alloc::{AllocError, Global};

/// What one thread of a run may make at most.
#[derive(Clone, Copy, Debug, PartialEq, Eq)]
pub struct Share {
    /// Entries of the journal.
    pub events: u32,
    /// Contexts.
    pub contexts: u32,
    /// Strong and weak handles.
    pub handles: u32,
    /// Rules.
    pub rules: u32,
}

/// What all threads of a run may make at most.
#[derive(Debug, Drop)]
pub struct Bounds {
    /// How many threads there are. They are counted from 1.
    pub threads: u32,
    /// Entries of the journal.
    pub events: u32,
    /// Contexts, with the one of `default`.
    pub contexts: u32,
    /// Strong and weak handles.
    pub handles: u32,
    /// Rules.
    pub rules: u32,
    /// The share of each thread, from thread 1 on.
    pub shares: Listed<Share>,
}

impl Bounds {
    ghost use Rattle.host_core.specs.Bounds.{bounds_of, CanSum};

    /// The bounds that these shares make up: always `Ok`.
    pub fn of(_alloc: Global, shares: Vec<Share>) -> Result<Bounds, AllocError>
        requires { CanSum shares.items }
        ensures { result ≡ Ok (bounds_of shares.items) }
    {
        let threads = shares.len() as u32;
        let events = all_events(shares.as_slice());
        let contexts = all_contexts(shares.as_slice()) + 1;
        let handles = all_handles(shares.as_slice());
        let rules = all_rules(shares.as_slice());
        Ok(Bounds {
            threads,
            events,
            contexts,
            handles,
            rules,
            shares: Listed::of(shares),
        })
    }
}

fn all_events(shares: &[Share]) -> u32
    requires { sum_by (λ share. share.events) shares.now < 2 ^ 32 }
    ensures { result ≡ sum_by (λ share. share.events) shares.now }
{
    shares.iter().map(|share| share.events).sum()
}

fn all_contexts(shares: &[Share]) -> u32
    requires { sum_by (λ share. share.contexts) shares.now < 2 ^ 32 }
    ensures { result ≡ sum_by (λ share. share.contexts) shares.now }
{
    shares.iter().map(|share| share.contexts).sum()
}

fn all_handles(shares: &[Share]) -> u32
    requires { sum_by (λ share. share.handles) shares.now < 2 ^ 32 }
    ensures { result ≡ sum_by (λ share. share.handles) shares.now }
{
    shares.iter().map(|share| share.handles).sum()
}

fn all_rules(shares: &[Share]) -> u32
    requires { sum_by (λ share. share.rules) shares.now < 2 ^ 32 }
    ensures { result ≡ sum_by (λ share. share.rules) shares.now }
{
    shares.iter().map(|share| share.rules).sum()
}
