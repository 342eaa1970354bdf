//! What runs of policies work on.
ghost use Rattle.std.specs.Prelude.{◌≡◌, ◌≤◌, [], length};

use arrayvec::ArrayVec;
use bq_bpf::CounterCall;
use bq_bpf::board::MOST_CALLS;
use bq_interp::Stack;
use std::marker::Model;

/// A stack for policies to run on, and the last run's calls of counters. One scratch space serves any number of runs, one
/// after another: no policy can read what an earlier run left on the stack. Contracts see only the calls.
#[derive(Drop)]
pub struct Scratch {
    pub(crate) stack: Stack,
    pub(crate) calls: ArrayVec<CounterCall, MOST_CALLS>,
}

impl Model for Scratch {
    ghost use Rattle.std.specs.Prelude.{List};
    ghost use Rattle.bq_bpf.specs.declared.board.CounterCall.{CounterCall as CounterCallValue};

    ghost Value = { List CounterCallValue };

    ghost view = { λ s. s.calls.items };
}

impl Scratch {
    /// A clean stack, and no calls.
    pub fn new() -> Scratch
        ensures { result ≡ [] }
    {
        Scratch {
            stack: Stack::new(),
            calls: ArrayVec::new(),
        }
    }

    /// Forgets the calls.
    pub fn clear(&mut self)
        ensures { self.new ≡ [] }
    {
        self.calls.clear();
    }

    /// The calls of counters of the last run, in their order.
    pub fn calls(&self) -> &[CounterCall]
        ensures value { result.now ≡ self.now }
        ensures few { length result.now ≤ MOST_CALLS }
    {
        self.calls.as_slice()
    }
}
