//! The counters as one program sees them.
ghost use Rattle.std.specs.Prelude.{◌≡◌, ◌≤◌};

use crate::account::{CounterAccount, Counting};
use crate::counters::Counters;
use bq_bpf::Board;

/// The counters of a machine, with the account of the seat that runs a program.
#[derive(Drop)]
pub struct CounterBoard<'a, N: Counting> {
    pub counters: &'a Counters<N>,
    pub account: CounterAccount<N>,
    ghost seated: { 1 ≤ account.seats },
}

impl<'a, N: Counting> Board for CounterBoard<'a, N> {
    ghost use Rattle.std.specs.Prelude.{◌≡◌};
    ghost use Rattle.bq_shared.specs.Sums.{account_called};

    ghost leads = { λ old call new. new.account ≡ account_called old.account call };

    fn add(&mut self, counter: u8, amount: u64) -> u64 {
        self.counters.add(&mut self.account, counter, amount)
    }

    fn read(&mut self, counter: u8) -> u64 {
        self.counters.read(&mut self.account, counter)
    }
}
