//! A seat: a caller of the history with its account of the counters.
ghost use Rattle.std.specs.Prelude.{◌≡◌, ◌<◌, ◌∷◌, ◌++◌, ℕ, List, []};
ghost use Rattle.bq_bpf.specs.declared.board.CounterCall.{CounterCall};
ghost use Rattle.bq_history.specs.Callers.{receipts_of};
ghost use Rattle.bq_history.specs.Items.{caller_of};
ghost use Rattle.bq_shared.specs.Sums.{joined_accounts, fresh_account};
ghost use Rattle.bq_shared.specs.Calls.{account_of};

use crate::calls::CallRooms;
use crate::working::Working;
use crate::{CounterAccount, Counters, Counting};
use bq_bpf::board::COUNTERS;
use bq_history::{Caller, History, Holder, Item, Naming, Numbered, Room, World};
use std::marker::Model;

/// A record that includes the calls of counters of its event.
pub trait ReportsCalls {
    ghost calls: { Self → List CounterCall };
}

/// A caller with its account of the counters. Contracts see its number and its receipts, in order. The account has exactly
/// the calls in those receipts.
#[derive(Drop)]
pub struct Seat<R: ReportsCalls + Drop, P, D, N: Naming + Counting> {
    /// The caller and its account. An event borrows them apart from the rooms.
    pub working: Working<R, P, D, N>,
    /// Room for the record of the next event.
    pub record_room: Room<R>,
    /// Room for the record of the event after it, if two come together.
    pub second_record_room: Room<R>,
    /// Room for the calls of the next event that has some, or None.
    pub call_rooms: Option<CallRooms>,
}

impl<R: ReportsCalls + Drop, P, D, N: Naming + Counting> Model for Seat<R, P, D, N> {
    ghost use Rattle.std.specs.Prelude.{◌≡◌, ℕ, List};
    ghost use Rattle.bq_history.specs.declared.shared_state.Receipt.{Receipt as ReceiptValue};

    ghost Value = { ℕ × List (ReceiptValue R) };

    ghost use Rattle.bq_shared.specs.Calls.{AccountMatchesReceipts};

    ghost view = { λ s. s.working.caller };

    ghost invariant = { λ s. AccountMatchesReceipts R.calls s.working };
}

impl<R: ReportsCalls + Drop, P, D, N: Naming + Counting> Seat<R, P, D, N> {
    /// Makes a seat that has called nothing.
    pub fn new(caller: Caller<R, P, D, N>, account: CounterAccount<N>) -> Seat<R, P, D, N>
        requires caller { receipts_of caller ≡ [] }
        requires account { account ≡ fresh_account 1 }
        ensures { result ≡ caller }
    {
        Seat {
            working: Working { caller, account },
            record_room: Room::new(),
            second_record_room: Room::new(),
            call_rooms: None,
        }
    }

    /// Gives the seat's caller to a holder, and its account to the total of all seats.
    pub(crate) fn leave<M: World<Record = R, Part = P, Kept = D>>(
        self,
        history: &History<M, N>,
        all: &mut Holder<Item<R, P, D>, N>,
        counters: &Counters<N>,
        total: &mut CounterAccount<N>,
    )
        ensures caller { all.new ≡ all.old ++ caller_of self ∷ [] }
        ensures total { total.new ≡ joined_accounts total.old (account_of R.calls (receipts_of self)) }
    {
        let Seat { working, .. } = self;
        let Working { caller, account } = working;
        caller.join(history, all);
        counters.join(total, account);
    }

    /// Reads a counter. It takes no lock, and no record mentions it.
    pub fn counter(&mut self, counters: &Counters<N>, counter: u8) -> u64
        requires { counter < COUNTERS }
        ensures { self.new ≡ self.old }
    {
        counters.counter(&mut self.working.account, counter)
    }
}

impl<R: ReportsCalls + Drop, P, D, N: Naming + Counting> Numbered for Seat<R, P, D, N> {
    ghost use Rattle.bq_history.specs.Callers.{number_of};

    ghost number = { number_of };

    fn number(&self) -> u64 {
        self.working.caller.number()
    }
}
