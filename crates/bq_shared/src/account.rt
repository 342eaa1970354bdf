//! Who called which counters.
ghost use Rattle.atomic_table.specs.Seated.{TableId};

use atomic_table::{Join, Play, Seat, Split, TableRule};
use bq_bpf::CounterCall;
use std::collections::LinkedList;
use std::marker::{Brand, Model, PhantomData};

/// For contracts only, so no value exists at run time: the number of seats that an account covers, and the calls that they
/// made.
pub struct Account {
    pub seats: u64,
    pub calls: LinkedList<CounterCall>,
}

/// Names the counters of one machine, so that types can say that they belong to them.
pub trait Counting {
    ghost counters: { TableId };
}

impl Counting for Brand {
    ghost use Rattle.std.specs.Prelude.{[]};

    ghost counters = { record { words = 0; slots = 0; views_name = 0; atom = 0; block = 0; offset = 0; slot_names = [] } };
}

/// Lets its owner call the counters that `N` names, and holds the account of those calls. It has no bytes. Contracts see the
/// account.
#[derive(Drop)]
pub struct CounterAccount<N: Counting> {
    pub(crate) seat: Seat<(), Account>,
    pub(crate) of: PhantomData<N>,
}

impl<N: Counting> Model for CounterAccount<N> {
    ghost use Rattle.std.specs.Prelude.{◌≡◌, []};
    ghost use Rattle.bq_history.specs.Tables.{view_of, slots_of};
    ghost use Rattle.bq_shared.specs.declared.account.Account.{Account as AccountValue};

    ghost Value = { AccountValue };

    ghost view = { λ t. view_of t.seat.me };

    ghost invariant = { λ t. (t.seat.table_id ≡ N.counters) × (slots_of t.seat.me ≡ []) };
}

/// The rule of the counters' table.
pub struct Summed;

impl TableRule<(), Account, u64> for Summed {
    ghost use Rattle.bq_shared.specs.Sums.{AreSums, fresh_account};

    ghost holds = { λ seats s. AreSums seats s.words s.views };

    ghost first = { λ seats. fresh_account seats };
}

/// An add, which the account records.
pub struct Adding;

impl Play<(), Account> for Adding {
    ghost use Rattle.std.specs.Prelude.{◌≡◌};
    ghost use Rattle.bq_bpf.specs.declared.board.CounterCall.TheVariants.{Add};
    ghost use Rattle.bq_history.specs.Tables.{view_of, slots_of};
    ghost use Rattle.bq_shared.specs.Sums.{account_called};

    ghost then = { λ step v found w. (view_of w ≡ account_called (view_of v) (Add step.word step.first found)) × (slots_of w ≡ slots_of v) };
}

/// A read, which the account records.
pub struct Reading;

impl Play<(), Account> for Reading {
    ghost use Rattle.std.specs.Prelude.{◌≡◌};
    ghost use Rattle.bq_bpf.specs.declared.board.CounterCall.TheVariants.{Read};
    ghost use Rattle.bq_history.specs.Tables.{view_of, slots_of};
    ghost use Rattle.bq_shared.specs.Sums.{account_called};

    ghost then = { λ step v found w. (view_of w ≡ account_called (view_of v) (Read step.word found)) × (slots_of w ≡ slots_of v) };
}

/// A read that no account records.
pub struct UnrecordedReading;

impl Play<(), Account> for UnrecordedReading {
    ghost use Rattle.std.specs.Prelude.{◌≡◌};
    ghost use Rattle.bq_history.specs.Tables.{view_of, slots_of};

    ghost then = { λ _ v _ w. (view_of w ≡ view_of v) × (slots_of w ≡ slots_of v) };
}

/// A read by one who has no account yet. It makes an account of no seat.
pub struct UnseatedReading;

impl Play<(), Account> for UnseatedReading {
    ghost use Rattle.std.specs.Prelude.{◌≡◌, []};
    ghost use Rattle.bq_history.specs.Tables.{view_of, slots_of};
    ghost use Rattle.bq_shared.specs.Sums.{seatless_account};

    ghost then = { λ _ _ _ w. (view_of w ≡ seatless_account) × (slots_of w ≡ []) };
}

/// Gives one seat an account of its own.
pub struct OneSeat;

impl Split<Account> for OneSeat {
    ghost use Rattle.bq_shared.specs.Sums.{without_one, fresh_account};

    ghost left = { without_one };

    ghost right = { λ _. fresh_account 1 };
}

/// Moves all that an account has to a new one.
pub struct WholeAccount;

impl Split<Account> for WholeAccount {
    ghost use Rattle.bq_shared.specs.Sums.{seatless_account};

    ghost left = { λ _. seatless_account };

    ghost right = { λ v. v };
}

/// Makes two accounts one.
pub struct AccountsJoined;

impl Join<Account> for AccountsJoined {
    ghost use Rattle.bq_shared.specs.Sums.{joined_accounts, seatless_account};

    ghost both = { joined_accounts };

    ghost spent = { seatless_account };
}
