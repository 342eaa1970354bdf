//! The counters.
ghost use Rattle.std.specs.Prelude.{◌≡◌, ◌<◌, ◌≤◌, IfOk, []};
ghost use Rattle.bq_bpf.specs.declared.board.CounterCall.TheVariants.{Add, Read};
ghost use Rattle.bq_history.specs.Tables.{table_of, start_of};
ghost use Rattle.bq_shared.specs.Sums.{AreSumsOf, joined_accounts, account_called, fresh_account, seatless_account, without_one};

use crate::account::{
    Account, AccountsJoined, Adding, CounterAccount, Counting, OneSeat, Reading, Summed,
    UnrecordedReading, UnseatedReading, WholeAccount,
};
use atomic_table::{Seat, Table};
use bq_bpf::board::COUNTERS;
use std::alloc::{AllocError, Global};
use std::marker::{Model, PhantomData};

/// Counters that have no name yet. Contracts see the name of their table and the number of seats.
#[derive(Drop)]
pub struct UnnamedCounters {
    table: Table<(), Account, u64, Summed, Global>,
    seat: Seat<(), Account>,
}

impl Model for UnnamedCounters {
    ghost use Rattle.std.specs.Prelude.{◌≡◌, ℕ, []};
    ghost use Rattle.atomic_table.specs.Seated.{TableId};
    ghost use Rattle.bq_bpf.specs.declared.board.TheConstants.{COUNTERS};
    ghost use Rattle.bq_history.specs.Tables.{IsOfWords};
    ghost use Rattle.bq_shared.specs.Sums.{fresh_account};

    ghost Value = { TableId × ℕ };

    ghost view = { λ u. (u.table.shared.table_id, u.table.shared.key) };

    ghost invariant = { λ u. IsOfWords COUNTERS u.table.shared.table_id × (u.seat.table_id ≡ u.table.shared.table_id) × (u.seat.me ≡ (fresh_account u.table.shared.key, [])) };
}

/// The counters of a machine. Contracts see the number of seats.
#[derive(Drop)]
pub struct Counters<N: Counting> {
    table: Table<(), Account, u64, Summed, Global>,
    of: PhantomData<N>,
}

impl<N: Counting> Model for Counters<N> {
    ghost use Rattle.std.specs.Prelude.{◌≡◌, ℕ};
    ghost use Rattle.bq_bpf.specs.declared.board.TheConstants.{COUNTERS};
    ghost use Rattle.bq_history.specs.Tables.{IsOfWords};

    ghost Value = { ℕ };

    ghost view = { λ c. c.table.shared.key };

    ghost invariant = { λ c. (c.table.shared.table_id ≡ N.counters) × IsOfWords COUNTERS c.table.shared.table_id };
}

impl UnnamedCounters {
    /// Makes counters that are all 0, for this many seats. It takes memory for their table.
    pub fn new(alloc: Global, seats: u64) -> Result<UnnamedCounters, AllocError>
        ensures { IfOk result (λ u. start_of u ≡ seats) }
    {
        let (table, seat) = Table::of_words(alloc, &[0; COUNTERS], &seats)?;
        Ok(UnnamedCounters { table, seat })
    }

    /// Names the counters. Returns them with the account of all seats.
    pub fn named<N: Counting>(self) -> (Counters<N>, CounterAccount<N>)
        requires { table_of self ≡ N.counters }
        ensures { (result.0 ≡ start_of self) × (result.1 ≡ fresh_account (start_of self)) }
    {
        let UnnamedCounters { table, seat } = self;
        (
            Counters {
                table,
                of: PhantomData,
            },
            CounterAccount {
                seat,
                of: PhantomData,
            },
        )
    }
}

impl<N: Counting> Counters<N> {
    /// Makes an account of no seat.
    pub fn seatless_account(&self) -> CounterAccount<N>
        ensures { result ≡ seatless_account }
    {
        let (_, seat) = self.table.shared.load_new_seat::<UnseatedReading>(0);
        CounterAccount {
            seat,
            of: PhantomData,
        }
    }

    /// Takes the account of one seat out of an account without calls.
    pub fn take_seat(&self, from: &mut CounterAccount<N>) -> CounterAccount<N>
        requires { (1 ≤ from.old.seats) × (from.old.calls ≡ []) }
        ensures { (from.new ≡ without_one from.old) × (result ≡ fresh_account 1) }
    {
        let seat = self.table.shared.split_seat::<OneSeat>(&mut from.seat);
        CounterAccount {
            seat,
            of: PhantomData,
        }
    }

    /// Moves all that an account has to a new one.
    pub fn take_all(&self, from: &mut CounterAccount<N>) -> CounterAccount<N>
        ensures { (from.new ≡ seatless_account) × (result ≡ from.old) }
    {
        let seat = self.table.shared.split_seat::<WholeAccount>(&mut from.seat);
        CounterAccount {
            seat,
            of: PhantomData,
        }
    }

    /// Adds another account to this one.
    pub fn join(&self, to: &mut CounterAccount<N>, other: CounterAccount<N>)
        ensures { to.new ≡ joined_accounts to.old other }
    {
        let CounterAccount { seat, of: _ } = other;
        self.table
            .shared
            .join_seat::<AccountsJoined>(&mut to.seat, seat);
    }

    /// Adds to a counter, modulo 2^64. Returns the value before; the account records this add.
    pub fn add(&self, account: &mut CounterAccount<N>, counter: u8, amount: u64) -> u64
        requires counter { counter < COUNTERS }
        requires seat { 1 ≤ account.old.seats }
        ensures { account.new ≡ account_called account.old (Add counter amount result) }
    {
        self.table
            .shared
            .fetch_add::<Adding>(&mut account.seat, usize::from(counter), amount)
    }

    /// Reads a counter. The account records this read.
    pub fn read(&self, account: &mut CounterAccount<N>, counter: u8) -> u64
        requires counter { counter < COUNTERS }
        requires seat { 1 ≤ account.old.seats }
        ensures { account.new ≡ account_called account.old (Read counter result) }
    {
        self.table
            .shared
            .load::<Reading>(&mut account.seat, usize::from(counter))
    }

    /// Reads a counter. No account records this read.
    pub fn counter(&self, account: &mut CounterAccount<N>, counter: u8) -> u64
        requires { counter < COUNTERS }
        ensures { account.new ≡ account.old }
    {
        self.table
            .shared
            .load::<UnrecordedReading>(&mut account.seat, usize::from(counter))
    }

    /// Ends the counters, given the account of all seats. Returns their values: each is the sum of the recorded adds, modulo 2^64.
    pub fn close(self, all: CounterAccount<N>) -> [u64; COUNTERS]
        requires whole { all.seats ≡ self }
        ensures { AreSumsOf all.calls result }
    {
        let Counters { table, of: _ } = self;
        let CounterAccount { seat, of: _ } = all;
        let closed = table.close_with(seat);
        let mut words = [0; COUNTERS];
        for i in 0..COUNTERS {
            words[i] = closed.word(i);
        }
        closed.free();
        words
    }
}
