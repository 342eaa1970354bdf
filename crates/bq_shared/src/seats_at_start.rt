//! The seats at the start.
ghost use Rattle.std.specs.Prelude.{◌≡◌, ◌≤◌, ◌∷◌, [], IfOk};
ghost use Rattle.bq_history.specs.Whole.{first_item, others_of};
ghost use Rattle.bq_history.specs.Items.{caller_item, callers_from};
ghost use Rattle.bq_shared.specs.Sums.{fresh_account, without_one};
ghost use Rattle.bq_shared.specs.Calls.{fresh_callers};

use crate::seat::{ReportsCalls, Seat};
use crate::{CounterAccount, Counters, Counting};
use bq_history::{Caller, History, HolderOf, Naming, World};
use std::alloc::{AllocError, Global};

/// Makes a seat for each caller, numbered from 0. None of them has called anything. The holder must have the callers and nothing
/// else, and the account must be that of all seats.
pub fn seats<R: ReportsCalls + Drop, M: World<Record = R>, N: Naming + Counting>(
    alloc: Global,
    history: &History<M, N>,
    all: &mut HolderOf<M, N>,
    counters: &Counters<N>,
    account: CounterAccount<N>,
    count: u64,
) -> Result<Vec<Seat<R, M::Part, M::Kept, N>>, AllocError>
    requires all { all.old ≡ callers_from 0 count }
    requires account { account ≡ fresh_account count }
    ensures { IfOk result (λ v. v.items ≡ fresh_callers 0 count) }
{
    let mut seats = Vec::new(alloc);
    let mut account = account;
    for number in 0..count {
        seats.push(next_seat(history, all, counters, &mut account, number))?;
    }
    Ok(seats)
}

/// Makes the seat of the holder's first caller, with an account of its own.
fn next_seat<R: ReportsCalls + Drop, M: World<Record = R>, N: Naming + Counting>(
    history: &History<M, N>,
    all: &mut HolderOf<M, N>,
    counters: &Counters<N>,
    account: &mut CounterAccount<N>,
    number: u64,
) -> Seat<R, M::Part, M::Kept, N>
    requires first { first_item all.old ≡ caller_item number [] ∷ [] }
    requires left { (1 ≤ account.old.seats) × (account.old.calls ≡ []) }
    ensures seat { result ≡ (number, []) }
    ensures callers { all.new ≡ others_of all.old }
    ensures account { account.new ≡ without_one account.old }
{
    let caller = Caller::open(history, all, number);
    Seat::new(caller, counters.take_seat(account))
}
