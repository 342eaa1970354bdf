//! The end of both tables: the history and the counters.
ghost use Rattle.std.specs.Prelude.{◌≡◌, ◌≤◌, ◌++◌, map};
ghost use Rattle.bq_history.specs.Whole.{count, Each};
ghost use Rattle.bq_history.specs.History.{IsHistory, EachOnce, AreReceiptsOf};
ghost use Rattle.bq_history.specs.Journals.{records_of, kept_of};
ghost use Rattle.bq_history.specs.Items.{caller_of, part_item, parts_of};
ghost use Rattle.bq_shared.specs.Sums.{AreSumsOf};
ghost use Rattle.bq_shared.specs.Calls.{account_by, calls_in};

use crate::seat::{ReportsCalls, Seat};
use crate::{CounterAccount, Counters, Counting};
use bq_bpf::board::COUNTERS;
use bq_history::{ClosedRecords, History, HolderOf, JournalOf, Naming, World, finish};

/// Ends both tables, given all parts and seats. Returns the records of the history, and the counters: each is the sum of the
/// adds in the history, modulo 2^64. It takes no memory.
pub fn close<R: ReportsCalls + Drop, M: World<Record = R>, N: Naming + Counting>(
    history: History<M, N>,
    journal: JournalOf<M, N>,
    parts: HolderOf<M, N>,
    counters: Counters<N>,
    seats: Vec<Seat<R, M::Part, M::Kept, N>>,
) -> (ClosedRecords<R>, [u64; COUNTERS])
    requires parts { parts ≡ map part_item (parts_of parts) }
    requires seats { EachOnce history.callers seats.items }
    requires same { counters ≡ history.callers }
    ensures history { result.0 ≡ records_of journal }
    ensures world { (w : M.State) × IsHistory (M.step history.setup) (M.opening history.setup) result.0 w × (M.kept w ≡ kept_of journal) × Each (M.fits w) (parts_of parts) }
    ensures once { (p : M.Part) → count (M.same p) (parts_of parts) ≤ 1 }
    ensures receipts { AreReceiptsOf result.0 seats.items }
    ensures counters { AreSumsOf (calls_in R.calls result.0) result.1 }
{
    let mut all = parts;
    let account = leave_all(&history, &mut all, &counters, seats);
    let log = finish(history, journal, all);
    let words = counters.close(account);
    (log, words)
}

/// Gives the callers of all seats to a holder, in their order. Returns the account of all seats.
fn leave_all<R: ReportsCalls + Drop, M: World<Record = R>, N: Naming + Counting>(
    history: &History<M, N>,
    all: &mut HolderOf<M, N>,
    counters: &Counters<N>,
    seats: Vec<Seat<R, M::Part, M::Kept, N>>,
) -> CounterAccount<N>
    ensures items { all.new ≡ all.old ++ map caller_of seats.items }
    ensures account { result ≡ account_by R.calls seats.items }
{
    let mut account = counters.seatless_account();
    for seat in seats {
        seat.leave(history, all, counters, &mut account);
    }
    account
}
