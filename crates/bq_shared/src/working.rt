//! A seat while an event is under way.
ghost use Rattle.std.specs.Prelude.{◌≡◌, ◌≤◌, [], true};
ghost use Rattle.bq_history.specs.Callers.{receipts_of, with_receipt};
ghost use Rattle.bq_history.specs.Journals.{kept_of, kept_after, with_record, HasFreePlace, IsNextReceipt};
ghost use Rattle.bq_history.specs.Items.{MayCommit, MayCommitCell, MayCommitCells, IsCellCommitted};
ghost use Rattle.bq_shared.specs.Sums.{seatless_account};
ghost use Rattle.bq_shared.specs.Calls.{ahead, AccountMatchesReceipts};

use crate::seat::ReportsCalls;
use crate::{CounterAccount, CounterBoard, Counters, Counting};
use bq_history::{
    AsPart, Caller, Cell, CommitDraft, History, Journal, Naming, Receipt, World, commit,
    commit_one, commit_two,
};

/// What a seat holds: its caller, and its account of the counters. While an event is under way, the account may have more calls
/// than the receipts, namely those of that event; or it may be on the counter board on which a policy runs.
#[derive(Drop)]
pub struct Working<R, P, D, N: Naming + Counting> {
    pub caller: Caller<R, P, D, N>,
    pub account: CounterAccount<N>,
}

impl<R: ReportsCalls, P, D, N: Naming + Counting> Working<R, P, D, N> {
    /// Moves the account to a counter board, on which a policy may run.
    pub fn open_board<'a>(&mut self, counters: &'a Counters<N>) -> CounterBoard<'a, N>
        requires { 1 ≤ self.old.account.seats }
        ensures counter_board { result.account ≡ self.old.account }
        ensures caller { self.new.caller ≡ self.old.caller }
        ensures account { self.new.account ≡ seatless_account }
    {
        let account = counters.take_all(&mut self.account);
        CounterBoard { counters, account }
    }

    /// Moves the account back from the counter board, with the calls that were made there.
    pub fn close_board(&mut self, counter_board: CounterBoard<'_, N>)
        requires { self.old.account ≡ seatless_account }
        ensures caller { self.new.caller ≡ self.old.caller }
        ensures account { self.new.account ≡ counter_board.entry.account }
    {
        let CounterBoard { counters, account } = counter_board;
        counters.join(&mut self.account, account);
    }

    /// Commits a record that changes no part. The record has those calls of the account that no receipt has yet.
    pub fn commit<M: World<Record = R, Part = P, Kept = D>>(
        &mut self,
        history: &History<M, N>,
        journal: &mut Journal<R, P, D, N>,
        draft: CommitDraft<'_, R, D>,
    ) -> Receipt<R>
    where
        R: Drop,
        D: Drop,
        requires fits { HasFreePlace journal.old }
        requires ready { draft.room.now ≡ true }
        requires same { draft.logged ≡ draft.reported }
        requires reported { self.old.account ≡ ahead R.calls (receipts_of self.old.caller) (R.calls draft.reported) }
        requires may { MayCommit (M.step history.now.setup) (M.opening history.now.setup) M.kept M.same M.fits (kept_of journal.old) [] draft.reported (kept_after (kept_of journal.old) draft.kept) [] }
        ensures receipt { IsNextReceipt draft.entry.reported journal.old result }
        ensures journal { journal.new ≡ with_record draft.entry.reported draft.entry.kept journal.old }
        ensures caller { self.new.caller ≡ with_receipt result self.old.caller }
        ensures account { AccountMatchesReceipts R.calls self.new }
    {
        commit(history, journal, &mut self.caller, draft)
    }

    /// Commits a change of one part. Its cell is already changed, and its holder says what the part was.
    #[inline(always)]
    pub fn commit_one<M: World<Record = R, Part = P, Kept = D>, A: AsPart<P>>(
        &mut self,
        history: &History<M, N>,
        journal: &mut Journal<R, P, D, N>,
        a: &mut Cell<A, R, P, D, N>,
        draft: CommitDraft<'_, R, D>,
    ) -> Receipt<R>
    where
        R: Drop,
        D: Drop,
        requires fits { HasFreePlace journal.old }
        requires ready { draft.room.now ≡ true }
        requires same { draft.logged ≡ draft.reported }
        requires reported { self.old.account ≡ ahead R.calls (receipts_of self.old.caller) (R.calls draft.reported) }
        requires may { MayCommitCell (M.step history.now.setup) (M.opening history.now.setup) M.kept M.same M.fits A.part a.old (kept_of journal.old) draft.reported draft.kept }
        ensures receipt { IsNextReceipt draft.entry.reported journal.old result }
        ensures journal { journal.new ≡ with_record draft.entry.reported draft.entry.kept journal.old }
        ensures caller { self.new.caller ≡ with_receipt result self.old.caller }
        ensures account { AccountMatchesReceipts R.calls self.new }
        ensures a { IsCellCommitted A.part a.old a.new }
    {
        commit_one(history, journal, &mut self.caller, a, draft)
    }

    /// Commits a change of two parts. Their cells are already changed, and their holders say what the parts were.
    pub fn commit_two<M: World<Record = R, Part = P, Kept = D>, A: AsPart<P>, B: AsPart<P>>(
        &mut self,
        history: &History<M, N>,
        journal: &mut Journal<R, P, D, N>,
        a: &mut Cell<A, R, P, D, N>,
        b: &mut Cell<B, R, P, D, N>,
        draft: CommitDraft<'_, R, D>,
    ) -> Receipt<R>
    where
        R: Drop,
        D: Drop,
        requires fits { HasFreePlace journal.old }
        requires ready { draft.room.now ≡ true }
        requires same { draft.logged ≡ draft.reported }
        requires reported { self.old.account ≡ ahead R.calls (receipts_of self.old.caller) (R.calls draft.reported) }
        requires may { MayCommitCells (M.step history.now.setup) (M.opening history.now.setup) M.kept M.same M.fits A.part B.part a.old b.old (kept_of journal.old) draft.reported draft.kept }
        ensures receipt { IsNextReceipt draft.entry.reported journal.old result }
        ensures journal { journal.new ≡ with_record draft.entry.reported draft.entry.kept journal.old }
        ensures caller { self.new.caller ≡ with_receipt result self.old.caller }
        ensures account { AccountMatchesReceipts R.calls self.new }
        ensures a { IsCellCommitted A.part a.old a.new }
        ensures b { IsCellCommitted B.part b.old b.new }
    {
        commit_two(history, journal, &mut self.caller, a, b, draft)
    }
}
