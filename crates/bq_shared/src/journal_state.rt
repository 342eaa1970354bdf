//! What the journal keeps of the world.
ghost use Rattle.std.specs.Prelude.{◌≡◌};
ghost use Rattle.bq_history.specs.Journals.{kept_after};
ghost use Rattle.bq_shared.specs.Parts.{kept_by_block, kept_by_pull, one_less, with_one_more};

use bq_hooks::Loads;
use bq_parts::{Refusal, Reply};

/// What the journal keeps of the world: the last number drawn, and the load of each processor.
#[derive(Drop)]
pub struct JournalState {
    pub drawn: u64,
    pub loads: Loads,
}

impl JournalState {
    /// Copies what is kept.
    pub fn copy(&self) -> JournalState
        ensures { result ≡ self.now }
    {
        JournalState {
            drawn: self.drawn,
            loads: self.loads.copy(),
        }
    }

    /// Counts a task that has come to a processor.
    pub fn one_more(&mut self, processor: u8)
        ensures { self.new ≡ with_one_more processor self.old }
    {
        let index = usize::from(processor);
        let load = self.loads.get(index).saturating_add(1);
        self.loads.set(index, load);
    }

    /// Counts a task that has left a processor.
    pub fn one_less(&mut self, processor: u8)
        ensures { self.new ≡ one_less processor self.old }
    {
        let index = usize::from(processor);
        let load = self.loads.get(index).saturating_sub(1);
        self.loads.set(index, load);
    }

    /// Returns what is kept after a processor has answered a block, or None if that does not change. Its task has left, unless the
    /// block was refused.
    pub fn after_block(
        &self,
        processor: u8,
        answer: &Result<Reply, Refusal>,
    ) -> Option<JournalState>
        ensures { kept_after self.now result ≡ kept_by_block processor answer.now self.now }
    {
        if answer.is_err() {
            return None;
        }
        let mut kept = self.copy();
        kept.one_less(processor);
        Some(kept)
    }

    /// Returns what is kept after a processor has answered a pull from another, or None if that does not change. A task has gone
    /// from `from` to `processor`, or none has.
    pub fn after_pull(&self, processor: u8, from: u8, reply: &Reply) -> Option<JournalState>
        ensures { kept_after self.now result ≡ kept_by_pull processor from reply.now self.now }
    {
        let Reply::Pulled { task: Some(_), .. } = reply else {
            return None;
        };
        let mut kept = self.copy();
        kept.one_less(from);
        kept.one_more(processor);
        Some(kept)
    }
}
