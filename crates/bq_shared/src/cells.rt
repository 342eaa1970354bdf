//! The contents of the locks.

use crate::journal_state::JournalState;
use crate::record::Record;
use crate::world_part::WorldPart;
use bq_disc::RunQueue;
use bq_history::{AsPart, HasContent, Locked, Placed};
use bq_installed::Scratch;
use bq_parts::{Cpu, Inbox, Lobby};

/// The content of a lock, with the holder of its part.
pub type UnderLock<A, N> = Locked<A, Record, WorldPart, JournalState, N>;

/// A processor and its number, with the space in which its policies run.
#[derive(Drop)]
pub struct NumberedCpu<Q: RunQueue> {
    pub number: u8,
    pub state: Cpu<Q>,
    pub scratch: Scratch,
}

/// An inbox and its number.
#[derive(Drop)]
pub struct NumberedInbox {
    pub number: u8,
    pub state: Inbox,
}

/// The lobby. There is only one, so it needs no number.
#[derive(Drop)]
pub struct OneLobby {
    pub state: Lobby,
}

impl<Q: RunQueue> AsPart<WorldPart> for NumberedCpu<Q> {
    ghost use Rattle.std.specs.Prelude.{◌≡◌, None};
    ghost use Rattle.bq_shared.specs.Parts.{cpu_part};

    ghost part = { λ c. cpu_part c.number c.state };

    // While the lock is free the hand is empty.
    ghost rests = { λ c. c.state.hand ≡ None };
}

impl AsPart<WorldPart> for NumberedInbox {
    ghost use Rattle.bq_shared.specs.Parts.{inbox_part};

    ghost part = { λ c. inbox_part c.number c.state };
}

impl AsPart<WorldPart> for OneLobby {
    ghost use Rattle.bq_shared.specs.Parts.{lobby_part};

    ghost part = { λ c. lobby_part c.state };
}

impl<Q: RunQueue> Placed for NumberedCpu<Q> {
    ghost place = { λ c. c.number };

    fn place(&self) -> u64 {
        u64::from(self.number)
    }
}

impl Placed for NumberedInbox {
    ghost place = { λ c. c.number };

    fn place(&self) -> u64 {
        u64::from(self.number)
    }
}

impl<Q: RunQueue> HasContent<Cpu<Q>> for NumberedCpu<Q> {
    ghost content = { λ c. c.state };

    fn into_content(self) -> Cpu<Q> {
        let NumberedCpu { state, .. } = self;
        state
    }
}

impl HasContent<Inbox> for NumberedInbox {
    ghost content = { λ c. c.state };

    fn into_content(self) -> Inbox {
        let NumberedInbox { state, .. } = self;
        state
    }
}
