//! The law that the history of a machine obeys: the steps of the world in parts.

use crate::journal_state::JournalState;
use crate::record::Record;
use crate::world_part::WorldPart;
use bq_disc::RunQueue;
use bq_history::{History, World};
use std::marker::{Model, PhantomData};

/// For contracts only, so no value exists at run time: the world.
pub struct WorldState;

impl Model for WorldState {
    ghost use Rattle.bq_parts.specs.World.{World, opening_world};

    ghost Value = { World };

    ghost view = { λ _. opening_world 0 };
}

/// The law of the world under the discipline of a queue. The number of processors is fixed.
pub struct SchedulerLaw<Q> {
    of: PhantomData<Q>,
}

/// The history, as all callers share it.
pub type Shared<Q, N> = History<SchedulerLaw<Q>, N>;

impl<Q: RunQueue> World for SchedulerLaw<Q> {
    type Record = Record;

    type State = WorldState;

    type Part = WorldPart;

    type Kept = JournalState;

    type Setup = u64;

    ghost use Rattle.bq_parts.specs.World.{opening_world};
    ghost use Rattle.bq_shared.specs.Parts.{RecordStep, journal_state_of, same_part, HasPart, first_parts};

    ghost opening = { opening_world };

    ghost step = { λ _. RecordStep Q.R.discipline };

    ghost kept = { journal_state_of };

    ghost same = { same_part };

    ghost fits = { HasPart };

    ghost first = { first_parts };
}
