//! What is shared: the history, the callers' receipts, and the world that the history leads to.
ghost use Rattle.std.specs.Prelude.{Bool, List};

use crate::Law;
use std::collections::LinkedList;
use std::marker::PhantomData;

/// Tells a caller the place of its record.
#[derive(Clone, Copy, Drop)]
pub struct Receipt<R> {
    pub place: u64,
    pub entry: R,
}

/// For contracts only, so no value exists at run time: what one holder knows.
pub enum Item<R, P, D> {
    /// The whole history, and what is kept beside it.
    Journal(LinkedList<R>, D),
    /// A caller's number and its receipts.
    Caller(u64, LinkedList<Receipt<R>>),
    /// A part of the world.
    Part(P),
}

/// What one holder knows of the world `M`.
pub type ItemOf<M> = Item<<M as World>::Record, <M as World>::Part, <M as World>::Kept>;

/// For contracts only, so no value exists at run time: all that is shared.
pub struct SharedState<R, W> {
    pub log: LinkedList<R>,
    pub lists: LinkedList<LinkedList<Receipt<R>>>,
    pub world: W,
}

/// What is fixed at the start: the setup of the world, and the number of callers.
#[derive(Drop)]
pub struct FixedAtStart<S> {
    pub setup: S,
    pub callers: u64,
}

/// A world that changes by steps.
pub trait World {
    /// The record of a step.
    type Record: Drop;
    /// The state of the world.
    type State;
    /// A part of the world.
    type Part;
    /// What the journal keeps of the world.
    type Kept: Drop;
    /// What of the world is fixed at the start.
    type Setup;

    // The world at the start.
    ghost opening: { Self.Setup → Self.State };

    // The step from the world before to the world after, with its record.
    ghost step: { Self.Setup → Self.State → Self.Record → Self.State → Type 0 };

    // What the journal keeps of the world.
    ghost kept: { Self.State → Self.Kept };

    // Whether two parts are at one place.
    ghost same: { Self.Part → Self.Part → Bool };

    // Whether the world has this part.
    ghost fits: { Self.State → Self.Part → Type 0 };

    // The parts at the start.
    ghost first: { Self.Setup → List Self.Part };
}

/// The law of a world with its history.
pub struct Recorded<M> {
    of: PhantomData<M>,
}

impl<M: World> Law<ItemOf<M>, SharedState<M::Record, M::State>, FixedAtStart<M::Setup>>
    for Recorded<M> {
    ghost use Rattle.bq_history.specs.Items.{same_item, fits_item, IsGood, first_items};

    ghost same = { same_item M.same };

    ghost good = { λ start t. IsGood (M.step start.setup) (M.opening start.setup) start.callers t };

    ghost fits = { fits_item M.kept M.fits };

    ghost first = { λ start. first_items (M.kept (M.opening start.setup)) (M.first start.setup) start.callers };
}
