//! Room for records, made before any lock is taken.
ghost use Rattle.std.specs.Prelude.{◌≡◌, OnOk, OnErr, [], true, false};

use crate::chain::Slip;
use crate::chunk::Chunk;
use std::alloc::{AllocError, Global};
use std::marker::Model;

/// What a caller has ready for its next record, so that a commit takes no memory: a spare chunk, or nothing yet. A commit
/// takes the chunk only if the last one of the history is full. Contracts see whether it is ready.
#[derive(Drop)]
pub struct Room<R: Drop> {
    spare: Option<Slip<Chunk<R>>>,
}

impl<R: Drop> Model for Room<R> {
    ghost use Rattle.std.specs.Prelude.{◌≡◌, Bool, [], IfSome, is_some};

    ghost Value = { Bool };

    ghost view = { λ r. is_some r.spare };

    ghost invariant = { λ r. IfSome r.spare (λ c. c ≡ []) };
}

impl<R: Drop> Room<R> {
    /// Room with nothing ready.
    pub fn new() -> Room<R>
        ensures { result ≡ false }
    {
        Room { spare: None }
    }

    /// Makes the room ready. It takes memory only if the room is not ready yet. If memory runs out, the room does not change.
    #[inline(always)]
    pub fn prepare(&mut self, alloc: Global) -> Result<(), AllocError>
        ensures ready { OnOk result (self.new ≡ true) }
        ensures err { OnErr result (self.new ≡ self.old) }
    {
        if self.spare.is_some() {
            return Ok(());
        }
        self.fill(alloc)
    }

    /// Makes the spare chunk. It is a function of its own since only one record in 16 takes a chunk, and the others only look.
    #[cold]
    #[inline(never)]
    fn fill(&mut self, alloc: Global) -> Result<(), AllocError>
        ensures ready { OnOk result (self.new ≡ true) }
        ensures err { OnErr result (self.new ≡ self.old) }
    {
        let chunk = Chunk::new(alloc)?;
        self.spare = Some(Slip::new(alloc, chunk)?);
        Ok(())
    }

    /// The spare chunk.
    pub(crate) fn take_chunk(&mut self) -> Slip<Chunk<R>>
        requires { self.old ≡ true }
        ensures { result ≡ [] }
    {
        let Some(slip) = self.spare.take() else {
            unreachable!()
        };
        slip
    }
}
