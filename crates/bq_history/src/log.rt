//! Records in the order in which they were added, chunk by chunk.
ghost use Rattle.std.specs.Prelude.{◌≡◌, ◌+◌, ◌<◌, ◌^◌, [], ◌∷◌, ◌++◌, List, length, true};
ghost use Rattle.bq_history.specs.Chains.{chain_behind};
ghost use Rattle.bq_history.specs.Chunks.{joined, AreChunks};

use crate::chain::{GrowingList, Link, Slip};
use crate::chunk::{CHUNK, Chunk};
use crate::room::Room;
use std::marker::Model;

/// Records, in chunks that are full except for the last. Contracts see the records in the order in which they were added.
#[derive(Drop)]
pub struct Log<R: Drop> {
    chunks: GrowingList<Chunk<R>>,
    len: u64,
}

impl<R: Drop> Model for Log<R> {
    ghost use Rattle.std.specs.Prelude.{◌≡◌, List, length};
    ghost use Rattle.bq_history.specs.Chunks.{joined, AreChunks};

    ghost Value = { List R };

    ghost view = { λ l. joined l.chunks };

    ghost invariant = { λ l. AreChunks l.chunks × (l.len ≡ length (joined l.chunks)) };
}

impl<R: Drop> Log<R> {
    /// A log without records.
    pub(crate) fn new() -> Log<R>
        ensures { result ≡ [] }
    {
        Log {
            chunks: GrowingList::new(),
            len: 0,
        }
    }

    /// How many records there are.
    pub(crate) fn len(&self) -> u64
        ensures { result ≡ length self.now }
    {
        self.len
    }

    /// Adds a record at the end. If all chunks are full, the record goes into the spare chunk of the room. It takes no memory.
    #[inline(always)]
    pub(crate) fn push(&mut self, entry: R, room: &mut Room<R>)
        requires fits { length self.old + 1 < 2 ^ 64 }
        requires ready { room.old ≡ true }
        ensures { self.new ≡ self.old ++ entry ∷ [] }
    {
        let place = self.len;
        self.len = place + 1;
        if place % CHUNK == 0 {
            let slip = begun(room.take_chunk(), entry);
            self.chunks.push(slip);
        } else {
            append(&mut self.chunks, entry);
        }
    }

    /// The chain of the chunks from the first to the last, the number of chunks, and the number of records. It takes no memory.
    pub(crate) fn in_order(self) -> (Link<Chunk<R>>, u64, u64)
        ensures chunks { joined (chain_behind result.0) ≡ self }
        ensures are_chunks { AreChunks (chain_behind result.0) }
        ensures count { result.1 ≡ length (chain_behind result.0) }
        ensures len { result.2 ≡ length self }
    {
        let Log { chunks, len } = self;
        let (chain, count) = chunks.in_order();
        (chain, count, len)
    }
}

/// A spare chunk with its first record in it.
fn begun<R: Drop>(slip: Slip<Chunk<R>>, entry: R) -> Slip<Chunk<R>>
    requires { slip ≡ [] }
    ensures { result ≡ entry ∷ [] }
{
    let mut slip = slip;
    slip.node.item.push(entry);
    slip
}

/// Adds a record to the last chunk, which must have room for it.
#[inline(always)]
fn append<R: Drop>(chunks: &mut GrowingList<Chunk<R>>, entry: R)
    requires { (front : List (List R)) × (last : List R) × (chunks.old ≡ front ++ last ∷ []) × (length last < 16) }
    ensures { (front : List (List R)) (last : List R) → chunks.old ≡ front ++ last ∷ [] → chunks.new ≡ front ++ (last ++ entry ∷ []) ∷ [] }
{
    let Some(node) = &mut chunks.last else {
        unreachable!()
    };
    node.item.push(entry);
}
