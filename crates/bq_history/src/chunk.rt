//! Records for which room was made together.
ghost use Rattle.std.specs.Prelude.{◌≡◌, ◌<◌, IfOk, OnOk, [], ◌∷◌, ◌++◌, length, map, slice_get};
ghost use Rattle.std.specs.Option.{option_map};

use std::alloc::{AllocError, Global};
use std::marker::Model;

/// The number of records that a chunk has room for.
pub(crate) const CHUNK: u64 = 16;

/// Room for 16 records, and the records that are in it. Contracts see the list of those.
#[derive(Drop)]
pub struct Chunk<R: Drop> {
    records: Vec<R>,
}

impl<R: Drop> Model for Chunk<R> {
    ghost use Rattle.std.specs.Prelude.{◌≤◌, List, vec_capacity};

    ghost Value = { List R };

    ghost view = { λ c. c.records.items };

    ghost invariant = { λ c. 16 ≤ vec_capacity c.records };
}

impl<R: Drop> Chunk<R> {
    /// Room for 16 records, with none in it.
    pub(crate) fn new(alloc: Global) -> Result<Chunk<R>, AllocError>
        ensures { IfOk result (λ c. c ≡ []) }
    {
        let records = Vec::with_capacity(alloc, CHUNK as usize)?;
        Ok(Chunk { records })
    }

    /// Adds a record. It takes no memory.
    #[inline(always)]
    pub(crate) fn push(&mut self, entry: R)
        requires { length self.old < 16 }
        ensures { self.new ≡ self.old ++ entry ∷ [] }
    {
        self.records.push_reserved(entry);
    }

    /// The record at a place, counted from 0, or none if there are not that many.
    pub(crate) fn at(&self, place: u64) -> Option<&R>
        ensures { option_map (λ r. r.now) result ≡ slice_get self.now place }
    {
        self.records.get(place as usize)
    }

    /// Adds the records to the end of a list.
    pub(crate) fn list<'a>(&'a self, records: &mut Vec<&'a R>) -> Result<(), AllocError>
        ensures { OnOk result (map (λ r. r.now) records.new.items ≡ map (λ r. r.now) records.old.items ++ self.now) }
    {
        for entry in &self.records {
            records.push(entry)?;
        }
        Ok(())
    }
}
