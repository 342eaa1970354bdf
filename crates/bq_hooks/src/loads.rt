//! How many tasks each processor has.
ghost use Rattle.std.specs.Prelude.{◌≡◌, ◌<◌, ◌≤◌, [], ◌∷◌, ◌++◌, length, slice_index, slice_set};

use arrayvec::ArrayVec;
use bq_disc::limits::PROCESSORS;
use std::marker::Model;

/// The loads of up to 64 processors, by their numbers.
#[derive(Drop)]
pub struct Loads {
    counts: ArrayVec<u16, 64>,
}

impl Model for Loads {
    ghost use Rattle.std.specs.Prelude.{List, ℕ, ◌≤◌, length};

    ghost Value = { List ℕ };

    ghost view = { λ l. l.counts.items };

    ghost invariant = { λ l. length l.counts.items ≤ 64 };
}

impl Loads {
    /// Loads of no processor.
    pub fn new() -> Loads
        ensures { result ≡ [] }
    {
        Loads {
            counts: ArrayVec::new(),
        }
    }

    /// Adds the load of the next processor.
    pub fn push(&mut self, count: u16)
        requires { length self.old < PROCESSORS }
        ensures { self.new ≡ self.old ++ count ∷ [] }
    {
        self.counts.push(count);
    }

    /// The load of a processor; 0 if none is recorded.
    pub fn get(&self, processor: usize) -> u16
        ensures { result ≡ slice_index self.now processor }
    {
        match self.counts.get(processor) {
            Some(count) => *count,
            None => 0,
        }
    }

    /// Sets the load of a processor, if one is recorded.
    pub fn set(&mut self, processor: usize, count: u16)
        ensures { self.new ≡ slice_set self.old processor count }
    {
        let counts = self.counts.as_mut_slice();
        if processor < counts.len() {
            counts[processor] = count;
        }
    }

    /// The loads, in order.
    pub fn as_slice(&self) -> &[u16]
        ensures { result.now ≡ self.now }
    {
        self.counts.as_slice()
    }

    /// A copy of the loads.
    pub fn copy(&self) -> Loads
        ensures { result ≡ self.now }
    {
        let mut loads = Loads::new();
        for &count in self.counts.as_slice() {
            loads.push(count);
        }
        loads
    }
}

/// Loads are equal if they are the same numbers, in the same order.
impl PartialEq for Loads {
    ghost use Rattle.std.specs.Prelude.{◌==◌};
    ghost use Rattle.std.specs.Cmp.{partial_equiv_from_equiv};
    ghost use Rattle.std.specs.Cmp.Lexicographic.{pointwise, nat_list_eq_equiv};

    ghost eq = { pointwise ◌==◌ };

    ghost laws = { partial_equiv_from_equiv nat_list_eq_equiv };

    fn eq(&self, other: &Loads) -> bool {
        self.as_slice() == other.as_slice()
    }
}
