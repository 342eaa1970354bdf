//! The maps of a program.
ghost use Rattle.std.specs.Prelude.{◌≡◌, ◌≤◌, ◌+◌, ℕ, [], length, map, slice_index, slice_index_or, slice_range, replicate, IfOk};
ghost use Rattle.bq_bpf.specs.Memory.{overwrite, HaveShapes};

use bq_bpf::MapShape;
use std::alloc::{AllocError, Global};
use std::marker::Model;

/// All maps of a program. Each has a shape, and the bytes of its values one after another.
#[derive(Drop)]
pub struct Maps {
    shapes: Vec<MapShape>,
    bytes: Vec<Vec<u8>>,
}

impl Model for Maps {
    ghost use Rattle.std.specs.Prelude.{map};
    ghost use Rattle.bq_maps.specs.Arrays.{Arrays};
    ghost use Rattle.bq_bpf.specs.Memory.{HaveShapes};

    ghost Value = { Arrays };

    ghost view = { λ m. record { shapes = m.shapes.items; bytes = map (λ v. v.items) m.bytes.items } };

    ghost invariant = { λ m. HaveShapes m.shapes.items (map (λ v. v.items) m.bytes.items) };
}

impl Maps {
    ghost use Rattle.std.specs.Prelude.{◌<◌, ℕ, Some, slice_get, slice_index, IsTrue, ◌↔◌};
    ghost use Rattle.std.specs.Bool.{OnTrue, OnFalse};
    ghost use Rattle.bq_maps.specs.Arrays.{HasEntry, value_size_of, entry_begin, bytes_of, entry_of, with_bytes};
    ghost use Rattle.bq_bpf.specs.Memory.{HaveShapes};

    /// Maps of these shapes, with all bytes 0. The only error is that memory runs out.
    pub fn new(alloc: Global, shapes: &[MapShape]) -> Result<Maps, AllocError>
        ensures shapes { IfOk result (λ m. m.shapes ≡ shapes.now) }
        ensures zero { IfOk result (λ m. (n i : ℕ) → slice_index (bytes_of m n) i ≡ 0) }
    {
        let bytes = all_zeros(alloc, shapes)?;
        let kept = shapes.to_vec(alloc)?;
        Ok(Maps {
            shapes: kept,
            bytes,
        })
    }

    /// The shapes, in order.
    pub fn shapes(&self) -> &[MapShape]
        ensures shapes { result.now ≡ self.now.shapes }
        ensures sizes { HaveShapes self.now.shapes self.now.bytes }
    {
        self.shapes.as_slice()
    }

    /// Whether there is a map `m` that has an entry `k`.
    pub fn lookup(&self, m: usize, k: u32) -> bool
        ensures { IsTrue result ↔ HasEntry self.now m k }
    {
        match self.shapes.get(m) {
            Some(shape) => k < u32::from(shape.entries),
            None => false,
        }
    }

    /// The shape of one map.
    pub fn shape(&self, m: usize) -> MapShape
        requires { m < length self.now.shapes }
        ensures shape { slice_get self.now.shapes m ≡ Some result }
        ensures sizes { HaveShapes self.now.shapes self.now.bytes }
    {
        self.shapes[m]
    }

    /// All bytes of one map, its first entry first.
    pub fn contents(&self, m: usize) -> &[u8]
        requires { m < length self.now.shapes }
        ensures bytes { result.now ≡ bytes_of self.now m }
        ensures sizes { HaveShapes self.now.shapes self.now.bytes }
    {
        self.bytes[m].as_slice()
    }

    /// The bytes of an entry that exists.
    pub fn entry(&self, m: usize, k: u32) -> &[u8]
        requires { HasEntry self.now m k }
        ensures { result.now ≡ entry_of self.now m k }
    {
        let size = usize::from(self.shape(m).value_size);
        part(self.contents(m), k as usize * size, size)
    }

    /// Writes bytes into a map, from its byte `at` on; no other byte changes.
    pub fn write(&mut self, m: usize, at: usize, bytes: &[u8])
        requires there { m < length self.old.shapes }
        requires inside { at + length bytes.now ≤ length (bytes_of self.old m) }
        ensures { self.new ≡ with_bytes self.old m at bytes.now }
    {
        paste(self.bytes[m].as_mut_slice(), at, bytes);
    }

    /// Writes bytes into an entry that exists, from the byte `at` of the entry on; no other byte changes.
    pub fn put(&mut self, m: usize, k: u32, at: usize, bytes: &[u8])
        requires there { HasEntry self.old m k }
        requires inside { at + length bytes.now ≤ value_size_of self.old m }
        ensures { self.new ≡ with_bytes self.old m (entry_begin self.old m k + at) bytes.now }
    {
        let size = usize::from(self.shape(m).value_size);
        self.write(m, k as usize * size + at, bytes);
    }

    /// Writes a value into an entry and answers true. If there is no such entry, answers false and changes nothing.
    pub fn update(&mut self, m: usize, k: u32, bytes: &[u8]) -> bool
        requires { HasEntry self.old m k → length bytes.now ≡ value_size_of self.old m }
        ensures answer { IsTrue result ↔ HasEntry self.old m k }
        ensures written { OnTrue result (self.new ≡ with_bytes self.old m (entry_begin self.old m k + 0) bytes.now) }
        ensures unchanged { OnFalse result (self.new ≡ self.old) }
    {
        if !self.lookup(m, k) {
            return false;
        }
        self.put(m, k, 0, bytes);
        true
    }
}

fn part(bytes: &[u8], first: usize, count: usize) -> &[u8]
    requires { first + count ≤ length bytes.now }
    ensures { result.now ≡ slice_range bytes.now first (first + count) }
{
    &bytes[first..first + count]
}

fn paste(into: &mut [u8], at: usize, bytes: &[u8])
    requires { at + length bytes.now ≤ length into.old }
    ensures { into.new ≡ overwrite into.old at bytes.now }
{
    into[at..at + bytes.len()].copy_from_slice(bytes);
}

/// The bytes of new maps of these shapes, in order: for each map as many zeros as its values take.
fn all_zeros(alloc: Global, shapes: &[MapShape]) -> Result<Vec<Vec<u8>>, AllocError>
    ensures sizes { IfOk result (λ all. HaveShapes shapes.now (map (λ v. v.items) all.items)) }
    ensures zero { IfOk result (λ all. (n i : ℕ) → slice_index (slice_index_or (map (λ v. v.items) all.items) n []) i ≡ 0) }
{
    let mut all = Vec::with_capacity(alloc, shapes.len())?;
    for shape in shapes {
        let size = usize::from(shape.value_size) * usize::from(shape.entries);
        all.push(zeros(alloc, size)?)?;
    }
    Ok(all)
}

fn zeros(alloc: Global, count: usize) -> Result<Vec<u8>, AllocError>
    ensures { IfOk result (λ v. v.items ≡ replicate count 0) }
{
    vec![in alloc; 0; count]
}
