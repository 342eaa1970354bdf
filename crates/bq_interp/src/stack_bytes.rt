//! The bytes of the stack in a run.

use std::marker::Model;

/// The 512 bytes of a stack.
#[derive(Drop)]
pub struct StackBytes {
    bytes: [u8; 512],
}

impl Model for StackBytes {
    ghost use Rattle.std.specs.Prelude.{◌≡◌, List, ℕ, length};
    ghost use Rattle.bq_bpf.specs.Memory.{stack_size};

    ghost Value = { List ℕ };

    ghost view = { λ f. f.bytes };

    ghost invariant = { λ f. length f.bytes ≡ stack_size };
}

impl StackBytes {
    ghost use Rattle.std.specs.Prelude.{◌≡◌, ◌≤◌, ◌+◌, length};
    ghost use Rattle.bq_bpf.specs.Memory.{overwrite, stack_size};

    /// A stack of these bytes.
    pub fn from_bytes(bytes: [u8; 512]) -> StackBytes
        ensures { result ≡ bytes }
    {
        StackBytes { bytes }
    }

    /// The bytes, the lowest address first.
    #[inline(always)]
    pub fn bytes(&self) -> &[u8]
        ensures bytes { result.now ≡ self.now }
        ensures long { length self.now ≡ stack_size }
    {
        &self.bytes
    }

    /// Writes bytes from an offset on; no other byte changes.
    #[inline(always)]
    pub fn write(&mut self, at: usize, bytes: &[u8])
        requires { at + length bytes.now ≤ stack_size }
        ensures written { self.new ≡ overwrite self.old at bytes.now }
        ensures long { length self.old ≡ stack_size }
    {
        self.bytes[at..at + bytes.len()].copy_from_slice(bytes);
    }
}
