//! Why an object file has no policy that can be read.

use thiserror::Error;

/// The most sections of an object.
pub const MOST_SECTIONS: u16 = 256;

/// What a file has to hold, and ends before.
#[derive(Clone, Copy, Debug, PartialEq, Eq, Error)]
pub enum Piece {
    #[error("header")]
    Header,
    #[error("section headers")]
    Headers,
    #[error("symbols")]
    Symbols,
    #[error("names")]
    Names,
    #[error("function `policy`")]
    Policy,
    #[error("relocations")]
    Relocations,
}

/// What a linker fills in, and what to write instead.
#[derive(Clone, Copy, Debug, PartialEq, Eq, Error)]
pub enum Filled {
    #[error("the address of a function; put BQ_INLINE before that function, so that it is copied in")]
    Function,
    #[error("the address of a global, a constant table or a map in a section; keep state in an entry of BQ_MAP(k)")]
    Data,
}

/// Why an object file has no policy that can be read.
#[derive(Clone, Copy, Debug, PartialEq, Eq, Error)]
pub enum ObjectFault {
    /// It is of 32 bits, or big-endian.
    #[error("the object is not ELF64, little-endian; compile with -target bpf (or bpfel)")]
    Class,
    /// It is for another processor.
    #[error("the object is not for BPF; compile with -target bpf")]
    Machine,
    /// Its section headers have another size than those of ELF64.
    #[error("the object's section headers are not of 64 bytes")]
    HeaderSize,
    /// It has more sections than are read.
    #[error("the object has more than {most} sections; put the policy into a file of its own", most = MOST_SECTIONS)]
    Sections,
    /// It has no function of that name.
    #[error("the object has no function `policy`; name the policy so, without `static`")]
    NoPolicy,
    /// The instruction at this slot of the policy is one that a linker completes.
    #[error("slot {slot}: a linker would fill in {what}")]
    Relocation { slot: u64, what: Filled },
    /// The file does not hold all that its headers name.
    #[error("the object is cut off: its {0} are not all there")]
    Cut(Piece),
}
