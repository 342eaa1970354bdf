//! Instructions of BPF as values, from bytes and to bytes: RFC 9669, groups base32, base64, divmul32 and divmul64. `decode`
//! lists what the bytes spell, or names the first faulty instruction and its least cause; `encode` appends a list's bytes.
#![tactic(auto)]

pub mod decode;
pub mod encode;
pub mod fault;
mod form;
mod judge;
pub mod laws;
mod opcode;
mod reading;
mod slot;
mod spelling;
mod uses;

ghost use Rattle.std.specs.Prelude.{◌≡◌};
ghost use Rattle.bq_insn.specs.Slots.{byte_count, slots_of};

/// The greatest number of slots of eight bytes in a program.
pub const SLOTS: usize = 4096;

/// How many registers there are: r0 to r10 (RFC 9669, section 3.1).
pub const REGISTERS: usize = 11;

/// How many low bits of its operands an instruction works on (RFC 9669, section 3.3).
#[derive(Clone, Copy, PartialEq, Eq)]
pub enum Width {
    /// The low 32 bits; arithmetic makes the upper 32 bits of its result zero. Classes ALU and JMP32.
    W32,
    /// All 64 bits. Classes ALU64 and JMP.
    W64,
}

/// What an arithmetic instruction does with its two operands, the first of which is the destination (RFC 9669,
/// section 4.1). Sums, differences and products wrap; a shift's amount is masked by the width.
#[derive(Clone, Copy, PartialEq, Eq)]
pub enum Operation {
    /// The sum.
    Add,
    /// The difference.
    Sub,
    /// The product.
    Mul,
    /// The quotient of unsigned numbers; 0 if the divisor is 0.
    Div,
    /// The quotient of signed numbers, rounded towards zero; 0 if the divisor is 0.
    Sdiv,
    /// The bits that either operand has.
    Or,
    /// The bits that both operands have.
    And,
    /// A shift to the left.
    Lsh,
    /// A shift to the right that brings in zeros.
    Rsh,
    /// The remainder of unsigned numbers; the destination if the divisor is 0.
    Rem,
    /// The remainder of `Sdiv`, with the destination's sign; the destination if the divisor is 0.
    Srem,
    /// The bits that exactly one operand has.
    Xor,
    /// The second operand.
    Mov,
    /// A shift to the right that brings in the sign.
    Arsh,
}

/// The second operand (RFC 9669, section 4): a number in the instruction, or a register.
#[derive(Clone, Copy, PartialEq, Eq)]
pub enum Source {
    /// A signed number, whose sign is extended to 64 bits (K in the RFC).
    Imm(i32),
    /// A register, 0 to 10 (X in the RFC).
    Reg(u8),
}

/// How many bytes a load or a store moves (RFC 9669, section 5).
#[derive(Clone, Copy, PartialEq, Eq)]
pub enum Size {
    /// One byte.
    Byte,
    /// Two bytes.
    Half,
    /// Four bytes.
    Word,
    /// Eight bytes.
    Double,
}

/// When a branch is taken: how its first operand compares with its second (RFC 9669, section 4.3).
#[derive(Clone, Copy, PartialEq, Eq)]
pub enum Condition {
    /// The operands are equal.
    Equal,
    /// The first is greater, without signs.
    Greater,
    /// The first is greater or equal, without signs.
    GreaterEqual,
    /// Both operands have a bit in common.
    AnyBit,
    /// The operands differ.
    NotEqual,
    /// The first is greater, with signs.
    SignedGreater,
    /// The first is greater or equal, with signs.
    SignedGreaterEqual,
    /// The first is less, without signs.
    Less,
    /// The first is less or equal, without signs.
    LessEqual,
    /// The first is less, with signs.
    SignedLess,
    /// The first is less or equal, with signs.
    SignedLessEqual,
}

/// Which byte order an operand is brought to, on a host that is little-endian (RFC 9669, section 4.2).
#[derive(Clone, Copy, PartialEq, Eq)]
pub enum Order {
    /// To little-endian: the low bytes stay as they are.
    Little,
    /// To big-endian: the low bytes are reversed.
    Big,
    /// To the opposite byte order: the low bytes are reversed.
    Swapped,
}

/// How many low bits an extension of the sign or a byte order keeps.
#[derive(Clone, Copy, PartialEq, Eq)]
pub enum Bits {
    /// Eight; no byte order has it.
    B8,
    /// Sixteen.
    B16,
    /// Thirty-two; no extension to 32 bits has it.
    B32,
    /// Sixty-four; no extension has it.
    B64,
}

/// One instruction. Registers are numbered from 0 to 10. `well_formed` says which values the fields may have.
#[derive(Clone, Copy, PartialEq, Eq)]
pub enum Insn {
    /// `dst` becomes the result of the operation on `dst` and `src` (RFC 9669, section 4.1).
    Alu {
        width: Width,
        op: Operation,
        dst: u8,
        src: Source,
    },
    /// `dst` becomes the low bits of `src`, their sign extended over the width (section 4.1, MOVSX).
    MovSx {
        width: Width,
        bits: Bits,
        dst: u8,
        src: u8,
    },
    /// `dst` becomes its negation, which wraps (section 4.1).
    Neg {
        width: Width,
        dst: u8,
    },
    /// `dst` becomes its low bits in that byte order, and zeros above them (section 4.2).
    End {
        kind: Order,
        bits: Bits,
        dst: u8,
    },
    /// `dst` becomes the bytes at the address `src` + `off`. Above them are zeros, or their sign if `signed` is true
    /// (sections 5.1 and 5.2).
    Load {
        size: Size,
        signed: bool,
        dst: u8,
        src: u8,
        off: i16,
    },
    /// The bytes at the address `dst` + `off` become the low bytes of `imm`, whose sign is extended first (section
    /// 5.1).
    StoreImm {
        size: Size,
        dst: u8,
        off: i16,
        imm: i32,
    },
    /// The bytes at the address `dst` + `off` become the low bytes of `src` (section 5.1).
    StoreReg {
        size: Size,
        dst: u8,
        off: i16,
        src: u8,
    },
    /// `dst` becomes the number; the instruction takes two slots (section 5.4).
    Imm64 {
        dst: u8,
        value: u64,
    },
    /// `dst` becomes the reference of the program's map of that index; the instruction takes two slots (section 5.4.1).
    MapRef {
        dst: u8,
        index: i32,
    },
    /// Goes on this many slots after the next one (section 4.3, JA of class JMP).
    Goto {
        off: i16,
    },
    /// Goes on this many slots after the next one, with a distance of 32 bits (section 4.3, JA of class JMP32).
    Goto32 {
        imm: i32,
    },
    /// If the condition holds of `dst` and `src`, goes on this many slots after the next one (section 4.3).
    Branch {
        width: Width,
        cond: Condition,
        dst: u8,
        src: Source,
        off: i16,
    },
    /// Calls the helper of that number (section 4.3.1).
    Call {
        helper: i32,
    },
    /// Ends the program (section 4.3).
    Exit,
}

impl Size {
    /// The number of bytes: 1, 2, 4 or 8.
    pub fn bytes(self) -> usize
        ensures { result ≡ byte_count self }
    {
        match self {
            Size::Byte => 1,
            Size::Half => 2,
            Size::Word => 4,
            Size::Double => 8,
        }
    }
}

impl Insn {
    /// How many slots of eight bytes the instruction takes: two if it is wide (RFC 9669, section 3.2), else
    /// one.
    pub fn slots(self) -> usize
        ensures { result ≡ slots_of self }
    {
        match self {
            Insn::Imm64 { .. } | Insn::MapRef { .. } => 2,
            _ => 1,
        }
    }
}
