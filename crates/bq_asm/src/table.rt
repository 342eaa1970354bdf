//! Every first word with the mnemonic that it says.
ghost use Rattle.std.specs.Prelude.{◌≡◌};
ghost use Rattle.bq_asm.specs.Named.{named, entry_with, by_bytes, table};

use crate::mnemonic::Mnemonic;
use crate::mnemonic::Mnemonic::{
    Alu, Branch, Call, End, Exit, Goto, Goto32, Imm64, Load, LoadSigned, MapRef, MovSx, Neg,
    StoreImm, StoreReg,
};
use bq_insn::Bits::{B8, B16, B32, B64};
use bq_insn::Condition::{
    AnyBit, Equal, Greater, GreaterEqual, Less, LessEqual, NotEqual, SignedGreater,
    SignedGreaterEqual, SignedLess, SignedLessEqual,
};
use bq_insn::Operation::{Add, And, Arsh, Div, Lsh, Mov, Mul, Or, Rem, Rsh, Sdiv, Srem, Sub, Xor};
use bq_insn::Order::{Big, Little, Swapped};
use bq_insn::Size::{Byte, Double, Half, Word};
use bq_insn::Width::{W32, W64};

/// The first words and the mnemonics that they say, words of 64 bits before words of 32. No word is listed twice.
static MNEMONICS: [(&str, Mnemonic); 87] = [
    ("mov64", Alu(W64, Mov)),
    ("add64", Alu(W64, Add)),
    ("sub64", Alu(W64, Sub)),
    ("mul64", Alu(W64, Mul)),
    ("div64", Alu(W64, Div)),
    ("sdiv64", Alu(W64, Sdiv)),
    ("or64", Alu(W64, Or)),
    ("and64", Alu(W64, And)),
    ("xor64", Alu(W64, Xor)),
    ("lsh64", Alu(W64, Lsh)),
    ("rsh64", Alu(W64, Rsh)),
    ("arsh64", Alu(W64, Arsh)),
    ("mod64", Alu(W64, Rem)),
    ("smod64", Alu(W64, Srem)),
    ("neg64", Neg(W64)),
    ("jeq64", Branch(W64, Equal)),
    ("jgt64", Branch(W64, Greater)),
    ("jge64", Branch(W64, GreaterEqual)),
    ("jset64", Branch(W64, AnyBit)),
    ("jne64", Branch(W64, NotEqual)),
    ("jsgt64", Branch(W64, SignedGreater)),
    ("jsge64", Branch(W64, SignedGreaterEqual)),
    ("jlt64", Branch(W64, Less)),
    ("jle64", Branch(W64, LessEqual)),
    ("jslt64", Branch(W64, SignedLess)),
    ("jsle64", Branch(W64, SignedLessEqual)),
    ("mov32", Alu(W32, Mov)),
    ("add32", Alu(W32, Add)),
    ("sub32", Alu(W32, Sub)),
    ("mul32", Alu(W32, Mul)),
    ("div32", Alu(W32, Div)),
    ("sdiv32", Alu(W32, Sdiv)),
    ("or32", Alu(W32, Or)),
    ("and32", Alu(W32, And)),
    ("xor32", Alu(W32, Xor)),
    ("lsh32", Alu(W32, Lsh)),
    ("rsh32", Alu(W32, Rsh)),
    ("arsh32", Alu(W32, Arsh)),
    ("mod32", Alu(W32, Rem)),
    ("smod32", Alu(W32, Srem)),
    ("neg32", Neg(W32)),
    ("jeq32", Branch(W32, Equal)),
    ("jgt32", Branch(W32, Greater)),
    ("jge32", Branch(W32, GreaterEqual)),
    ("jset32", Branch(W32, AnyBit)),
    ("jne32", Branch(W32, NotEqual)),
    ("jsgt32", Branch(W32, SignedGreater)),
    ("jsge32", Branch(W32, SignedGreaterEqual)),
    ("jlt32", Branch(W32, Less)),
    ("jle32", Branch(W32, LessEqual)),
    ("jslt32", Branch(W32, SignedLess)),
    ("jsle32", Branch(W32, SignedLessEqual)),
    ("movsx64_8", MovSx(W64, B8)),
    ("movsx64_16", MovSx(W64, B16)),
    ("movsx64_32", MovSx(W64, B32)),
    ("movsx32_8", MovSx(W32, B8)),
    ("movsx32_16", MovSx(W32, B16)),
    ("le16", End(Little, B16)),
    ("le32", End(Little, B32)),
    ("le64", End(Little, B64)),
    ("be16", End(Big, B16)),
    ("be32", End(Big, B32)),
    ("be64", End(Big, B64)),
    ("swap16", End(Swapped, B16)),
    ("swap32", End(Swapped, B32)),
    ("swap64", End(Swapped, B64)),
    ("ldxb", Load(Byte)),
    ("ldxh", Load(Half)),
    ("ldxw", Load(Word)),
    ("ldxdw", Load(Double)),
    ("ldxsb", LoadSigned(Byte)),
    ("ldxsh", LoadSigned(Half)),
    ("ldxsw", LoadSigned(Word)),
    ("stb", StoreImm(Byte)),
    ("sth", StoreImm(Half)),
    ("stw", StoreImm(Word)),
    ("stdw", StoreImm(Double)),
    ("stxb", StoreReg(Byte)),
    ("stxh", StoreReg(Half)),
    ("stxw", StoreReg(Word)),
    ("stxdw", StoreReg(Double)),
    ("lddw", Imm64),
    ("ldmap", MapRef),
    ("ja", Goto),
    ("ja32", Goto32),
    ("call", Call),
    ("exit", Exit),
];

/// Returns the mnemonic of the first entry with this word; `None` if no entry has it.
fn look_up(entries: &[(&str, Mnemonic)], word: &[u8]) -> Option<Mnemonic>
    ensures { result ≡ entry_with word.now (by_bytes entries.now) }
{
    for (name, mnemonic) in entries.iter() {
        if name.as_bytes() == word {
            return Some(*mnemonic);
        }
    }
    None
}

/// Returns all first words with the mnemonics that they say. If two words are equally near to an unknown word, the first
/// one is likelier.
pub fn mnemonics() -> &'static [(&'static str, Mnemonic)]
    ensures { by_bytes result.now ≡ table }
{
    &MNEMONICS
}

/// Returns the mnemonic that a first word says; `None` if the table has no such word.
pub fn named(word: &[u8]) -> Option<Mnemonic>
    ensures { result ≡ named word.now }
{
    look_up(&MNEMONICS, word)
}
