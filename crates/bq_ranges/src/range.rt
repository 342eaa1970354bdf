//! Intervals of words, and those that come from no instruction.
ghost use Rattle.std.specs.Prelude.{◌≤◌, ◌<◌, ◌^◌, ◌+◌, ◌*◌, ◌≡◌};
ghost use Rattle.bq_bpf.specs.Meaning.{modulus};

use bq_insn::{Bits, Width};

/// The words from `lo` to `hi`, both included; there is always at least one.
#[derive(Clone, Copy)]
pub struct Range {
    pub lo: u64,
    pub hi: u64,
    ghost ordered: { lo ≤ hi },
    ghost fits: { hi < 2 ^ 64 },
}

impl Range {
    ghost use Rattle.std.specs.Prelude.{min, max, ◌%◌, ℕ, ◌↔◌, IsTrue};
    ghost use Rattle.bq_bpf.specs.Meaning.{modulus_of_bits};
    ghost use Rattle.bq_ranges.specs.Within.{Within};

    /// Returns the range of one word.
    pub fn single(word: u64) -> Range
        ensures lo { result.lo ≡ word }
        ensures hi { result.hi ≡ word }
    {
        Range { lo: word, hi: word }
    }

    /// Returns the range of all words of a width.
    pub fn full(width: Width) -> Range
        ensures lo { result.lo ≡ 0 }
        ensures hi { result.hi + 1 ≡ modulus width }
    {
        Range {
            lo: 0,
            hi: greatest(width),
        }
    }

    /// Returns the range of all words that have no bit above the low `bits`.
    pub fn of_bits(bits: Bits) -> Range
        ensures lo { result.lo ≡ 0 }
        ensures hi { result.hi + 1 ≡ modulus_of_bits bits }
    {
        let hi = match bits {
            Bits::B8 => 0xff,
            Bits::B16 => 0xffff,
            Bits::B32 => 0xffff_ffff,
            Bits::B64 => u64::MAX,
        };
        Range { lo: 0, hi }
    }

    /// Tells whether the range has only one word.
    pub fn is_single(self) -> bool
        ensures { IsTrue result ↔ (self.lo ≡ self.hi) }
    {
        self.lo == self.hi
    }

    /// Returns the least range that has all words of both ranges.
    pub fn hull(self, other: Range) -> Range
        ensures left { (x : ℕ) → Within self x → Within result x }
        ensures right { (x : ℕ) → Within other x → Within result x }
        ensures lo { result.lo ≡ min self.lo other.lo }
        ensures hi { result.hi ≡ max self.hi other.hi }
    {
        Range {
            lo: self.lo.min(other.lo),
            hi: self.hi.max(other.hi),
        }
    }

    /// Returns the words that both ranges have; the whole range itself if there are none.
    pub fn meet(self, other: Range) -> Range
        ensures both { (x : ℕ) → Within self x → Within other x → Within result x }
        ensures lo { self.lo ≤ result.lo }
        ensures hi { result.hi ≤ self.hi }
        ensures ends { (x : ℕ) → Within self x → Within other x → (other.lo ≤ result.lo) × (result.hi ≤ other.hi) }
    {
        let lo = self.lo.max(other.lo);
        let hi = self.hi.min(other.hi);
        if hi < lo {
            return self;
        }
        Range { lo, hi }
    }

    /// Returns the least range that has the low bits, as many as the width has, of all words of the range.
    pub fn low(self, width: Width) -> Range
        ensures holds { (x : ℕ) → Within self x → Within result (x % modulus width) }
        ensures fits { result.hi < modulus width }
        ensures below { result.hi ≤ self.hi }
        ensures tight_low { (x : ℕ) × Within self x × (x % modulus width ≡ result.lo) }
        ensures tight_high { (x : ℕ) × Within self x × (x % modulus width ≡ result.hi) }
    {
        match width {
            Width::W64 => self,
            Width::W32 => self.low_half(),
        }
    }

    /// Returns the least range that has the low 32 bits of all words of the range.
    ///
    /// If the range crosses a multiple of 2^32, the low halves of its words include ffffffff and 0.
    fn low_half(self) -> Range
        ensures holds { (x : ℕ) → Within self x → Within result (x % 2 ^ 32) }
        ensures fits { result.hi < 2 ^ 32 }
        ensures below { result.hi ≤ self.hi }
        ensures tight_low { (x : ℕ) × Within self x × (x % 2 ^ 32 ≡ result.lo) }
        ensures tight_high { (x : ℕ) × Within self x × (x % 2 ^ 32 ≡ result.hi) }
    {
        if self.lo / 0x1_0000_0000 == self.hi / 0x1_0000_0000 {
            return Range {
                lo: self.lo % 0x1_0000_0000,
                hi: self.hi % 0x1_0000_0000,
            };
        }
        Range {
            lo: 0,
            hi: 0xffff_ffff,
        }
    }
}

/// Returns the greatest word of a width.
pub fn greatest(width: Width) -> u64
    ensures { result + 1 ≡ modulus width }
{
    match width {
        Width::W32 => 0xffff_ffff,
        Width::W64 => u64::MAX,
    }
}

/// Returns the word of a width that has only the sign bit: as a signed number, the least of all.
pub fn sign(width: Width) -> u64
    ensures { 2 * result ≡ modulus width }
{
    match width {
        Width::W32 => 0x8000_0000,
        Width::W64 => 0x8000_0000_0000_0000,
    }
}
