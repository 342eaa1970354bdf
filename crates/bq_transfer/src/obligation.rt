//! The obligations of an instruction, by the letter V and a number.

ghost use Rattle.std.specs.Prelude.{◌≡◌};
ghost use Rattle.bq_transfer.specs.Obligations.{obligation_number};

/// An obligation of an instruction that the abstract state before it does not prove. Texts name it by its number (`V4`).
#[derive(Clone, Copy, Debug, PartialEq, Eq)]
pub enum Obligation {
    /// V4: an operand may be unset.
    Unset,
    /// V5: an access may be bad.
    Access,
    /// V6: a pointer may be used as only numbers are.
    PointerUse,
    /// V8: an argument of a helper may be bad, or the map of a map reference does not exist.
    Argument,
    /// V9: register 0 may be no number at an EXIT.
    Answer,
}

impl Obligation {
    /// The number of the obligation, as texts name it after the letter V.
    pub fn number(self) -> u8
        ensures { result ≡ obligation_number self }
    {
        match self {
            Obligation::Unset => 4,
            Obligation::Access => 5,
            Obligation::PointerUse => 6,
            Obligation::Argument => 8,
            Obligation::Answer => 9,
        }
    }
}
