//! The words after the first.
ghost use Rattle.std.specs.Prelude.{Some};
ghost use Rattle.bq_asm.specs.Text.{operand_text};

use std::fmt;

/// What a word after the first says.
#[derive(Clone, Copy)]
pub enum Operand {
    Register(u8),
    Number(i32),
    Wide(u64),
    Memory { base: u8, offset: i16 },
    Near(i16),
    Far(i32),
}

/// A number that is displayed with its sign, `+` or `-`.
#[derive(Clone, Copy)]
struct Signed(i32);

impl fmt::Display for Signed {
    ghost use Rattle.bq_asm.specs.Text.{signed_text};

    ghost output = { λ s. Some (signed_text s.0) };

    /// Writes the number with its sign.
    fn fmt<W: fmt::Write>(&self, f: &mut fmt::Formatter<W>) -> fmt::Result {
        let number = self.0;
        if number < 0 {
            return write!(f, "{number}");
        }
        write!(f, "+{number}")
    }
}

impl fmt::Display for Operand {
    ghost use Rattle.bq_asm.specs.Text.{operand_text};

    ghost output = { λ o. Some (operand_text o) };

    /// Writes the operand.
    fn fmt<W: fmt::Write>(&self, f: &mut fmt::Formatter<W>) -> fmt::Result {
        match *self {
            Operand::Register(register) => write!(f, "r{register}"),
            Operand::Number(number) => write!(f, "{number}"),
            Operand::Wide(number) => write!(f, "{number}"),
            Operand::Memory { base, offset } => write!(f, "[r{base}{}]", Signed(i32::from(offset))),
            Operand::Near(number) => write!(f, "{}", Signed(i32::from(number))),
            Operand::Far(number) => write!(f, "{}", Signed(number)),
        }
    }
}

/// The words after the first, none to three.
#[derive(Clone, Copy)]
pub enum Operands {
    Zero,
    One(Operand),
    Two(Operand, Operand),
    Three(Operand, Operand, Operand),
}

impl fmt::Display for Operands {
    ghost use Rattle.bq_asm.specs.Text.{operands_text, list_of};

    ghost output = { λ o. Some (operands_text (list_of o)) };

    /// Writes the operands, a space before the first and a comma and a space between them.
    fn fmt<W: fmt::Write>(&self, f: &mut fmt::Formatter<W>) -> fmt::Result {
        match *self {
            Operands::Zero => Ok(()),
            Operands::One(a) => write!(f, " {a}"),
            Operands::Two(a, b) => write!(f, " {a}, {b}"),
            Operands::Three(a, b, c) => write!(f, " {a}, {b}, {c}"),
        }
    }
}
