//! Why a text is refused.
ghost use Rattle.std.specs.Prelude.{◌≡◌};
ghost use Rattle.bq_asm.specs.Causes.{assembly_cause_number};

use std::alloc::{AllocError, AllocFailed};
use std::error::Error;
use std::fmt;

/// What is wrong with a line. If a line has several causes, the first in this order counts.
#[derive(Clone, Copy, Debug, PartialEq, Eq)]
pub enum AssemblyCause {
    /// A1: the first word is unknown, there are too few or too many operands, an operand has not the form that its
    /// place wants, or a label is no valid name.
    Word,
    /// A2: the operand in the place of a number begins like a number, but is no number in the range.
    Number,
    /// A3: the label was set before.
    LabelTwice,
    /// A4: the label of a jump is set nowhere.
    LabelMissing,
    /// A5: the instruction ends past slot 4096; at line 0, the text has no instruction.
    Slots,
}

impl AssemblyCause {
    /// Returns the number of the cause, as texts name it after the letter A.
    pub fn number(self) -> u8
        ensures { result ≡ assembly_cause_number self }
    {
        match self {
            AssemblyCause::Word => 1,
            AssemblyCause::Number => 2,
            AssemblyCause::LabelTwice => 3,
            AssemblyCause::LabelMissing => 4,
            AssemblyCause::Slots => 5,
        }
    }
}

/// Why a text is refused.
#[derive(Clone, Copy, Debug)]
pub enum AsmFault {
    /// The first line with a fault, counted from 1, and the least of its causes. Two faults come only if no line has a
    /// fault by itself: a text with no instruction is `Slots` at line 0; else the first jump whose label is set nowhere
    /// is `LabelMissing`.
    At { line: usize, cause: AssemblyCause },
    /// Memory ran out.
    OutOfMemory,
}

/// The text of a fault, such as `A1 3`: the number of the cause, then the line.
impl fmt::Display for AsmFault {
    ghost use Rattle.std.specs.Prelude.{Some};
    ghost use Rattle.bq_asm.specs.Causes.{assembly_fault_text};

    ghost output = { λ fault. Some (assembly_fault_text fault) };

    /// Writes the text of the fault.
    fn fmt<W: fmt::Write>(&self, f: &mut fmt::Formatter<W>) -> fmt::Result {
        match *self {
            AsmFault::At { line, cause } => {
                let number = cause.number();
                write!(f, "A{number} {line}")
            }
            AsmFault::OutOfMemory => f.write_str("out of memory"),
        }
    }
}

impl Error for AsmFault {}

/// Returns the fault with this line and cause.
pub fn refusal(line: usize, cause: AssemblyCause) -> AsmFault
    ensures { result ≡ AsmFault.At line cause }
{
    AsmFault::At { line, cause }
}

impl From<AllocError> for AsmFault {
    ghost use Rattle.std.specs.Prelude.{◌≡◌};
    ghost use Rattle.bq_asm.specs.declared.fault.AsmFault.TheVariants.{OutOfMemory};

    ghost from_gives = { λ _ e. e ≡ OutOfMemory };

    /// Returns the fault that memory ran out.
    fn from(_error: AllocError) -> AsmFault {
        AsmFault::OutOfMemory
    }
}

impl<T: Drop> From<AllocFailed<T>> for AsmFault {
    ghost use Rattle.std.specs.Prelude.{◌≡◌};
    ghost use Rattle.bq_asm.specs.declared.fault.AsmFault.TheVariants.{OutOfMemory};

    ghost from_gives = { λ _ e. e ≡ OutOfMemory };

    /// Returns the fault that memory ran out.
    fn from(_error: AllocFailed<T>) -> AsmFault {
        AsmFault::OutOfMemory
    }
}
