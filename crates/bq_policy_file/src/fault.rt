//! Why a file is no policy.
ghost use Rattle.std.specs.Prelude.{◌≡◌};

use crate::mark::Key;
use bq_asm::AsmFault;
use bq_insn::fault::DecodeFault;
use bq_load::LoadFault;
use std::alloc::AllocError;
use std::fmt;
use thiserror::Error;

/// What is wrong with a line that begins with `;@`.
#[derive(Clone, Copy, Debug, PartialEq, Eq)]
pub enum HeadCause {
    /// It is not one of `hook`, `maps` and `format` with one value.
    Unknown,
    /// The key may not have that value.
    Value(Key),
    /// A line before has the key too.
    Twice(Key),
}

/// Why the marks of a text are refused.
#[derive(Clone, Copy)]
pub enum HeadFault {
    /// The first line that is refused, counted from 1, and why.
    At { line: usize, cause: HeadCause },
    /// Memory ran out.
    OutOfMemory,
}

/// The refusal of a line.
pub(crate) fn refusal(line: usize, cause: HeadCause) -> HeadFault
    ensures { result ≡ HeadFault.At line cause }
{
    HeadFault::At { line, cause }
}

impl From<AllocError> for HeadFault {
    ghost use Rattle.bq_policy_file.specs.declared.fault.HeadFault.TheVariants.{OutOfMemory};

    ghost from_gives = { λ _ e. e ≡ OutOfMemory };

    fn from(_e: AllocError) -> HeadFault {
        HeadFault::OutOfMemory
    }
}

/// Why a file is no policy.
#[derive(Clone, Copy, Debug, Error)]
pub enum PolicyFault {
    /// It is neither an image nor hex, and no UTF-8 text.
    Text,
    /// It begins as hex does, and is not hex.
    Hex,
    /// A mark of the text is refused: the line, counted from 1, and why.
    Head {
        line: usize,
        cause: HeadCause,
    },
    /// The text is no program: the line, counted from 1, and why.
    Assembly {
        line: usize,
        cause: bq_asm::AssemblyCause,
    },
    /// The bytes are no image, for this fault.
    Image(LoadFault),
    /// The bytes of the image's program are no program: the slot, counted from 0, and why.
    Program {
        slot: usize,
        cause: bq_insn::fault::DecodeCause,
    },
    /// What was asked for is not what the file says.
    Disagrees(Key),
    /// Neither the file nor what is given beside it names the hook.
    NoHook,
    /// Memory ran out.
    OutOfMemory,
}

/// The text that an input is answered: `text`, `hex`, `head 2`, `A1 3`, `L7 I2 5`, `maps`, `hook`.
impl fmt::Display for PolicyFault {
    ghost use Rattle.std.specs.Prelude.{Some};
    ghost use Rattle.bq_policy_file.specs.Naming.{policy_fault_text};

    ghost output = { λ fault. Some (policy_fault_text fault) };

    fn fmt<W: fmt::Write>(&self, f: &mut fmt::Formatter<W>) -> fmt::Result {
        match *self {
            PolicyFault::Text => f.write_str("text"),
            PolicyFault::Hex => f.write_str("hex"),
            PolicyFault::Head { line, .. } => write!(f, "head {line}"),
            PolicyFault::Assembly { line, cause } => {
                let fault = AsmFault::At { line, cause };
                write!(f, "{fault}")
            }
            PolicyFault::Image(fault) => write!(f, "{fault}"),
            PolicyFault::Program { slot, cause } => {
                let fault = LoadFault::Decode { slot, cause };
                write!(f, "{fault}")
            }
            PolicyFault::Disagrees(key) => f.write_str(key.word()),
            PolicyFault::NoHook => f.write_str("hook"),
            PolicyFault::OutOfMemory => f.write_str("out of memory"),
        }
    }
}

impl From<AllocError> for PolicyFault {
    ghost use Rattle.bq_policy_file.specs.declared.fault.PolicyFault.TheVariants.{OutOfMemory};

    ghost from_gives = { λ _ e. e ≡ OutOfMemory };

    fn from(_e: AllocError) -> PolicyFault {
        PolicyFault::OutOfMemory
    }
}

impl From<HeadFault> for PolicyFault {
    ghost use Rattle.bq_policy_file.specs.Naming.{of_head};

    ghost from_gives = { λ f e. e ≡ of_head f };

    fn from(fault: HeadFault) -> PolicyFault {
        match fault {
            HeadFault::At { line, cause } => PolicyFault::Head { line, cause },
            HeadFault::OutOfMemory => PolicyFault::OutOfMemory,
        }
    }
}

impl From<AsmFault> for PolicyFault {
    ghost use Rattle.bq_policy_file.specs.Naming.{of_assembly};

    ghost from_gives = { λ f e. e ≡ of_assembly f };

    fn from(fault: AsmFault) -> PolicyFault {
        match fault {
            AsmFault::At { line, cause } => PolicyFault::Assembly { line, cause },
            AsmFault::OutOfMemory => PolicyFault::OutOfMemory,
        }
    }
}

impl From<LoadFault> for PolicyFault {
    ghost use Rattle.bq_policy_file.specs.Naming.{of_image};

    ghost from_gives = { λ f e. e ≡ of_image f };

    fn from(fault: LoadFault) -> PolicyFault {
        match fault {
            LoadFault::OutOfMemory => PolicyFault::OutOfMemory,
            named => PolicyFault::Image(named),
        }
    }
}

impl From<DecodeFault> for PolicyFault {
    ghost use Rattle.bq_policy_file.specs.Naming.{policy_fault_of_program};

    ghost from_gives = { λ f e. e ≡ policy_fault_of_program f };

    fn from(fault: DecodeFault) -> PolicyFault {
        match fault {
            DecodeFault::At { slot, cause } => PolicyFault::Program { slot, cause },
            DecodeFault::OutOfMemory => PolicyFault::OutOfMemory,
        }
    }
}
