//! Why bytes do not load.
ghost use Rattle.std.specs.Prelude.{◌≡◌};

use bq_insn::fault::DecodeFault;
use bq_verify::Refused;
use std::alloc::{AllocError, AllocFailed};
use std::error::Error;
use std::fmt;

/// Why bytes do not load: the first fault from left to right, then the first fault of the program, then what the
/// verifier refuses. A field is judged once it is whole; if it is cut, the fault is `Cut`.
#[derive(Clone, Copy, Debug, PartialEq, Eq)]
pub enum LoadFault {
    /// L1: the bytes do not begin with the letters BQPI.
    Magic,
    /// L2: the version is not 1 or 2.
    Version,
    /// L3: the hook is not 0, 1 or 2.
    Hook,
    /// L4: there are more than 8 maps, or a shape is not within its limits.
    Shape,
    /// L5: the bytes end within a field, the program included.
    Cut,
    /// L6: bytes follow the program.
    Rest,
    /// L7: the bytes are no program: the slot of the instruction at fault, counted from 0, and its least cause. A wrong
    /// length is named at slot 0.
    Decode {
        slot: usize,
        cause: bq_insn::fault::DecodeCause,
    },
    /// L8: the program is not accepted: the slot, and why.
    Refused {
        slot: usize,
        cause: bq_verify::Cause,
    },
    /// L9: memory ran out, which says nothing of the bytes.
    OutOfMemory,
}

/// The text of a fault: `L1` to `L6`; `L7 I2 5` if the program has fault 2 at slot 5; `L8 V4 5` if the verifier refuses it at slot 5
/// for cause 4.
impl fmt::Display for LoadFault {
    ghost use Rattle.std.specs.Prelude.{Some};
    ghost use Rattle.bq_load.specs.Naming.{load_fault_text};

    ghost output = { λ fault. Some (load_fault_text fault) };

    fn fmt<W: fmt::Write>(&self, f: &mut fmt::Formatter<W>) -> fmt::Result {
        match *self {
            LoadFault::Magic => f.write_str("L1"),
            LoadFault::Version => f.write_str("L2"),
            LoadFault::Hook => f.write_str("L3"),
            LoadFault::Shape => f.write_str("L4"),
            LoadFault::Cut => f.write_str("L5"),
            LoadFault::Rest => f.write_str("L6"),
            LoadFault::Decode { slot, cause } => {
                let fault = DecodeFault::At { slot, cause };
                write!(f, "L7 {fault}")
            }
            LoadFault::Refused { slot, cause } => {
                let number = cause.number();
                write!(f, "L8 V{number} {slot}")
            }
            LoadFault::OutOfMemory => f.write_str("out of memory"),
        }
    }
}

impl Error for LoadFault {}

impl From<AllocError> for LoadFault {
    ghost use Rattle.bq_load.specs.declared.fault.LoadFault.TheVariants.{OutOfMemory};

    ghost from_gives = { λ _ e. e ≡ OutOfMemory };

    fn from(_e: AllocError) -> LoadFault {
        LoadFault::OutOfMemory
    }
}

impl<T: Drop> From<AllocFailed<T>> for LoadFault {
    ghost use Rattle.bq_load.specs.declared.fault.LoadFault.TheVariants.{OutOfMemory};

    ghost from_gives = { λ _ e. e ≡ OutOfMemory };

    fn from(_e: AllocFailed<T>) -> LoadFault {
        LoadFault::OutOfMemory
    }
}

impl From<DecodeFault> for LoadFault {
    ghost use Rattle.bq_load.specs.Naming.{load_fault_of_program};

    ghost from_gives = { λ f e. e ≡ load_fault_of_program f };

    fn from(fault: DecodeFault) -> LoadFault {
        match fault {
            DecodeFault::At { slot, cause } => LoadFault::Decode { slot, cause },
            DecodeFault::OutOfMemory => LoadFault::OutOfMemory,
        }
    }
}

impl From<Refused> for LoadFault {
    ghost use Rattle.bq_load.specs.Naming.{load_fault_of_refusal};

    ghost from_gives = { λ r e. e ≡ load_fault_of_refusal r };

    fn from(refused: Refused) -> LoadFault {
        match refused {
            Refused::At { slot, cause } => LoadFault::Refused { slot, cause },
            Refused::OutOfMemory => LoadFault::OutOfMemory,
        }
    }
}
