//! The error of the examples. A proof carries the 512 bytes of a `std::test::Fail` through each `?`; this one says the same in one word.

use bq_asm::AsmFault;
use bq_load::LoadFault;
use bq_parts::Refusal;
use bq_streams::StreamFault;
use bq_verify::Refused;
use std::alloc::{AllocError, AllocFailed};

/// Why an example failed.
#[derive(Debug, Drop)]
pub(crate) enum Fail {
    Words(&'static str),
    Assembly(AsmFault),
    Verification(Refused),
    Load(LoadFault),
    Event(Refusal),
    Stream(StreamFault),
    OutOfMemory,
}

impl From<&'static str> for Fail {
    fn from(words: &'static str) -> Fail {
        Fail::Words(words)
    }
}

impl From<AsmFault> for Fail {
    fn from(fault: AsmFault) -> Fail {
        Fail::Assembly(fault)
    }
}

impl From<Refused> for Fail {
    fn from(refused: Refused) -> Fail {
        Fail::Verification(refused)
    }
}

impl From<LoadFault> for Fail {
    fn from(fault: LoadFault) -> Fail {
        Fail::Load(fault)
    }
}

impl From<Refusal> for Fail {
    fn from(refusal: Refusal) -> Fail {
        Fail::Event(refusal)
    }
}

impl From<StreamFault> for Fail {
    fn from(fault: StreamFault) -> Fail {
        Fail::Stream(fault)
    }
}

impl From<AllocError> for Fail {
    fn from(_error: AllocError) -> Fail {
        Fail::OutOfMemory
    }
}

impl<T: Drop> From<AllocFailed<T>> for Fail {
    fn from(_error: AllocFailed<T>) -> Fail {
        Fail::OutOfMemory
    }
}
