//! The form of the operands of each kind of instruction.
use bq_asm::Mnemonic;
use bq_bpf::with_helpers;
use std::alloc::{AllocError, Global};

/// Shows how an instruction of that first word is written, with operands that it takes.
pub(crate) fn form_of(alloc: Global, word: &str, mnemonic: Mnemonic) -> Result<String, AllocError> {
    match mnemonic {
        Mnemonic::Alu(_, _) => format!(in alloc; "{word} r1, 5, or {word} r1, r2"),
        Mnemonic::MovSx(_, _) => format!(in alloc; "{word} r1, r2"),
        Mnemonic::Neg(_) | Mnemonic::End(_, _) => format!(in alloc; "{word} r1"),
        Mnemonic::Goto | Mnemonic::Goto32 => format!(in alloc; "{word} end, or {word} +3"),
        Mnemonic::Branch(_, _) => format!(in alloc; "{word} r1, 5, end, or {word} r1, r2, +3"),
        Mnemonic::Call => String::from_str(
            alloc,
            with_helpers!("call 1; helpers go by their numbers: "),
        ),
        Mnemonic::Exit => String::from_str(alloc, "exit, alone on its line; r0 is the answer"),
        _ => memory_form(alloc, word, mnemonic),
    }
}

/// Shows how an instruction of that first word is written, if it goes to memory, or loads a number of 64 bits or a map.
fn memory_form(alloc: Global, word: &str, mnemonic: Mnemonic) -> Result<String, AllocError> {
    match mnemonic {
        Mnemonic::StoreImm(_) => {
            let size = word.strip_prefix("st").unwrap_or("");
            format!(in alloc; "{word} [r10-8], 0, or stx{size} [r10-8], r4 to store a register")
        }
        Mnemonic::StoreReg(_) => {
            let size = word.strip_prefix("stx").unwrap_or("");
            format!(in alloc; "{word} [r10-8], r4, or st{size} [r10-8], 0 to store a number")
        }
        Mnemonic::Imm64 => format!(in alloc; "{word} r1, 4294967295"),
        Mnemonic::MapRef => {
            format!(in alloc; "{word} r1, 0; maps go by their numbers, and the first is 0")
        }
        _ => format!(in alloc; "{word} r2, [r1+8]"),
    }
}
