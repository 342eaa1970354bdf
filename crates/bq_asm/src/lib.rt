//! Programs as text: the assembler and the listing of the instructions of RFC 9669. `assemble` gives exactly the
//! instructions that a text stands for, or its first fault, and `listing` gives the text of instructions, which
//! assembles to them again. The crate uses `bq_insn`.
#![tactic(auto)]

mod assembler;
mod canonical;
mod draft;
mod fault;
mod instruction;
mod instruction_line;
mod jump;
pub mod laws;
mod line;
mod mnemonic;
mod number;
mod operand;
mod operand_kind;
mod table;

pub use assembler::assemble;
pub use canonical::listing;
pub use fault::{AsmFault, AssemblyCause};
pub use instruction_line::is_instruction_line;
pub use mnemonic::Mnemonic;
pub use table::{mnemonics, named};
