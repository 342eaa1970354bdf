//! Assembles a text.
ghost use Rattle.std.specs.Prelude.{◌≡◌, true, IfOk, IfErr};
ghost use Rattle.bq_insn.specs.Spelling.{is_well_formed};
ghost use Rattle.bq_insn.specs.Laws.{AllFit};
ghost use Rattle.bq_asm.specs.Assembly.{Assembles};
ghost use Rattle.bq_asm.specs.Faults.{IsAssemblyFault};

use crate::draft::Draft;
use crate::fault::AsmFault;
use bq_insn::Insn;
use std::alloc::Global;

/// Returns the instructions that a text stands for, or the first fault of the text. The instructions are well formed:
/// registers and widths are in range, and they take 1 to 4096 slots.
///
/// Each instruction has a line of its own: a first word, then operands, with spaces, tabs or commas between them. A `;`
/// begins a comment. A line of one word that ends with `:` sets a label. A jump on any line, earlier or later, may name
/// the label.
///
/// # Example
///
/// ```
/// let insns = assemble(alloc, "mov64 r0, 1 ; gives way\nexit\n")?;
/// assert_eq!(rt; insns.len(), 2);
/// ```
pub fn assemble(alloc: Global, text: &str) -> Result<Vec<Insn>, AsmFault>
    ensures assembles { IfOk result (λ insns. Assembles text.now insns.items) }
    ensures well_formed { IfOk result (λ insns. is_well_formed insns.items ≡ true) }
    ensures numbers { IfOk result (λ insns. AllFit insns.items) }
    ensures fault { IfErr result (IsAssemblyFault text.now) }
{
    let mut draft = Draft::new(alloc);
    let mut number: usize = 0;
    for line in text.lines() {
        number += 1;
        draft.take_line(number, line.as_bytes())?;
    }
    draft.finish()
}
