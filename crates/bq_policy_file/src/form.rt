//! In what form a program is written.
ghost use Rattle.std.specs.Prelude.{◌≡◌, true, IfOk};
ghost use Rattle.bq_insn.specs.Spelling.{is_well_formed};
ghost use Rattle.bq_policy_file.specs.Forms.{SpellsForm};

use crate::image_of::image_of;
use bq_insn::Insn;
use bq_insn::encode::encode;
use bq_verify::PolicyForm;
use std::alloc::{AllocError, Global};

/// In what form a program is written.
#[derive(Drop)]
pub enum ProgramForm {
    /// Only the bytes of its instructions.
    Program,
    /// An image with it.
    Image(PolicyForm),
}

impl ProgramForm {
    /// The bytes of a well-formed program in this form.
    pub(crate) fn bytes_of(&self, alloc: Global, insns: &[Insn]) -> Result<Vec<u8>, AllocError>
        requires { is_well_formed insns.now ≡ true }
        ensures { IfOk result (λ bytes. SpellsForm self.now insns.now bytes.items) }
    {
        let mut program = Vec::new(alloc);
        encode(insns, &mut program)?;
        match self {
            ProgramForm::Program => Ok(program),
            ProgramForm::Image(form) => image_of(alloc, form, program),
        }
    }
}
