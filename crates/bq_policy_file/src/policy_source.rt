//! A policy as its file has it, before its program is judged.
ghost use Rattle.std.specs.Prelude.{◌≡◌, true};
ghost use Rattle.bq_insn.specs.Spelling.{is_well_formed};

use crate::image_of::{copy_of, image_of};
use bq_insn::Insn;
use bq_insn::encode::encode;
use bq_verify::{PolicyForm, Program};
use std::alloc::{AllocError, Global};

/// A policy that is not verified: a program with its hook, version and maps, and the lines of its text.
#[derive(Drop)]
pub struct PolicySource {
    /// The hook, the version and the maps of its program.
    pub form: PolicyForm,
    /// The instructions, one after another.
    pub insns: Vec<Insn>,
    /// The line of each instruction in the text, counted from 1; empty for an image.
    pub lines: Vec<usize>,
    ghost whole: { is_well_formed insns.items ≡ true },
}

impl PolicySource {
    ghost use Rattle.std.specs.Prelude.{IfOk};
    ghost use Rattle.bq_insn.specs.Spelling.{spelling};
    ghost use Rattle.bq_load.specs.Layout.{IsImage};
    ghost use Rattle.bq_policy_file.specs.Subjects.{subject_in};
    ghost use Rattle.bq_verify.specs.Subjects.{subject_of_program};

    /// The bytes of its image.
    pub fn image(&self, alloc: Global) -> Result<Vec<u8>, AllocError>
        ensures { IfOk result (λ image. IsImage image.items self.now.form.version self.now.form.hook self.now.form.shapes.items (spelling self.now.insns.items)) }
    {
        let mut program = Vec::new(alloc);
        encode(self.insns.as_slice(), &mut program)?;
        image_of(alloc, &self.form, program)
    }

    /// Its program, to be handed to the verifier.
    pub fn program(&self, alloc: Global) -> Result<Program, AllocError>
        ensures insns { IfOk result (λ program. program.insns.items ≡ self.now.insns.items) }
        ensures hook { IfOk result (λ program. program.form.hook ≡ self.now.form.hook) }
        ensures version { IfOk result (λ program. program.form.version ≡ self.now.form.version) }
        ensures shapes { IfOk result (λ program. program.form.shapes.items ≡ self.now.form.shapes.items) }
        ensures judged { IfOk result (λ program. subject_of_program program ≡ subject_in self.now) }
    {
        Ok(Program {
            insns: Vec::from_slice(alloc, self.insns.as_slice())?,
            form: copy_of(alloc, &self.form)?,
        })
    }
}
