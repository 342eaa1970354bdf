//! Images of programs as bytes, and copies of their forms.
ghost use Rattle.std.specs.Prelude.{◌≡◌, true, IfOk};
ghost use Rattle.bq_insn.specs.Faults.{is_program_length};
ghost use Rattle.bq_load.specs.Layout.{IsImage};

use bq_load::{Image, write_image};
use bq_verify::PolicyForm;
use std::alloc::{AllocError, Global};

/// The bytes of the image of this form with a program of 1 to 4096 whole slots.
pub(crate) fn image_of(
    alloc: Global,
    form: &PolicyForm,
    program: Vec<u8>,
) -> Result<Vec<u8>, AllocError>
    requires { is_program_length program.items ≡ true }
    ensures { IfOk result (λ bytes. IsImage bytes.items form.now.version form.now.hook form.now.shapes.items program.items) }
{
    let form = copy_of(alloc, form)?;
    let mut bytes = Vec::new(alloc);
    write_image(&Image { form, program }, &mut bytes)?;
    Ok(bytes)
}

/// A copy of the form.
pub(crate) fn copy_of(alloc: Global, form: &PolicyForm) -> Result<PolicyForm, AllocError>
    ensures hook { IfOk result (λ copy. copy.hook ≡ form.now.hook) }
    ensures version { IfOk result (λ copy. copy.version ≡ form.now.version) }
    ensures shapes { IfOk result (λ copy. copy.shapes.items ≡ form.now.shapes.items) }
{
    Ok(PolicyForm {
        hook: form.hook,
        version: form.version,
        shapes: Vec::from_slice(alloc, form.shapes.as_slice())?,
    })
}
