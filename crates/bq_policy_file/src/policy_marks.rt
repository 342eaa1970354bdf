//! The marks that say what a policy is.
ghost use Rattle.std.specs.Prelude.{◌≡◌, IfOk, string_bytes};
ghost use Rattle.bq_policy_file.specs.MarkLines.{AreMarks, format_mark, maps_mark, head_marks_text, more_maps};

use crate::PolicySource;
use bq_bpf::MapShape;
use bq_hooks::{Hook, Version};
use std::alloc::{AllocError, Global};

/// The lines that say the hook of a policy, its maps if it has some, and its version if that is not the first.
pub fn marks(alloc: Global, policy: &PolicySource) -> Result<String, AllocError>
    ensures { IfOk result (λ text. AreMarks policy.now (string_bytes text)) }
{
    let form = &policy.form;
    let maps = maps_mark(alloc, form.shapes.as_slice())?;
    marks_text(alloc, form.hook, maps.as_str(), form.version)
}

/// The lines that say a hook, and a version if it is not the first, with a line of maps between, or none.
pub fn marks_text(
    alloc: Global,
    hook: Hook,
    maps: &str,
    version: Version,
) -> Result<String, AllocError>
    ensures { IfOk result (λ text. string_bytes text ≡ head_marks_text hook maps.now version) }
{
    let hook = hook.word();
    let format = format_mark(version);
    format!(in alloc; ";@ hook {hook}\n{maps}{format}")
}

/// The line that says the maps, if there are some.
fn maps_mark(alloc: Global, shapes: &[MapShape]) -> Result<String, AllocError>
    ensures { IfOk result (λ text. string_bytes text ≡ maps_mark shapes.now) }
{
    match shapes {
        [] => Ok(String::new(alloc)),
        [first, rest @ ..] => {
            let size = first.value_size;
            let entries = first.entries;
            let more = more_maps(alloc, rest)?;
            format!(in alloc; ";@ maps {size}:{entries}{more}\n")
        }
    }
}

/// The maps after the first, each after a comma: the size of a value and the number of entries with a colon between.
pub fn more_maps(alloc: Global, shapes: &[MapShape]) -> Result<String, AllocError>
    ensures { IfOk result (λ text. string_bytes text ≡ more_maps shapes.now) }
{
    let mut text = String::new(alloc);
    for shape in shapes {
        let size = shape.value_size;
        let entries = shape.entries;
        write!(text, ",{size}:{entries}")?;
    }
    Ok(text)
}

/// The line that says the version, if it is not the first.
fn format_mark(version: Version) -> &'static str
    ensures { result.now ≡ format_mark version }
{
    match version {
        Version::First => "",
        Version::Second => ";@ format 2\n",
    }
}
