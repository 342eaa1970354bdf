//! What was asked for and what a file says, together.
ghost use Rattle.std.specs.Prelude.{◌≡◌, option_map, IfOk, IfErr, MatchOption};
ghost use Rattle.bq_policy_file.specs.Files.{AgreesWithHead, CombineTo, DiffersIn, ReportsDifference, shapes_in};
ghost use Rattle.bq_policy_file.specs.Combining.{IsUncombinable};

use crate::fault::PolicyFault;
use crate::head::Head;
use crate::mark::Key;
use bq_bpf::{MapShape, same_shapes};
use bq_hooks::{Hook, Version};
use bq_verify::PolicyForm;
use std::alloc::Global;

/// What both say together, if they do not differ and one of them names the hook.
pub(crate) fn combine(alloc: Global, given: &Head, stated: &Head) -> Result<PolicyForm, PolicyFault>
    ensures ok { IfOk result (λ s. CombineTo given.now stated.now s.hook s.shapes.items s.version) }
    ensures err { IfErr result (IsUncombinable given.now stated.now) }
{
    if let Some(key) = difference(given, stated.hook, map_shapes(&stated.maps), stated.format) {
        return Err(PolicyFault::Disagrees(key));
    }
    let Some(hook) = given.hook.or(stated.hook) else {
        return Err(PolicyFault::NoHook);
    };
    let version = given.format.or(stated.format).unwrap_or(Version::First);
    let shapes = match (&given.maps, &stated.maps) {
        (Some(shapes), _) => Vec::from_slice(alloc, shapes.as_slice())?,
        (None, Some(shapes)) => Vec::from_slice(alloc, shapes.as_slice())?,
        (None, None) => Vec::new(alloc),
    };
    Ok(PolicyForm {
        hook,
        version,
        shapes,
    })
}

/// What they differ in, if they do.
pub(crate) fn difference(
    given: &Head,
    hook: Option<Hook>,
    maps: Option<&[MapShape]>,
    format: Option<Version>,
) -> Option<Key>
    ensures { MatchOption result (AgreesWithHead given.now hook (option_map (λ b. b.now) maps.entry) format)
        (λ key. DiffersIn key given.now hook (option_map (λ b. b.now) maps.entry) format) }
{
    if hooks_differ(given.hook, hook) {
        return Some(Key::Hook);
    }
    if maps_differ(map_shapes(&given.maps), maps) {
        return Some(Key::Maps);
    }
    if formats_differ(given.format, format) {
        return Some(Key::Format);
    }
    None
}

/// Tells whether a hook is given and another one is stated.
fn hooks_differ(given: Option<Hook>, stated: Option<Hook>) -> bool
    ensures { ReportsDifference given stated result }
{
    match (given, stated) {
        (Some(asked), Some(hook)) => asked != hook,
        _ => false,
    }
}

/// Tells whether a format is given and another one is stated.
fn formats_differ(given: Option<Version>, stated: Option<Version>) -> bool
    ensures { ReportsDifference given stated result }
{
    match (given, stated) {
        (Some(asked), Some(version)) => asked != version,
        _ => false,
    }
}

/// Tells whether maps are given and maps of other shapes are stated.
fn maps_differ(given: Option<&[MapShape]>, stated: Option<&[MapShape]>) -> bool
    ensures { ReportsDifference (option_map (λ b. b.now) given.entry) (option_map (λ b. b.now) stated.entry) result }
{
    match (given, stated) {
        (Some(asked), Some(shapes)) => !same_shapes(asked, shapes),
        _ => false,
    }
}

/// The shapes that are said, if some are.
fn map_shapes(maps: &Option<Vec<MapShape>>) -> Option<&[MapShape]>
    ensures { option_map (λ b. b.now) result ≡ shapes_in maps.now }
{
    match maps {
        None => None,
        Some(shapes) => Some(shapes.as_slice()),
    }
}
