//! What a run changed of maps and counters, in words.
ghost use Rattle.std.specs.Prelude.{◌≡◌, ◌+◌, ◌++◌, IfOk, OnOk, map, slice_get, slice_range, string_bytes};
ghost use Rattle.bq_maps.specs.Arrays.{HasEntry, entries_in, entry_of};
ghost use Rattle.bq_policy_run.specs.Changes.{call_line, calls_text, changes_text, entry_change, entry_line, map_changes, with_contents};

use crate::inputs::Inputs;
use bq_bpf::CounterCall;
use bq_maps::Maps;
use std::alloc::{AllocError, Global};

/// Copies the bytes of each map.
pub fn copied(alloc: Global, maps: &Maps) -> Result<Vec<Vec<u8>>, AllocError>
    ensures { IfOk result (λ all. map (λ v. v.items) all.items ≡ maps.now.bytes) }
{
    let mut all = Vec::new(alloc);
    for number in 0..maps.shapes().len() {
        all.push(Vec::from_slice(alloc, maps.contents(number))?)?;
    }
    Ok(all)
}

/// Writes a line for each entry whose bytes differ from before, of each map whose bytes before are there. If memory runs out, a
/// part of this may be written.
pub fn write_changes(
    alloc: Global,
    before: &[Vec<u8>],
    inputs: &Inputs,
    text: &mut String,
) -> Result<(), AllocError>
    ensures { OnOk result (string_bytes text.new ≡ string_bytes text.old ++ changes_text (with_contents inputs.now.maps before.now) inputs.now.maps) }
{
    for number in 0..before.len() {
        write_map(alloc, before, &inputs.maps, number, text)?;
    }
    Ok(())
}

/// Writes a line for each entry of the map of that number whose bytes are other than before.
fn write_map(
    alloc: Global,
    before: &[Vec<u8>],
    maps: &Maps,
    number: usize,
    text: &mut String,
) -> Result<(), AllocError>
    ensures { OnOk result (string_bytes text.new ≡ string_bytes text.old ++ map_changes (with_contents maps.now before.now) maps.now number) }
{
    for entry in 0..entries(maps, number) {
        write_change(alloc, before, maps, number, entry, text)?;
    }
    Ok(())
}

/// Returns how many entries the map of that number has; 0 if no map has that number.
fn entries(maps: &Maps, number: usize) -> u32
    ensures { result ≡ entries_in (slice_get maps.now.shapes number) }
{
    match maps.shapes().get(number) {
        Some(shape) => u32::from(shape.entries),
        None => 0,
    }
}

/// Appends the line of an entry to `text` if its bytes have changed; otherwise appends nothing.
fn write_change(
    alloc: Global,
    before: &[Vec<u8>],
    maps: &Maps,
    number: usize,
    entry: u32,
    text: &mut String,
) -> Result<(), AllocError>
    requires { HasEntry maps.now number entry }
    ensures { OnOk result (string_bytes text.new ≡ string_bytes text.old ++ entry_change (with_contents maps.now before.now) maps.now number entry) }
{
    let bytes = maps.entry(number, entry);
    if entry_before(before, maps, number, entry) == bytes {
        return Ok(());
    }
    write_entry(alloc, number, entry, bytes, text)
}

/// Returns the bytes that an entry had before, as far as the bytes of its map are there.
fn entry_before<'a>(before: &'a [Vec<u8>], maps: &Maps, number: usize, entry: u32) -> &'a [u8]
    requires { HasEntry maps.now number entry }
    ensures { result.now ≡ entry_of (with_contents maps.now before.now) number entry }
{
    let size = usize::from(maps.shape(number).value_size);
    match before.get(number) {
        Some(bytes) => part(bytes.as_slice(), entry as usize * size, size),
        None => &[],
    }
}

/// Writes the line of an entry, with its bytes.
fn write_entry(
    alloc: Global,
    number: usize,
    entry: u32,
    bytes: &[u8],
    text: &mut String,
) -> Result<(), AllocError>
    ensures { OnOk result (string_bytes text.new ≡ string_bytes text.old ++ entry_line number entry bytes.now) }
{
    let reported = hex::encode(alloc, bytes)?;
    write!(text, "map {number} entry {entry}: {reported}\n")
}

/// Returns this many bytes from there on, as far as there are.
fn part(bytes: &[u8], at: usize, count: usize) -> &[u8]
    ensures { result.now ≡ slice_range bytes.now at (at + count) }
{
    let rest = &bytes[at.min(bytes.len())..];
    &rest[..count.min(rest.len())]
}

/// Writes a line for each call of a counter. If memory runs out, a part of this may be written.
pub fn write_calls(calls: &[CounterCall], text: &mut String) -> Result<(), AllocError>
    ensures { OnOk result (string_bytes text.new ≡ string_bytes text.old ++ calls_text calls.now) }
{
    for call in calls {
        write_call(call, text)?;
    }
    Ok(())
}

/// Writes the line of a call.
fn write_call(call: &CounterCall, text: &mut String) -> Result<(), AllocError>
    ensures { OnOk result (string_bytes text.new ≡ string_bytes text.old ++ call_line call.now) }
{
    match call {
        CounterCall::Add {
            counter,
            amount,
            answer,
        } => {
            let after = answer.wrapping_add(*amount);
            write!(
                text,
                "counter {counter}: {answer} and {amount} give {after}\n"
            )
        }
        CounterCall::Read { counter, answer } => write!(text, "counter {counter}: read {answer}\n"),
    }
}
