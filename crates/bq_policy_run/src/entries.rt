//! Entries of maps from the words of a command.
ghost use Rattle.std.specs.Prelude.{◌≡◌, ◌<◌, ◌^◌, ℕ, [], IfErr, IfNone, IfSome, IsOk};
ghost use Rattle.std.specs.Result.{OnErr, OnOk};
ghost use Rattle.bq_console.specs.Words.{GivesNone};
ghost use Rattle.bq_policy_run.specs.Naming.{NamesMapEntry, SetsEntry, TextsInTurn, padded};
ghost use Rattle.bq_policy_run.specs.Runs.{ChangesOnlyMaps};

use crate::faults::refused;
use crate::inputs::{Inputs, bytes_named};
use bq_console::WordsFault;
use bq_console::words::{cut, decimal};
use bq_maps::Maps;
use std::alloc::{AllocError, Global};

impl Inputs {
    /// Sets the entries that the texts name, in order. Stops at the first text that names no entry or no value of its map; the
    /// entries set before it remain.
    pub fn set_all_entries(&mut self, alloc: Global, texts: &[String]) -> Result<(), WordsFault>
        ensures maps { OnOk result (TextsInTurn SetsEntry texts.now self.old.maps self.new.maps) }
        ensures refused { IfErr result (GivesNone (TextsInTurn SetsEntry texts.now self.old.maps)) }
        ensures others { ChangesOnlyMaps self.old self.new }
        ensures none { texts.now ≡ [] → IsOk result }
    {
        for text in texts {
            self.set_entry(alloc, text.as_str())?;
        }
        Ok(())
    }

    /// Sets an entry of a map, as `0:0=0a00` does; bytes that are left out are 0. A text is refused only if it names no entry,
    /// or no value of its map.
    pub fn set_entry(&mut self, alloc: Global, text: &str) -> Result<(), WordsFault>
        ensures maps { OnOk result (SetsEntry text.now self.old.maps self.new.maps) }
        ensures refused { IfErr result (GivesNone (SetsEntry text.now self.old.maps)) }
        ensures left { OnErr result (self.new ≡ self.old) }
        ensures others { ChangesOnlyMaps self.old self.new }
    {
        put_entry(&mut self.maps, alloc, text)
    }
}

/// Puts the bytes that a text names into the entry that it names.
fn put_entry(maps: &mut Maps, alloc: Global, text: &str) -> Result<(), WordsFault>
    ensures maps { OnOk result (SetsEntry text.now maps.old maps.new) }
    ensures refused { IfErr result (GivesNone (SetsEntry text.now maps.old)) }
    ensures left { OnErr result (maps.new ≡ maps.old) }
{
    let Some((place, value)) = cut(text, '=') else {
        return Err(refused(alloc, "map", text, "an entry is set as 0:0=0a00"));
    };
    let Some((map, entry)) = entry_named(place) else {
        let why = "an entry is named by its map and its number, as 0:0";
        return Err(refused(alloc, "map", text, why));
    };
    let Some(mut bytes) = bytes_named(alloc, value)? else {
        return Err(refused(alloc, "map", text, "a value is hex, two digits a byte"));
    };
    if !maps.lookup(map, entry) {
        let right = maps_there(alloc, maps, map)?;
        return Err(refused(alloc, "map", text, &right));
    }
    let size = usize::from(maps.shape(map).value_size);
    if bytes.len() > size {
        let count = bytes.len();
        let right = format!(in alloc; "a value of map {map} has {size} bytes, not {count}")?;
        return Err(refused(alloc, "map", text, &right));
    }
    pad(alloc, &mut bytes, size)?;
    maps.put(map, entry, 0, bytes.as_slice());
    Ok(())
}

/// Says which entries the map of that number has, or which maps there are if there is no such map.
fn maps_there(alloc: Global, maps: &Maps, map: usize) -> Result<String, AllocError> {
    let shapes = maps.shapes();
    match shapes.get(map) {
        Some(shape) => {
            let entries = numbered(alloc, "entry", "entries", usize::from(shape.entries))?;
            format!(in alloc; "map {map} has {entries}")
        }
        None => {
            let maps = numbered(alloc, "map", "maps", shapes.len())?;
            format!(in alloc; "the policy has {maps}")
        }
    }
}

/// Says how many things there are by their numbers, as `one map, 0` or `the maps 0 to 3`.
fn numbered(alloc: Global, one: &str, several: &str, count: usize) -> Result<String, AllocError> {
    match count {
        0 => format!(in alloc; "no {one}"),
        1 => format!(in alloc; "one {one}, 0"),
        count => {
            let last = count.saturating_sub(1);
            format!(in alloc; "the {several} 0 to {last}")
        }
    }
}

/// Returns the map and the entry that a text names, as `0:2`.
fn entry_named(place: &str) -> Option<(usize, u32)>
    ensures some { IfSome result (λ named. NamesMapEntry place.now named.0 named.1) }
    ensures none { IfNone result ((m entry : ℕ) → entry < 2 ^ 32 → ¬ NamesMapEntry place.now m entry) }
{
    let (map, entry) = cut(place, ':')?;
    let map = decimal(map)?;
    let entry = decimal(entry)?;
    match u32::try_from(entry) {
        Ok(entry) => Some((map, entry)),
        Err(_) => None,
    }
}

/// Adds zeros after the bytes until there are this many.
fn pad(alloc: Global, bytes: &mut Vec<u8>, size: usize) -> Result<(), AllocError>
    ensures { OnOk result (bytes.new.items ≡ padded size bytes.old.items) }
{
    let zeros = vec![in alloc; 0; size.saturating_sub(bytes.len())]?;
    bytes.extend_from_slice(zeros.as_slice())
}
