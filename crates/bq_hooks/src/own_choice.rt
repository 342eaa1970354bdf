//! The discipline's own choice of a place for a woken task.
ghost use Rattle.std.specs.Prelude.{◌≡◌, ◌<◌, ◌≤◌, ◌-◌, Some, filter};
ghost use Rattle.std.specs.List.{range_with_len};
ghost use Rattle.bq_disc.specs.Masks.{allows};
ghost use Rattle.bq_hooks.specs.OwnPlace.{own_place, first_place, former_place, place_before, HasPlace};

use crate::Loads;
use bq_disc::Entity;
use bq_disc::limits::PROCESSORS;
use bq_disc::mask::has;

/// The processor of least load in the task's mask, of the first `count`. Of several with that load, it is the task's
/// previous processor if that is among them, else the one of least number.
pub fn own_place(count: usize, loads: &Loads, task: &Entity) -> u8
    requires few { count ≤ PROCESSORS }
    requires usable { HasPlace count task.now }
    ensures own { Some result ≡ own_place count loads.now task.now }
    ensures below { result < count }
{
    match first_place(loads, task.mask(), task.prev(), count) {
        Some(place) => place,
        None => unreachable!(),
    }
}

/// The best place, by `place_before`, among a mask's processors below `count`; None if the mask has none of them.
fn first_place(loads: &Loads, mask: u64, previous: Option<u8>, count: usize) -> Option<u8>
    requires few { count ≤ PROCESSORS }
    ensures { result ≡ first_place loads.now previous (filter (allows mask) (range_with_len 0 count)) }
{
    let mut first = None;
    for done in 0..count {
        let place = (count - 1 - done) as u8;
        if has(mask, place) {
            first = Some(former_place(loads, previous, place, first));
        }
    }
    first
}

/// The processor `place`, unless there is another and it goes before `place`.
fn former_place(loads: &Loads, previous: Option<u8>, place: u8, other: Option<u8>) -> u8
    ensures { result ≡ former_place loads.now previous place other }
{
    match other {
        Some(other) if place_before(loads, previous, other, place) => other,
        _ => place,
    }
}

/// Whether one processor is a better place than another.
fn place_before(loads: &Loads, previous: Option<u8>, one: u8, other: u8) -> bool
    ensures { result ≡ place_before loads.now previous one other }
{
    let load = loads.get(usize::from(one));
    let other_load = loads.get(usize::from(other));
    if load != other_load {
        return load < other_load;
    }
    if previous == Some(one) {
        return true;
    }
    previous != Some(other) && one < other
}
