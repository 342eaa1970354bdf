//! Contexts of places, permitted answers and own places. Expected bytes are written field by field from the tables of
//! docs/CONTEXTS.md; each load is its processor's number and one more.

ghost use Rattle.std.specs.Prelude.{◌≤◌, length};

use crate::asserting::{is_number, is_true};
use bq_disc::Entity;
use bq_hooks::{
    By, Choice, Loads, Place, own_place, place_ctx, settle_place, settle_preempt, wide_place_ctx,
};
use std::process::Abort;

/// The loads 1, 2, 3 and so on.
fn rising(count: u16) -> Loads {
    let mut loads = Loads::new();
    for load in 0..count {
        if loads.as_slice().len() < 64 {
            loads.push(load + 1);
        }
    }
    loads
}

/// Compares a context with its first 40 bytes and the loads of that number of processors behind them.
fn shows(rt: &impl Abort, context: &[u8], header: &[u8; 40], processors: usize)
    requires { 40 ≤ length context.now }
{
    let (first, loads) = context.split_at(40);
    is_true(rt, first == header.as_slice());
    for (at, byte) in loads.iter().enumerate() {
        is_number(rt, u64::from(*byte), u64::from(load_byte(at, processors)));
    }
}

/// A byte of the loads of that number of processors, 64 at most, each of which is its processor's number and one more.
fn load_byte(at: usize, processors: usize) -> u8 {
    if at % 4 == 0 && at / 4 < processors.min(64) {
        (at / 4 + 1) as u8
    } else {
        0
    }
}

/// Compares the context of version 1.
fn first_shows(rt: &impl Abort, facts: &Place, header: &[u8; 40]) {
    let mut context = [0xaa; 104];
    place_ctx(facts, &mut context);
    shows(rt, &context, header, facts.processors.min(16));
}

/// And that of version 2.
fn second_shows(rt: &impl Abort, facts: &Place, header: &[u8; 40]) {
    let mut context = [0xaa; 296];
    wide_place_ctx(facts, &mut context);
    shows(rt, &context, header, facts.processors.min(64));
}

/// A task that is placed, by the first words of its contexts in both versions.
struct Row {
    id: u16,
    weight: u32,
    mask: u64,
    slice: u64,
    prev: Option<u8>,
    waking: u8,
    processors: u16,
    own: u8,
    first: &'static [u8; 40],
    second: &'static [u8; 40],
}

static ROWS: [Row; 4] = [
    // on one processor both versions show the same
    Row {
        id: 1023,
        weight: 1024,
        mask: 1,
        slice: 100_000,
        prev: None,
        waking: 0,
        processors: 1,
        own: 0,
        first: &ON_ONE,
        second: &ON_ONE,
    },
    // and on sixteen: number 15 is the last that version 1 shows
    Row {
        id: 3,
        weight: 88761,
        mask: 0x8001,
        slice: 100_000_000,
        prev: Some(15),
        waking: 15,
        processors: 16,
        own: 0,
        first: &ON_SIXTEEN,
        second: &ON_SIXTEEN,
    },
    // on more, version 1 shows sixteen processors, and none in place of those beyond
    Row {
        id: 513,
        weight: 15,
        mask: 0x8000_0000_0001_8001,
        slice: 3_000_000,
        prev: Some(63),
        waking: 16,
        processors: 64,
        own: 15,
        first: &FIRST_ON_SIXTY_FOUR,
        second: &SECOND_ON_SIXTY_FOUR,
    },
    // an own choice beyond number 15 is not shown to version 1; mask bits beyond the machine are shown to neither
    Row {
        id: 1,
        weight: 1024,
        mask: 0xffff_ffff_0010_0000,
        slice: 3_000_000,
        prev: Some(14),
        waking: 15,
        processors: 32,
        own: 20,
        first: &FIRST_ON_THIRTY_TWO,
        second: &SECOND_ON_THIRTY_TWO,
    },
];

const ON_ONE: [u8; 40] = [
    0xff, 3, 0, 0, // the task
    0, 4, 0, 0, // its weight
    1, 0, 0, 0, 0, 0, 0, 0, // its mask
    0xa0, 0x86, 1, 0, 0, 0, 0, 0, // its slice
    0, 0, 0, 0, // the waking processor
    0xff, 0xff, 0xff, 0xff, // no previous one
    1, 0, 0, 0, // how many processors there are
    0, 0, 0, 0, // the own choice
];

const ON_SIXTEEN: [u8; 40] = [
    3, 0, 0, 0, // the task
    0xb9, 0x5a, 1, 0, // its weight
    1, 0x80, 0, 0, 0, 0, 0, 0, // its mask
    0, 0xe1, 0xf5, 5, 0, 0, 0, 0, // its slice
    0x0f, 0, 0, 0, // the waking processor
    0x0f, 0, 0, 0, // the previous one
    0x10, 0, 0, 0, // how many processors there are
    0, 0, 0, 0, // the own choice
];

const FIRST_ON_SIXTY_FOUR: [u8; 40] = [
    1, 2, 0, 0, // the task
    0x0f, 0, 0, 0, // its weight
    1, 0x80, 0, 0, 0, 0, 0, 0, // its mask, of the first sixteen
    0xc0, 0xc6, 0x2d, 0, 0, 0, 0, 0, // its slice
    0xff, 0xff, 0xff, 0xff, // the waking processor is not shown
    0xff, 0xff, 0xff, 0xff, // nor is the previous one
    0x10, 0, 0, 0, // how many processors are shown
    0x0f, 0, 0, 0, // the own choice
];

const SECOND_ON_SIXTY_FOUR: [u8; 40] = [
    1, 2, 0, 0, // the task
    0x0f, 0, 0, 0, // its weight
    1, 0x80, 1, 0, 0, 0, 0, 0x80, // its mask
    0xc0, 0xc6, 0x2d, 0, 0, 0, 0, 0, // its slice
    0x10, 0, 0, 0, // the waking processor
    0x3f, 0, 0, 0, // the previous one
    0x40, 0, 0, 0, // how many processors there are
    0x0f, 0, 0, 0, // the own choice
];

const FIRST_ON_THIRTY_TWO: [u8; 40] = [
    1, 0, 0, 0, // the task
    0, 4, 0, 0, // its weight
    0, 0, 0, 0, 0, 0, 0, 0, // its mask, of the first sixteen
    0xc0, 0xc6, 0x2d, 0, 0, 0, 0, 0, // its slice
    0x0f, 0, 0, 0, // the waking processor
    0x0e, 0, 0, 0, // the previous one
    0x10, 0, 0, 0, // how many processors are shown
    0xff, 0xff, 0xff, 0xff, // the own choice is not shown
];

const SECOND_ON_THIRTY_TWO: [u8; 40] = [
    1, 0, 0, 0, // the task
    0, 4, 0, 0, // its weight
    0, 0, 0x10, 0, 0, 0, 0, 0, // its mask
    0xc0, 0xc6, 0x2d, 0, 0, 0, 0, 0, // its slice
    0x0f, 0, 0, 0, // the waking processor
    0x0e, 0, 0, 0, // the previous one
    0x20, 0, 0, 0, // how many processors there are
    0x14, 0, 0, 0, // the own choice
];

/// The task of a row.
fn task(row: &Row) -> Entity {
    let weight = row.weight.clamp(15, 88761);
    let slice = row.slice.clamp(100_000, 100_000_000);
    let mut task = Entity::new(row.id, weight, row.mask, slice);
    if let Some(prev) = row.prev {
        task.set_prev(prev);
    }
    task
}

/// Both contexts of a place show what the row says.
fn both_show(rt: &impl Abort, row: &Row) {
    let facts = Place {
        task: &task(row),
        waking: row.waking,
        processors: usize::from(row.processors),
        own: row.own,
        loads: &rising(row.processors),
    };
    first_shows(rt, &facts, row.first);
    second_shows(rt, &facts, row.second);
}

/// Both versions of a context show the fields that the tables of docs/CONTEXTS.md have.
#[test]
fn places_are_shown(rt: HostRuntime) {
    for row in &ROWS {
        both_show(&rt, row);
    }
}

/// What a policy answers, and by whom a task is placed then.
static PERMITTED_PLACES: [(Option<u64>, By); 6] = [
    (None, By::Discipline),
    (Some(200), By::Discipline),
    (Some(0), By::Discipline),
    (Some(u64::MAX), By::Discipline),
    (Some(257), By::Discipline),
    (Some(1), By::Policy),
];

fn is_placed(rt: &impl Abort, r0: Option<u64>, task: &Entity, by: By) {
    is_true(rt, settle_place(r0, 2, task, 1) == Choice { value: 1, by });
}

/// Of two processors the mask allows the second: 200, 0 and -1 are not permitted, and 1 is.
#[test]
fn places_that_are_permitted(rt: HostRuntime) {
    let task = Entity::new(3, 1024, 2, 3_000_000);
    for (r0, by) in &PERMITTED_PLACES {
        is_placed(&rt, *r0, &task, *by);
    }
}

/// What a policy answers, what the discipline does, what is done then, and by whom.
static PREEMPTIONS: [(Option<u64>, bool, bool, By); 9] = [
    (None, false, false, By::Discipline),
    (None, true, true, By::Discipline),
    (Some(0), false, false, By::Policy),
    (Some(1), true, true, By::Policy),
    (Some(2), false, false, By::Discipline),
    (Some(2), true, true, By::Discipline),
    (Some(1 << 32), true, true, By::Discipline),
    (Some(0), true, false, By::Policy),
    (Some(1), false, true, By::Policy),
];

fn is_settled(rt: &impl Abort, choice: &Choice<bool>, value: bool, by: By) {
    is_true(rt, *choice == Choice { value, by });
}

/// 0 and 1 are permitted, whatever the discipline's own answer is.
#[test]
fn preemptions_that_are_permitted(rt: HostRuntime) {
    for (r0, own, value, by) in &PREEMPTIONS {
        is_settled(&rt, &settle_preempt(*r0, *own), *value, *by);
    }
}

/// The loads of six processors.
static SIX_LOADS: [u16; 6] = [3, 1, 2, 1, 1, 0];

fn loads_of_six() -> Loads {
    let mut loads = Loads::new();
    for load in &SIX_LOADS {
        if loads.as_slice().len() < 6 {
            loads.push(*load);
        }
    }
    loads
}

/// A mask of six processors, the previous one, and the own place.
static OWN_PLACES: [(u64, Option<u8>, u8); 10] = [
    (0b111111, Some(0), 5),
    (0b011111, Some(0), 1),
    (0b011111, Some(3), 3),
    (0b011111, Some(4), 4),
    (0b011111, Some(2), 1),
    (0b010010, Some(3), 1),
    (0b001101, Some(0), 3),
    (0b000101, Some(0), 2),
    (0b000001, Some(5), 0),
    (0b011000, None, 3),
];

fn is_own_place(rt: &impl Abort, loads: &Loads, mask: u64, prev: Option<u8>, place: u8) {
    let mut task = Entity::new(1, 1024, mask.clamp(1, 63), 3_000_000);
    if let Some(prev) = prev {
        task.set_prev(prev);
    }
    is_number(rt, u64::from(own_place(6, loads, &task)), u64::from(place));
}

/// The least load is chosen in the mask; of equal loads the previous processor, and else the least number.
#[test]
fn own_places(rt: HostRuntime) {
    let loads = loads_of_six();
    for (mask, prev, place) in &OWN_PLACES {
        is_own_place(&rt, &loads, *mask, *prev, *place);
    }
}
