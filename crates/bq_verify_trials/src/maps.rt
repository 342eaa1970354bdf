//! The limits of shapes, and values written and read back.

use crate::asserting::{are_bytes, is_number, is_true};
use crate::judging::shape;
use bq_bpf::board::{Board, Plain};
use bq_bpf::{Helper, MapShape};
use bq_maps::maps::Maps;
use std::process::Abort;

/// Sizes of values, numbers of entries, and whether there are such maps.
static LIMITS: [(u16, u16, bool); 7] = [
    (12, 1, false),
    (8, 0, false),
    (264, 1, false),
    (8, 257, false),
    (0, 1, false),
    (8, 1, true),
    (256, 256, true),
];

/// A value has 8 to 256 bytes, a multiple of 8, and a map 1 to 256 entries.
#[test]
fn limits(rt: HostRuntime) {
    for (value_size, entries, there) in &LIMITS {
        let shape = MapShape::new(*value_size, *entries);
        is_true(&rt, shape.is_some() == *there);
    }
}

/// Which entries of a map of two are there, by the map and the entry.
fn are_two(rt: &impl Abort, maps: &Maps) {
    is_true(rt, maps.lookup(0, 1));
    is_true(rt, !maps.lookup(0, 2));
    is_true(rt, !maps.lookup(1, 0));
}

/// What is written into an entry is read back, and the other entry stays as it was.
#[test]
fn entries(rt: HostRuntime) {
    let mut maps = Maps::new(rt.alloc(), &[shape(&rt, 8, 2)]).expect(&rt, "memory");
    are_two(&rt, &maps);
    is_true(&rt, maps.update(0, 1, &[1, 2, 3, 4, 5, 6, 7, 8]));
    if maps.lookup(0, 1) {
        maps.put(0, 1, 6, &[9, 10]);
        are_bytes(&rt, maps.entry(0, 1), &[1, 2, 3, 4, 5, 6, 9, 10]);
    }
    // an update past the entries answers false and changes nothing
    is_true(&rt, !maps.update(0, 2, &[11; 8]));
    are_bytes(
        &rt,
        maps.contents(0),
        &[0, 0, 0, 0, 0, 0, 0, 0, 1, 2, 3, 4, 5, 6, 9, 10],
    );
}

/// The numbers of the helpers, by docs/BPF.md.
static HELPERS: [i32; 6] = [1, 2, 5, 8, 100, 101];

/// There is no other helper.
#[test]
fn helpers(rt: HostRuntime) {
    for number in 0..200 {
        is_true(
            &rt,
            Helper::of(number).is_some() == HELPERS.contains(&number),
        );
    }
}

/// An add answers the value before it, and sums are taken modulo 2^64.
#[test]
fn counters(rt: HostRuntime) {
    let mut board = Plain::new();
    is_number(&rt, board.add(63, 5), 0);
    is_number(&rt, board.add(63, u64::MAX), 5);
    is_number(&rt, board.read(63), 4);
    is_number(&rt, board.read(0), 0);
}
