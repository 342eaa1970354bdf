//! The table of weights and worked rows of virtual time, with values from outside this program.

use crate::asserting::{is_number, is_true};
use bq_weights::{GREATEST_V, advance, distance, shift, shift_within, vdelta, weight};

/// The weights of the nice values from -20 to 19, as Linux has them in sched_prio_to_weight (kernel/sched/core.c).
static TABLE: [u32; 40] = [
    88761, 71755, 56483, 46273, 36291, 29154, 23254, 18705, 14949, 11916, 9548, 7620, 6100, 4904,
    3906, 3121, 2501, 1991, 1586, 1277, 1024, 820, 655, 526, 423, 335, 272, 215, 172, 137, 110, 87,
    70, 56, 45, 36, 29, 23, 18, 15,
];

/// The weights are those of Linux's table.
#[test]
fn each_nice_value_has_its_weight(rt: HostRuntime) {
    for place in 0..40u8 {
        let nice = place as i8 - 20;
        is_number(
            &rt,
            u64::from(weight(nice)),
            u64::from(TABLE[usize::from(place)]),
        );
    }
}

/// Time t at weight w is t * 1024 / w of virtual time, rounded down: 10240000000 / 335, 3072000000 / 335, and t itself at 1024.
#[test]
fn virtual_time_passes_by_weight(rt: HostRuntime) {
    is_number(&rt, vdelta(10_000_000, 335), 30_567_164);
    is_number(&rt, vdelta(1_000_000, 1024), 1_000_000);
    is_number(&rt, vdelta(3_000_000, 335), 9_170_149);
    is_number(&rt, vdelta(281_474_976_710_655, 1024), 281_474_976_710_655);
}

/// Virtual time is held from 0 to 2^62, a shift back within a limit, and a distance within 2^30.
#[test]
fn virtual_time_is_held_within_its_ends(rt: HostRuntime) {
    is_number(
        &rt,
        advance(4_611_686_018_427_387_900, 10, 1024),
        4_611_686_018_427_387_904,
    );
    is_number(
        &rt,
        advance(4_294_967_296, 281_474_976_710_655, 1024),
        281_479_271_677_951,
    );
    is_number(&rt, shift(4_294_967_296, -4_294_967_297), 0);
    is_number(&rt, shift(GREATEST_V, 1), GREATEST_V);
    is_number(
        &rt,
        shift_within(4_294_967_296, -10_000_000, 9_170_149),
        4_285_797_147,
    );
    is_true(&rt, distance(GREATEST_V, 0) == 1 << 30);
    is_true(&rt, distance(0, GREATEST_V) == -(1 << 30));
    is_true(&rt, distance(4_294_967_296, 4_294_967_299) == -3);
}
