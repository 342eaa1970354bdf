//! The limits that definitions name by the constants of the code, with the values that the formats and the disciplines fix.

use crate::asserting::is_number;
use bq_bpf::board::{COUNTERS, MOST_CALLS};
use bq_bpf::shape::{ENTRIES, GREATEST_SIZE, LEAST_SIZE, MAPS};
use bq_cfs::GRANULARITY;
use bq_disc::clock::LATEST;
use bq_disc::limits::{DEFAULT_SLICE, FIRST_MARK, GREATEST_SLICE, LEAST_SLICE, PROCESSORS, TASKS};
use bq_disc::movable::MOST_NAMED;
use bq_insn::{REGISTERS, SLOTS};
use bq_weights::{GREATEST_V, GREATEST_WEIGHT, LEAST_WEIGHT, NICE_0_WEIGHT};

/// Each limit, and its value.
static LIMITS: [(u64, u64); 20] = [
    (GREATEST_V, 4_611_686_018_427_387_904),
    (LATEST, 281_474_976_710_655),
    (FIRST_MARK, 4_294_967_296),
    (LEAST_WEIGHT as u64, 15),
    (NICE_0_WEIGHT, 1_024),
    (GREATEST_WEIGHT as u64, 88_761),
    (LEAST_SLICE, 100_000),
    (DEFAULT_SLICE, 3_000_000),
    (GREATEST_SLICE, 100_000_000),
    (GRANULARITY, 1_000_000),
    (PROCESSORS as u64, 64),
    (TASKS as u64, 1_024),
    (MOST_NAMED as u64, 8),
    (MAPS as u64, 8),
    (LEAST_SIZE as u64, 8),
    (GREATEST_SIZE as u64, 256),
    (ENTRIES as u64, 256),
    (COUNTERS as u64, 64),
    (MOST_CALLS as u64, 16),
    (SLOTS as u64, 4_096),
];

/// A proof holds whatever value such a constant has, since the definition has it too. So the values are tested.
#[test]
fn each_limit_has_its_value(rt: HostRuntime) {
    for (limit, value) in &LIMITS {
        is_number(&rt, *limit, *value);
    }
    is_number(&rt, REGISTERS as u64, 11);
}
