//! What the tests assert. Each assertion stands in a function of its own, which owns nothing: a proof of an assertion carries
//! all that its function would drop. An assertion that shows what it compared costs the proof twice as much, so only three do.

use std::process::Abort;

/// A fact is true.
pub fn is_true(rt: &impl Abort, fact: bool) {
    assert!(rt; fact);
}

/// A fact is true of a row of a table.
pub fn is_true_in_row(rt: &impl Abort, fact: bool, row: usize) {
    assert!(rt; fact, "row {row}");
}

/// A number is as expected.
pub fn is_number(rt: &impl Abort, number: u64, expected: u64) {
    assert!(rt; number == expected, "{number}, and wanted is {expected}");
}

/// What is said of a text is as expected.
pub fn is_reported(rt: &impl Abort, reported: &str, expected: &str, of: &str) {
    assert!(rt;
        reported == expected,
        "{reported}, and wanted is {expected}: {of}"
    );
}

/// Bytes are as expected.
pub fn are_bytes(rt: &impl Abort, found: &[u8], expected: &[u8]) {
    is_true(rt, found == expected);
}
