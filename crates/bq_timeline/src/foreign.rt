//! Tells by its first line what a text that is no trace is: a workload or a policy.

/// Returns what a text is, by its first line, and what to do with it. `None` unless it is a workload or a policy.
///
/// `bq_asm_faults::kind_of_text` knows more beginnings, since it looks at a whole file. A trace comes as a stream, so only one line is at
/// hand here. Nor does this crate use `bq_asm_faults`: its crates would bring the parser of command lines with them.
pub(crate) fn foreign_text(line: &[u8]) -> Option<&'static str> {
    if line.starts_with(b"[machine]") || line.starts_with(b"[[task]]") {
        Some("this is a workload, not a trace; bqsim simulate runs it")
    } else if line.starts_with(b";") || line.starts_with(b"BQPI") || line.starts_with(b"42515049") {
        Some(
            "this is a policy, not a trace; bqsim check judges it, and simulate runs a workload with it",
        )
    } else {
        None
    }
}
