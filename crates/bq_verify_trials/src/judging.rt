//! What the verifier answers to programs that are given as texts.

ghost use Rattle.std.specs.Prelude.{◌≡◌, ◌≤◌, length, true};
ghost use Rattle.bq_insn.specs.Spelling.{is_well_formed};

use crate::asserting::is_reported;
use bq_asm::assemble;
use bq_bpf::MapShape;
use bq_hooks::{Hook, Version};
use bq_insn::Insn;
use bq_insn::encode::well_formed;
use bq_verify::{PolicyForm, Program, Refused, verify};
use std::alloc::Global;
use std::process::Abort;

/// What a program is judged with: the shapes of its maps, its hook and its version.
#[derive(Clone, Copy)]
pub struct Terms<'a> {
    pub shapes: &'a [MapShape],
    pub hook: Hook,
    pub version: Version,
}

/// The hook preempt, whose context has 56 bytes, beside these maps.
pub fn preempt(shapes: &[MapShape]) -> Terms<'_> {
    Terms {
        shapes,
        hook: Hook::Preempt,
        version: Version::First,
    }
}

/// A map with that number of entries of that size.
pub fn shape(rt: &impl Abort, value_size: u16, entries: u16) -> MapShape
    ensures size { result.value_size ≡ value_size }
    ensures entries { result.entries ≡ entries }
{
    MapShape::new(value_size, entries).expect(rt, "a shape")
}

/// The instructions are well formed, and the maps are few.
fn may_be_judged(rt: &impl Abort, insns: &[Insn], shapes: &[MapShape])
    ensures whole { is_well_formed insns.now ≡ true }
    ensures few { length shapes.now ≤ 8 }
{
    assert!(rt; well_formed(insns));
    assert!(rt; shapes.len() <= 8);
}

/// The budget of an accepted program, or why it is refused.
fn verdict(
    rt: &impl Abort,
    alloc: Global,
    insns: Vec<Insn>,
    terms: &Terms<'_>,
) -> Result<u32, Refused> {
    may_be_judged(rt, insns.as_slice(), terms.shapes);
    let form = PolicyForm {
        hook: terms.hook,
        version: terms.version,
        shapes: terms.shapes.to_vec(alloc).expect(rt, "memory"),
    };
    let verified = verify(alloc, Program { insns, form })?;
    Ok(verified.budget())
}

/// A verdict in a word or two: the budget, or the cause of the refusal and its slot.
fn reported(rt: &impl Abort, alloc: Global, verdict: Result<u32, Refused>) -> String {
    let reported = match verdict {
        Ok(budget) => format!(in alloc; "{budget}"),
        Err(Refused::At { slot, cause }) => format!(in alloc; "{cause:?} {slot}"),
        Err(Refused::OutOfMemory) => String::from_str(alloc, "out of memory"),
    };
    reported.expect(rt, "memory")
}

/// The program has that answer.
pub fn are_answered(
    rt: &impl Abort,
    alloc: Global,
    insns: Vec<Insn>,
    terms: &Terms<'_>,
    answer: &str,
    text: &str,
) {
    let verdict = verdict(rt, alloc, insns, terms);
    let reported = reported(rt, alloc, verdict);
    is_reported(rt, reported.as_str(), answer, text);
}

/// The program of a text has that answer.
pub fn is_answered(rt: &impl Abort, alloc: Global, text: &str, terms: &Terms<'_>, answer: &str) {
    let insns = assemble(alloc, text).expect(rt, "a program");
    are_answered(rt, alloc, insns, terms, answer, text);
}

/// A trial's first line is the answer to the program that the others begin, with that end.
fn is_tried(rt: &impl Abort, alloc: Global, terms: &Terms<'_>, trial: &str, end: &str) {
    let (answer, beginning) = trial.split_once('\n').expect(rt, "no answer");
    let text = format!(in alloc; "{beginning}\n{end}").expect(rt, "memory");
    is_answered(rt, alloc, text.as_str(), terms, answer);
}

/// Each program, of such a beginning and that end, has its answer beside these maps. Between the trials stand blank lines, and a trial's
/// first line is the answer.
pub fn expect(rt: &impl Abort, alloc: Global, shapes: &[MapShape], trials: &str, end: &str) {
    let terms = preempt(shapes);
    for trial in trials.split("\n\n") {
        is_tried(rt, alloc, &terms, trial, end);
    }
}

/// What reads a byte of the context at `r2`, which has to be 0 to 55, and the way out.
pub const BYTE_OF_CONTEXT: &str = "add64 r1, r2
ldxb r0, [r1+0]
exit
out:
mov64 r0, 0
exit
";

/// Only the way out.
pub const OUT: &str = "out:
mov64 r0, 0
exit
";

/// The programs of each text, with the end that stands beside it, have their answers beside a map of one entry of 16 bytes and a map of
/// two.
pub fn follows(rt: &impl Abort, alloc: Global, texts: &[(&str, &str)]) {
    let shapes = [shape(rt, 16, 1), shape(rt, 16, 2)];
    for (trials, end) in texts {
        expect(rt, alloc, &shapes, trials, end);
    }
}
