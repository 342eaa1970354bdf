//! Whole programs, and the answer to each.

ghost use Rattle.std.specs.Prelude.{◌≡◌, ◌<◌, ◌≤◌, ℕ, length, OnOk, IfOk, IfErr, None, true, slice_index_or};
ghost use Rattle.bq_insn.specs.Slots.{spread};
ghost use Rattle.bq_insn.specs.Spelling.{is_insn, is_well_formed};
ghost use Rattle.std.specs.List.{list_all};
ghost use Rattle.bq_verify.specs.Accepted.{IsAccepted};
ghost use Rattle.bq_verify.specs.Edges.{IsWhole};
ghost use Rattle.bq_verify.specs.Passes.{IsGraphSound, Measured};
ghost use Rattle.bq_verify.specs.Paths.{IsGreatest, PathOut};
ghost use Rattle.bq_verify.specs.Faults.{IsFaultless};
ghost use Rattle.bq_verify.specs.Refusals.{IsGraphVerdict, IsOutOfMemory, IsVerdictOn};
ghost use Rattle.bq_verify.specs.Control.{BoundsCalls};
ghost use Rattle.bq_hooks.specs.Hooks.{context_length_of};
ghost use Rattle.bq_verify.specs.Straight.{IsStraightProgram};
ghost use Rattle.bq_verify.specs.Subjects.{subject_of_program};

use crate::cause::Cause;
use crate::checks::check;
use crate::graph_numbers::measure;
use crate::layout::lay_out;
use crate::policy_form::PolicyForm;
use crate::refused::Refused;
use crate::verified::Verified;
use bq_insn::{Insn, SLOTS};
use std::alloc::{AllocError, Global};

/// A program that is to be verified.
#[derive(Drop)]
pub struct Program {
    /// The instructions of the program, one after another.
    pub insns: Vec<Insn>,
    /// The hook, version and maps of the program.
    pub form: PolicyForm,
}

/// As many counts as asked for, none of them known.
fn no_counts(alloc: Global, count: usize) -> Result<Vec<Option<u32>>, AllocError>
    ensures blank { IfOk result (λ list. (k : ℕ) → slice_index_or list.items k None ≡ None) }
    ensures room { IfOk result (λ list. length list.items ≡ count) }
{
    vec![in alloc; None; count]
}

/// Checks the control graph. The error names the fault that the checks find first, or says that memory ran out.
pub(crate) fn check_graph(alloc: Global, slots: &[Option<Insn>]) -> Result<(), Refused>
    requires some { 0 < length slots.now }
    requires short { length slots.now ≤ SLOTS }
    requires whole { IsWhole slots.now }
    ensures ok { OnOk result (IsFaultless slots.now) }
    ensures refused { IfErr result (IsGraphVerdict slots.now) }
    ensures made { OnOk result ((made : ℕ → ℕ) × BoundsCalls slots.now made) }
    ensures passes { IsFaultless slots.now → IfErr result IsOutOfMemory }
{
    let mut most = no_counts(alloc, slots.len())?;
    match check(slots, most.as_mut_slice()) {
        Ok(()) => Ok(()),
        Err(fault) => Err(Refused::At {
            slot: fault.slot,
            cause: Cause::Graph(fault.cause),
        }),
    }
}

/// The number of instructions on the longest path from each slot.
fn heights_of(alloc: Global, slots: &[Option<Insn>]) -> Result<Vec<u32>, AllocError>
    requires short { length slots.now ≤ SLOTS }
    requires sound { IsGraphSound slots.now }
    ensures measured { IfOk result (λ heights. Measured slots.now 0 heights.items) }
    ensures room { IfOk result (λ heights. length heights.items ≡ length slots.now) }
{
    let mut heights = vec![in alloc; 0; slots.len()]?;
    measure(slots, heights.as_mut_slice());
    Ok(heights)
}

/// Accepts a program if it is shown to be safe.
///
/// The checks of the control graph run over the whole program in this order, and each names the least slot with its
/// fault: `Jump`, `NoExit`, `Unreached`, `Frame`, `Helper`, `Counters`. Then one pass goes over the slots in rising
/// order, and stops at the first slot with an obligation that is not proven. An accepted program is safe within its
/// budget (see `Verified`), and the budget is the number of instructions on the longest path to an EXIT. `OutOfMemory`
/// means that memory ran out. A straight program, in which each instruction finds what it needs on every path
/// (`IsStraightProgram`), gets no other refusal. The verdict on a program comes from one place: only this call shows
/// `IsVerdictOn` and `IsAccepted` for a program without a fault of the control graph, whichever way the program came.
///
/// # Example
///
/// ```
/// let program = Program {
///     insns: assemble(alloc, "mov64 r0, 1\nexit\n")?,
///     form: PolicyForm {
///         hook: Hook::Preempt,
///         version: Version::First,
///         shapes: Vec::new(alloc),
///     },
/// };
/// let verified = verify(alloc, program)?;
/// assert_eq!(rt; verified.budget(), 2);
/// ```
pub fn verify(alloc: Global, program: Program) -> Result<Verified, Refused>
    requires { is_well_formed program.insns.items ≡ true }
    ensures slots { IfOk result (λ v. v.slots ≡ spread program.insns.items) }
    ensures shapes { IfOk result (λ v. v.shapes ≡ program.form.shapes.items) }
    ensures hook { IfOk result (λ v. v.hook ≡ program.form.hook) }
    ensures version { IfOk result (λ v. v.version ≡ program.form.version) }
    ensures faultless { IfOk result (λ v. IsFaultless v.slots) }
    ensures budget { IfOk result (λ v. IsGreatest (PathOut v.slots 0) v.budget) }
    ensures accepted { IfOk result (λ v. IsAccepted v.slots v.shapes (context_length_of v.hook v.version) v.budget) }
    ensures refused { IfErr result (IsVerdictOn (subject_of_program program)) }
    ensures total_on_straight { IsStraightProgram (subject_of_program program) → IfErr result IsOutOfMemory }
{
    verify_slots(alloc, program)
}

/// Verifies a program of 1 to 4,096 slots, as `verify` does.
fn verify_slots(alloc: Global, program: Program) -> Result<Verified, Refused>
    requires registers { list_all is_insn program.insns.items ≡ true }
    requires some { 0 < length (spread program.insns.items) }
    requires short { length (spread program.insns.items) ≤ SLOTS }
    ensures slots { IfOk result (λ v. v.slots ≡ spread program.insns.items) }
    ensures shapes { IfOk result (λ v. v.shapes ≡ program.form.shapes.items) }
    ensures hook { IfOk result (λ v. v.hook ≡ program.form.hook) }
    ensures version { IfOk result (λ v. v.version ≡ program.form.version) }
    ensures faultless { IfOk result (λ v. IsFaultless v.slots) }
    ensures budget { IfOk result (λ v. IsGreatest (PathOut v.slots 0) v.budget) }
    ensures accepted { IfOk result (λ v. IsAccepted v.slots v.shapes (context_length_of v.hook v.version) v.budget) }
    ensures refused { IfErr result (IsVerdictOn (subject_of_program program)) }
    ensures total_on_straight { IsStraightProgram (subject_of_program program) → IfErr result IsOutOfMemory }
{
    let Program { insns, form } = program;
    let slots = lay_out(alloc, insns.as_slice())?;
    check_graph(alloc, slots.as_slice())?;
    let heights = heights_of(alloc, slots.as_slice())?;
    match Verified::new(alloc, slots, form, heights.as_slice()) {
        Ok(verified) => Ok(verified),
        Err(refused) => Err(refused),
    }
}
