//! The refusal of a policy by the verifier: its place, its reason, and what is known there.
ghost use Rattle.std.specs.Prelude.{◌≡◌, ◌<◌, ℕ, Bool, List, [], IfOk, false, length, slice_index_or, true};
ghost use Rattle.bq_insn.specs.Slots.{spread};
ghost use Rattle.bq_verify.specs.Faults.{IsFaultless};
ghost use Rattle.bq_verify.specs.KnownAt.{AreKnown};
ghost use Rattle.bq_policy_file.specs.Subjects.{subject_in};
ghost use Rattle.bq_policy_file.specs.declared.policy_source.PolicySource.{PolicySource as PolicySourceValue};
ghost use Rattle.bq_explain.specs.Explained.{AreAsked, AreMade, IsFinding, IsOfState, IsRefusalOf, speaks_of};
ghost use Rattle.bq_explain.specs.Verdicts.{IsRefusedPolicy};

use crate::advice::{Advice, graph_advice, only, state_advice};
use crate::graph_fault::{GraphFault, graph_fault, label_on};
use crate::program_point::{ProgramPoint, place_at};
use crate::trail::{Trail, find_trail, no_trail};
use bq_insn::{Insn, REGISTERS};
use bq_needs::{Argument, Need, Registers, need_of};
use bq_policy_file::PolicySource;
use bq_states::abstract_state::AbstractState;
use bq_verify::layout::lay_out;
use bq_verify::{Cause, GraphCause, KnownStates, known_states};
use std::alloc::{AllocError, Global};

/// Why the verifier refuses a policy.
#[derive(Drop)]
pub struct ExplainedRefusal {
    /// The instruction at which the verifier refuses the policy.
    pub place: ProgramPoint,
    pub cause: Cause,
    /// What is wrong with that instruction.
    pub finding: Finding,
    /// The label that the instruction names, if it is a jump at fault of a policy that came as a text.
    pub label: Option<String>,
    /// Where the registers come from that matter to the finding.
    pub trail: Trail,
    /// What helps.
    pub advice: Advice,
}

/// What is wrong with an instruction.
#[derive(Clone, Copy)]
pub enum Finding {
    /// The instruction has a fault by the control graph or by itself.
    Graph(GraphFault),
    /// The instruction needs what is not shown; this is known of registers and stack before it.
    State { need: Need, known: AbstractState },
    /// Nothing is known before the instruction.
    Unknown,
}

/// Explains why the verifier refuses the policy at that slot for that cause.
pub(crate) fn refusal_of(
    alloc: Global,
    policy: &PolicySource,
    file: &[u8],
    slot: usize,
    cause: Cause,
) -> Result<ExplainedRefusal, AllocError>
    requires { IsRefusedPolicy policy.now slot cause }
    ensures { IfOk result (IsRefusalOf policy.now slot cause) }
{
    let slots = lay_out(alloc, policy.insns.as_slice())?;
    let Some(place) = place_at(policy, slots.as_slice(), slot) else {
        unreachable!()
    };
    match cause {
        Cause::Graph(named) => graph_refusal(alloc, file, slots.as_slice(), place, named),
        Cause::State(_) => state_refusal(alloc, policy, slots.as_slice(), place, cause),
    }
}

/// Explains a refusal at that place for a fault of the control graph.
fn graph_refusal(
    alloc: Global,
    file: &[u8],
    slots: &[Option<Insn>],
    place: ProgramPoint,
    named: GraphCause,
) -> Result<ExplainedRefusal, AllocError>
    ensures place { IfOk result (λ refusal. refusal.place ≡ place) }
    ensures cause { IfOk result (λ refusal. refusal.cause ≡ Cause.Graph named) }
    ensures finds { IfOk result (λ refusal. (p : PolicySourceValue) (slot : ℕ) → IsFinding p slot place.insn (Cause.Graph named) refusal.finding) }
    ensures made { IfOk result (λ refusal. refusal.trail.makers.items ≡ []) }
{
    let fault = graph_fault(slots.len(), place.slot, place.insn, named);
    let label = label_of(alloc, file, place, named)?;
    let advice = graph_advice(fault, slots.len());
    Ok(ExplainedRefusal {
        place,
        cause: Cause::Graph(named),
        finding: Finding::Graph(fault),
        label,
        trail: no_trail(alloc),
        advice,
    })
}

/// Copies the label that a jump at fault names; None if the instruction has another fault or names no label.
fn label_of(
    alloc: Global,
    file: &[u8],
    place: ProgramPoint,
    named: GraphCause,
) -> Result<Option<String>, AllocError> {
    match (named, label_on(file, place.line)) {
        (GraphCause::Jump, Some(label)) => Ok(Some(String::from_str(alloc, label)?)),
        _ => Ok(None),
    }
}

/// Explains a refusal at that place for what is not shown of the states.
fn state_refusal(
    alloc: Global,
    policy: &PolicySource,
    slots: &[Option<Insn>],
    place: ProgramPoint,
    cause: Cause,
) -> Result<ExplainedRefusal, AllocError>
    requires slots { slots.now ≡ spread policy.now.insns.items }
    requires faultless { IsFaultless (spread policy.now.insns.items) }
    requires inside { place.slot < length slots.now }
    requires of_state { IsOfState cause }
    ensures place { IfOk result (λ refusal. refusal.place ≡ place) }
    ensures cause { IfOk result (λ refusal. refusal.cause ≡ cause) }
    ensures finds { IfOk result (λ refusal. IsFinding policy.now place.slot place.insn cause refusal.finding) }
    ensures made { IfOk result (λ refusal. (asked : List Bool) × AreAsked refusal.finding asked × AreMade slots.now place.slot asked refusal.trail.makers.items) }
{
    let program = policy.program(alloc)?;
    let states = known_states(alloc, &program, place.slot)?;
    let finding = finding_of(policy, &states, place, cause);
    let asked = asked_in(finding);
    let trail = find_trail(alloc, policy, slots, &states, place.slot, &asked)?;
    let advice = state_advice(policy, place.insn, finding, &trail);
    Ok(ExplainedRefusal {
        place,
        cause,
        finding,
        label: None,
        trail,
        advice,
    })
}

/// Finds the state before the instruction, and the need that this state does not meet.
fn finding_of(
    policy: &PolicySource,
    states: &KnownStates,
    place: ProgramPoint,
    cause: Cause,
) -> Finding
    requires known { AreKnown (subject_in policy.now) place.slot states.now }
    requires inside { place.slot < length (spread policy.now.insns.items) }
    requires of_state { IsOfState cause }
    ensures { IsFinding policy.now place.slot place.insn cause result }
{
    match states.at(place.slot) {
        Some(known) => Finding::State {
            need: need_of(policy, known, place.insn, cause),
            known: *known,
        },
        None => Finding::Unknown,
    }
}

/// Lists the registers that matter to the finding.
fn asked_in(finding: Finding) -> Registers
    ensures { AreAsked finding result }
{
    match finding {
        Finding::State { need, .. } => asked_by(need),
        Finding::Graph(_) | Finding::Unknown => [false; REGISTERS],
    }
}

/// Lists the registers of which the need speaks.
fn asked_by(need: Need) -> Registers
    ensures { (r : ℕ) → slice_index_or result r false ≡ true → speaks_of need r ≡ true }
{
    match need {
        Need::Unknown(registers) => registers,
        Need::Address(access) | Need::Access { access, .. } => only(access.register),
        Need::Number(pointer) => only(pointer.register),
        Need::Argument { argument, .. } => only(argument.register()),
        Need::Answer(_) => only(0),
        Need::Map(_) | Need::Unshown => [false; REGISTERS],
    }
}
