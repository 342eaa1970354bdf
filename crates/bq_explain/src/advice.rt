//! What helps against each cause, as a value.
ghost use Rattle.std.specs.Prelude.{◌≡◌, ◌==◌, ℕ, false, slice_index_or, true};
ghost use Rattle.bq_explain.specs.Advising.{AdvisesOn, NamesRegister};
ghost use Rattle.bq_explain.specs.declared.advice.Advice.TheVariants.{Know};
ghost use Rattle.bq_explain.specs.declared.advice.Missing.{Missing as MissingValue};

use crate::access_advice::{AccessRange, Reach, access_advice, is_answer_itself, test_advice};
use crate::graph_fault::GraphFault;
use crate::refusal::Finding;
use crate::trail::Trail;
use bq_bpf::shape::MAPS;
use bq_insn::{Insn, Operation, REGISTERS, Source, Width};
use bq_needs::{Argument, Need, Pointer, Registers, moves};
use bq_policy_file::PolicySource;
use bq_states::abstract_state::{AbstractState, AbstractValue, ValueKind};
use bq_states::registers::known;

/// What helps.
#[derive(Clone, Copy)]
pub enum Advice {
    /// Jump to a later instruction.
    JumpForward,
    /// Count the slots of wide instructions.
    CountSlots,
    /// Put an instruction where the program ends.
    PutThere,
    /// End with an exit.
    End,
    /// Take the instruction out.
    TakeOut,
    /// Call another helper.
    CallAnother,
    /// Copy r10 first.
    CopyFrame,
    /// Call counters less often.
    FewerCalls,
    /// Set these registers, or copy them before the call that unsets them; `Missing` says which.
    Know(Missing),
    /// Use a pointer.
    UsePointer,
    /// Use that register on the other side of its test.
    OtherSide(u8),
    /// Test that register for null.
    Test(u8),
    /// Use that register before its ways meet: an answer to which a number was added can't be tested.
    UseBefore(u8),
    /// Look an entry up.
    LookUp,
    /// Write elsewhere than to the context.
    WriteElsewhere,
    /// Load within the context.
    ReadContext(Reach),
    /// Stay on the stack.
    StayOnStack,
    /// Write these bytes of the stack first.
    WriteFirst,
    /// Stay in the value.
    StayInValue(AccessRange),
    /// Store a pointer whole.
    StoreWhole,
    /// Compare that register, a look-up's answer, with 0.
    Compare(u8),
    /// Compare no pointer.
    LeaveComparison,
    /// Copy a whole pointer.
    CopyWhole { to: u8, from: u8 },
    /// Add nothing to the reference of a map.
    AddNothing,
    /// Add a number to a pointer, and no other pointer.
    AddNumber,
    /// Calculate with numbers.
    Calculate,
    /// Count maps from 0.
    CountMaps,
    /// Name a map by a lower number: a program has at most as many maps as `MAPS` says.
    FewMaps,
    /// Say the maps of a text, this many.
    StateMaps(usize),
    /// Make an image with its maps, this many.
    MakeWithMaps(usize),
    /// Say a map, and give it to the helper.
    GiveFirstMap,
    /// Give the helper a value of this many bytes.
    GiveValue(u16),
    /// Give a helper that argument.
    Give(Argument),
    /// Make register 0 a number at the exit. It is of this kind now; `Number` is for one that is a number on some ways only.
    Answer(ValueKind),
    /// Read how the verifier works.
    Read,
}

/// The registers of which nothing is known, by why.
#[derive(Clone, Copy)]
pub struct Missing {
    /// The registers that a call leaves unset on some way, if something is known of the register before the call.
    pub known_before_call: Registers,
    /// The registers that a call leaves unset on some way, if nothing is known of the register before the call.
    pub unknown_before_call: Registers,
    /// The registers that no instruction sets on some way from the start.
    pub unset: Registers,
    /// The registers that hold words of different kinds after ways meet.
    pub mixed: Registers,
}

/// Chooses what helps against a fault of the control graph of a program of `count` slots.
pub(crate) fn graph_advice(fault: GraphFault, count: usize) -> Advice {
    match fault {
        GraphFault::JumpsBack(_) => Advice::JumpForward,
        GraphFault::JumpsOut(to) if usize::try_from(to) == Ok(count) => Advice::PutThere,
        GraphFault::JumpsOut(_) | GraphFault::JumpsInside(_) => Advice::CountSlots,
        GraphFault::RunsOut => Advice::End,
        GraphFault::Unreached => Advice::TakeOut,
        GraphFault::Helper(_) => Advice::CallAnother,
        GraphFault::Frame => Advice::CopyFrame,
        GraphFault::Calls => Advice::FewerCalls,
    }
}

/// Chooses what helps if something is not shown of the states.
pub(crate) fn state_advice(
    policy: &PolicySource,
    insn: Insn,
    finding: Finding,
    trail: &Trail,
) -> Advice {
    match finding {
        Finding::State { need, known } => need_advice(policy, insn, need, &known, trail),
        Finding::Graph(_) | Finding::Unknown => Advice::Read,
    }
}

/// Chooses what helps if a need is not shown in that state; `trail` says where the registers come from that the need asks for.
fn need_advice(
    policy: &PolicySource,
    insn: Insn,
    need: Need,
    state: &AbstractState,
    trail: &Trail,
) -> Advice {
    match need {
        Need::Unknown(registers) => unknown_advice(&registers, trail),
        Need::Address(access) => unknown_advice(&only(access.register), trail),
        Need::Access {
            access,
            pointer,
            lack,
        } => access_advice(policy, access, pointer, lack, trail),
        Need::Number(pointer) => pointer_advice(insn, pointer, state),
        Need::Map(index) => map_advice(policy, index),
        Need::Argument { argument, .. } => argument_advice(policy, state, argument, trail),
        Need::Answer(Some(answer)) => answer_advice(answer),
        Need::Answer(None) if trail.unset[0] => unknown_advice(&only(0), trail),
        Need::Answer(None) => Advice::Answer(ValueKind::Number),
        Need::Unshown => Advice::Read,
    }
}

/// Chooses what helps if the answer is a pointer. The answer of a look-up that was moved before its test can't be followed.
fn answer_advice(answer: AbstractValue) -> Advice {
    match answer.kind {
        ValueKind::EntryOrNull(_) if !is_answer_itself(answer) => Advice::Answer(ValueKind::Number),
        kind => Advice::Answer(kind),
    }
}

/// Returns the set of that register alone.
pub(crate) fn only(register: u8) -> Registers
    ensures { (r : ℕ) → slice_index_or result r false ≡ true → (register == r) ≡ true }
{
    let mut registers = [false; REGISTERS];
    if register < REGISTERS as u8 {
        registers[usize::from(register)] = true;
    }
    registers
}

/// Chooses what helps if nothing is known of these registers: of each, whether a call left it unset, no instruction sets it on some
/// way, or it holds words of two kinds.
fn unknown_advice(registers: &Registers, trail: &Trail) -> Advice
    ensures { (missing : MissingValue) × (result ≡ Know missing) }
{
    let mut missing = Missing {
        known_before_call: [false; REGISTERS],
        unknown_before_call: [false; REGISTERS],
        unset: [false; REGISTERS],
        mixed: [false; REGISTERS],
    };
    for at in 0..REGISTERS {
        let is_asked = registers[at];
        let is_clobbered = trail.clobbered.all[at];
        let is_known_before = trail.clobbered.known_before[at];
        let is_unset = trail.unset[at];
        missing.known_before_call[at] = is_asked && is_clobbered && is_known_before;
        missing.unknown_before_call[at] = is_asked && is_clobbered && !is_known_before;
        missing.unset[at] = is_asked && is_unset && !is_clobbered;
        missing.mixed[at] = is_asked && !is_unset && !is_clobbered;
    }
    Advice::Know(missing)
}

/// Chooses what helps if a map does not exist.
fn map_advice(policy: &PolicySource, index: i32) -> Advice {
    match usize::try_from(index) {
        Err(_) => Advice::CountMaps,
        Ok(number) if number >= MAPS => Advice::FewMaps,
        Ok(number) if policy.lines.is_empty() => Advice::MakeWithMaps(number.saturating_add(1)),
        Ok(number) => Advice::StateMaps(number.saturating_add(1)),
    }
}

/// Chooses what helps if an argument of a helper is not what the helper wants; a register of two kinds is reported as such.
fn argument_advice(
    policy: &PolicySource,
    state: &AbstractState,
    argument: Argument,
    trail: &Trail,
) -> Advice
    ensures { AdvisesOn argument result }
{
    let register = argument.register();
    let at = usize::from(register);
    let is_mixed = at < REGISTERS && !trail.clobbered.all[at] && !trail.unset[at];
    if known(state, register).is_none() && is_mixed {
        return unknown_advice(&only(register), trail);
    }
    match argument {
        Argument::Map if policy.form.shapes.is_empty() => Advice::GiveFirstMap,
        Argument::Value => value_advice(policy, state),
        _ => Advice::Give(argument),
    }
}

/// Chooses what helps if the value of an update is not shown to be good: as many bytes as a value of the map in r1 has.
fn value_advice(policy: &PolicySource, state: &AbstractState) -> Advice
    ensures { AdvisesOn Argument.Value result }
{
    let Some(named) = known(state, 1) else {
        return Advice::Give(Argument::Value);
    };
    let ValueKind::Map(map) = named.kind else {
        return Advice::Give(Argument::Value);
    };
    match policy.form.shapes.as_slice().get(usize::from(map)) {
        Some(shape) => Advice::GiveValue(shape.value_size),
        None => Advice::Give(Argument::Value),
    }
}

/// Chooses what helps if the instruction works on a pointer.
fn pointer_advice(insn: Insn, pointer: Pointer, state: &AbstractState) -> Advice
    ensures { NamesRegister pointer.register result }
{
    match insn {
        Insn::StoreReg { .. } => Advice::StoreWhole,
        Insn::Branch { .. } => comparison_advice(pointer),
        Insn::MovSx { dst, src, .. } => Advice::CopyWhole { to: dst, from: src },
        Insn::Alu {
            op: Operation::Mov,
            dst,
            src: Source::Reg(src),
            ..
        } => Advice::CopyWhole { to: dst, from: src },
        _ => arithmetic_advice(insn, pointer, state),
    }
}

/// Chooses what helps if the instruction compares a pointer. A policy may compare only the answer of a look-up, unmoved, with 0.
fn comparison_advice(pointer: Pointer) -> Advice
    ensures { NamesRegister pointer.register result }
{
    match pointer.known.kind {
        ValueKind::EntryOrNull(_) => {
            if is_answer_itself(pointer.known) {
                Advice::Compare(pointer.register)
            } else {
                Advice::UseBefore(pointer.register)
            }
        }
        _ => Advice::LeaveComparison,
    }
}

/// Chooses what helps if the instruction calculates with a pointer.
fn arithmetic_advice(insn: Insn, pointer: Pointer, state: &AbstractState) -> Advice
    ensures { NamesRegister pointer.register result }
{
    if adds_pointers(insn, state) {
        return Advice::AddNumber;
    }
    match pointer.known.kind {
        ValueKind::EntryOrNull(_) if moves(insn, pointer.register) => {
            test_advice(pointer.register, pointer.known)
        }
        ValueKind::Map(_) => Advice::AddNothing,
        _ => Advice::Calculate,
    }
}

/// Whether the instruction adds one pointer to another or subtracts it, in 64 bits.
fn adds_pointers(insn: Insn, state: &AbstractState) -> bool {
    match insn {
        Insn::Alu {
            width: Width::W64,
            op: Operation::Add | Operation::Sub,
            dst,
            src: Source::Reg(src),
        } => is_pointer(known(state, dst)) && is_pointer(known(state, src)),
        _ => false,
    }
}

/// Whether the word is known to be no number.
fn is_pointer(known: Option<AbstractValue>) -> bool {
    match known {
        Some(word) => !matches!(word.kind, ValueKind::Number),
        None => false,
    }
}
