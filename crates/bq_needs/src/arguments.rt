//! What helpers need their arguments to be, and which argument of a call is not shown to be that.
ghost use Rattle.std.specs.Prelude.{◌≡◌, ◌↔◌, ◌≤◌, ℕ, IsTrue, MatchBool, MatchOption};
ghost use Rattle.bq_states.specs.Certainty.{Exact, Pointer, Scalar, CertaintyHoldsAt};
ghost use Rattle.bq_needs.specs.Arguments.{GivesHelper, IsBad, IsCounter, IsArgumentShown, PointsTo, PointsToValue, Wants, argument_register, wanted_text};
ghost use Rattle.bq_needs.specs.Operands.{known_in};

use crate::accesses::lack_of;
use crate::memory_access::MemoryAccess;
use bq_bpf::board::COUNTERS;
use bq_bpf::helper::{ADD_COUNTER, LOOKUP, UPDATE};
use bq_bpf::instruction::is_counter_call;
use bq_bpf::with_counters;
use bq_insn::Insn;
use bq_policy_file::PolicySource;
use bq_states::abstract_state::{AbstractState, ValueKind};
use bq_states::places::shape_of;
use bq_states::registers::known;

/// What a helper needs one of its arguments to be.
#[derive(Clone, Copy)]
pub enum Argument {
    /// Register 1 is the reference of a map.
    Map,
    /// Register 2 points to four written bytes, an entry's number.
    Entry,
    /// Register 3 points to as many written bytes as a value of the map has.
    Value,
    /// Register 4 is 0.
    Zero,
    /// Register 1 is the number of a counter.
    Counter,
    /// Register 2 is a number.
    Amount,
}

impl Argument {
    ghost use Rattle.bq_needs.specs.Arguments.{argument_register};

    /// Returns its register.
    pub fn register(self) -> u8
        ensures { result ≡ argument_register self }
    {
        match self {
            Argument::Map | Argument::Counter => 1,
            Argument::Entry | Argument::Amount => 2,
            Argument::Value => 3,
            Argument::Zero => 4,
        }
    }
}

/// Finds the first argument of the helper that is not shown to be what it wants.
#[tactic(auto, using(crate::proofs::ArgumentLemmas::all_given))]
pub(crate) fn bad_argument(
    policy: &PolicySource,
    state: &AbstractState,
    helper: i32,
) -> Option<Argument>
    ensures { MatchOption result (GivesHelper policy.now state.now helper) (IsBad policy.now state.now helper) }
{
    if is_bad(policy, state, helper, Argument::Map) {
        return Some(Argument::Map);
    }
    if is_bad(policy, state, helper, Argument::Entry) {
        return Some(Argument::Entry);
    }
    if is_bad(policy, state, helper, Argument::Value) {
        return Some(Argument::Value);
    }
    if is_bad(policy, state, helper, Argument::Zero) {
        return Some(Argument::Zero);
    }
    if is_bad(policy, state, helper, Argument::Counter) {
        return Some(Argument::Counter);
    }
    if is_bad(policy, state, helper, Argument::Amount) {
        return Some(Argument::Amount);
    }
    None
}

/// Whether the helper wants the argument, and it is not shown.
fn is_bad(policy: &PolicySource, state: &AbstractState, helper: i32, argument: Argument) -> bool
    ensures { MatchBool result (IsBad policy.now state.now helper argument) (Wants helper argument → IsArgumentShown policy.now state.now argument) }
{
    wants(helper, argument) && !is_good(policy, state, argument)
}

/// Whether the helper of that number has that argument.
fn wants(helper: i32, argument: Argument) -> bool
    ensures { IsTrue result ↔ Wants helper argument }
{
    match argument {
        Argument::Map | Argument::Entry => helper == LOOKUP || helper == UPDATE,
        Argument::Value | Argument::Zero => helper == UPDATE,
        Argument::Counter => is_counter_call(Insn::Call { helper }),
        Argument::Amount => helper == ADD_COUNTER,
    }
}

/// Whether the argument is shown to be what the helper wants.
fn is_good(policy: &PolicySource, state: &AbstractState, argument: Argument) -> bool
    ensures { IsTrue result ↔ IsArgumentShown policy.now state.now argument }
{
    match argument {
        Argument::Map => names_map(state),
        Argument::Entry => points_to(policy, state, 2, 4),
        Argument::Value => points_to_value(policy, state),
        Argument::Zero => is_zero(state, 4),
        Argument::Counter => names_counter(state),
        Argument::Amount => is_number(state, 2),
    }
}

/// Says what is wanted.
pub(crate) fn wanted_text(argument: Argument) -> &'static str
    ensures { result.now ≡ wanted_text argument }
{
    match argument {
        Argument::Map => "a map in r1, by ldmap",
        Argument::Entry => "4 written bytes at r2, the entry's number",
        Argument::Value => "as many written bytes at r3 as a value has",
        Argument::Zero => "0 in r4",
        Argument::Counter => with_counters!("a counter's number in r1, ", ""),
        Argument::Amount => "a number in r2, the amount",
    }
}

/// Whether register 1 names a map.
fn names_map(state: &AbstractState) -> bool
    ensures { IsTrue result ↔ ((m : ℕ) × CertaintyHoldsAt (Pointer (ValueKind.Map m) 0) state.now 1) }
{
    match named_map(state) {
        Some(_) => true,
        None => false,
    }
}

/// Finds the map that register 1 names.
fn named_map(state: &AbstractState) -> Option<u8>
    ensures { MatchOption result (¬ ((m : ℕ) × CertaintyHoldsAt (Pointer (ValueKind.Map m) 0) state.now 1)) (λ m. CertaintyHoldsAt (Pointer (ValueKind.Map m) 0) state.now 1) }
{
    let Some(word) = known(state, 1) else {
        return None;
    };
    match word.kind {
        ValueKind::Map(map) => { if word.offset.hi == 0 { Some(map) } else { None } }
        _ => None,
    }
}

/// Whether register 3 points to as many bytes that may be read as a value of that map has.
fn points_to_value(policy: &PolicySource, state: &AbstractState) -> bool
    ensures { IsTrue result ↔ PointsToValue policy.now state.now }
{
    let Some(map) = named_map(state) else {
        return false;
    };
    let Some(shape) = shape_of(policy.form.shapes.as_slice(), map) else {
        return false;
    };
    points_to(policy, state, 3, usize::from(shape.value_size))
}

/// Whether the register points to this many bytes that may be read.
#[tactic(auto, using(crate::proofs::NeedLemmas::lacking_not_pointing))]
fn points_to(policy: &PolicySource, state: &AbstractState, register: u8, bytes: usize) -> bool
    requires { bytes ≤ 256 }
    ensures { IsTrue result ↔ PointsTo policy.now state.now register bytes }
{
    let access = MemoryAccess {
        writes: false,
        bytes,
        register,
        off: 0,
    };
    let Some(pointer) = known(state, register) else {
        return false;
    };
    match lack_of(policy, state, access, pointer) {
        Some(_) => false,
        None => true,
    }
}

/// Whether the register is the number 0.
fn is_zero(state: &AbstractState, register: u8) -> bool
    ensures { IsTrue result ↔ CertaintyHoldsAt (Exact 0) state.now register }
{
    match known(state, register) {
        Some(word) => matches!(word.kind, ValueKind::Number) && word.offset.hi == 0,
        None => false,
    }
}

/// Whether register 1 is the number of a counter.
fn names_counter(state: &AbstractState) -> bool
    ensures { IsTrue result ↔ IsCounter (known_in state.now 1) }
{
    match known(state, 1) {
        Some(word) => matches!(word.kind, ValueKind::Number) && word.offset.hi < COUNTERS as u64,
        None => false,
    }
}

/// Whether the register is a number.
fn is_number(state: &AbstractState, register: u8) -> bool
    ensures { IsTrue result ↔ CertaintyHoldsAt Scalar state.now register }
{
    match known(state, register) {
        Some(word) => matches!(word.kind, ValueKind::Number),
        None => false,
    }
}
