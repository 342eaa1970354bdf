//! Advice for an access that is not shown to be within what its pointer points to.
ghost use Rattle.bq_explain.specs.Advising.{NamesRegister};

use crate::advice::Advice;
use crate::trail::Trail;
use bq_bpf::shape::GREATEST_SIZE;
use bq_hooks::{Hook, Version, context_length};
use bq_needs::{Lack, MemoryAccess};
use bq_policy_file::PolicySource;
use bq_states::abstract_state::{AbstractValue, ValueKind};

/// Two facts about a load beyond the context, by which the advice is chosen.
#[derive(Clone, Copy)]
pub struct Reach {
    /// Whether the access may have one of several addresses.
    pub is_range: bool,
    /// Whether the longer context of format 2 has all bytes of the load.
    pub is_in_second: bool,
}

/// The places of a map's value at which an access may begin.
#[derive(Clone, Copy)]
pub struct AccessRange {
    /// Whether the access may have one of several addresses.
    pub is_range: bool,
    /// The last byte of the value at which the access may begin.
    pub last: usize,
    /// Whether the greatest value that a map may have has all bytes of the access.
    pub is_in_greatest: bool,
}

/// Chooses what helps an access that lacks this.
pub(crate) fn access_advice(
    policy: &PolicySource,
    access: MemoryAccess,
    pointer: AbstractValue,
    lack: Lack,
    trail: &Trail,
) -> Advice
    ensures { NamesRegister access.register result }
{
    match lack {
        Lack::Number => number_advice(access.register, pointer, trail),
        Lack::Answer | Lack::MovedAnswer => test_advice(access.register, pointer),
        Lack::Reference => Advice::LookUp,
        Lack::WritesContext => Advice::WriteElsewhere,
        Lack::BeyondContext => Advice::ReadContext(Reach {
            is_range: is_range(pointer),
            is_in_second: is_in_second(policy, access, pointer),
        }),
        Lack::BeyondStack => Advice::StayOnStack,
        Lack::ReadsUnset => Advice::WriteFirst,
        Lack::BeyondValue(_, size) => Advice::StayInValue(room_of(access, pointer, size)),
        Lack::InNoMap => Advice::Read,
    }
}

/// Chooses what helps if the pointer is a number. If the number is 0 and was the answer of a look-up, the access is on the wrong
/// side of the test.
fn number_advice(register: u8, pointer: AbstractValue, trail: &Trail) -> Advice
    ensures { NamesRegister register result }
{
    if pointer.offset.hi > 0 {
        return Advice::UsePointer;
    }
    for maker in trail.makers.as_slice() {
        if maker.register == register && is_answer(maker.known) {
            return Advice::OtherSide(register);
        }
    }
    Advice::UsePointer
}

/// Whether the word is known to be the answer of a look-up.
fn is_answer(known: Option<AbstractValue>) -> bool {
    match known {
        Some(word) => matches!(word.kind, ValueKind::EntryOrNull(_)),
        None => false,
    }
}

/// Chooses what helps if the register is the answer of a look-up: a test, unless a number was added to the answer.
pub(crate) fn test_advice(register: u8, answer: AbstractValue) -> Advice
    ensures { NamesRegister register result }
{
    if is_answer_itself(answer) {
        Advice::Test(register)
    } else {
        Advice::UseBefore(register)
    }
}

/// Whether nothing was added to the answer of a look-up, so that it may be tested.
pub(crate) fn is_answer_itself(answer: AbstractValue) -> bool {
    answer.offset.hi == 0
}

/// Whether the pointer may be one of several.
fn is_range(pointer: AbstractValue) -> bool {
    pointer.offset.lo != pointer.offset.hi
}

/// Whether format 2 helps: all bytes of the load are in the context of its place policies, with each address that the
/// pointer may have.
fn is_in_second(policy: &PolicySource, access: MemoryAccess, pointer: AbstractValue) -> bool {
    match (policy.form.hook, policy.form.version) {
        (Hook::Place, Version::First) => {
            let longer = context_length(Hook::Place, Version::Second);
            is_within(access, pointer, longer as u64)
        }
        _ => false,
    }
}

/// Whether all bytes of the access are below the bound, with each address that the pointer may have.
fn is_within(access: MemoryAccess, pointer: AbstractValue, bound: u64) -> bool {
    let further = i64::from(access.off).cast_unsigned();
    let lo = pointer.offset.lo.wrapping_add(further);
    let hi = pointer.offset.hi.wrapping_add(further);
    let past = hi.saturating_add(access.bytes as u64);
    lo <= hi && past <= bound
}

/// Finds where in a value of this many bytes an access may begin.
fn room_of(access: MemoryAccess, pointer: AbstractValue, size: u16) -> AccessRange {
    AccessRange {
        is_range: is_range(pointer),
        last: usize::from(size).saturating_sub(access.bytes),
        is_in_greatest: is_within(access, pointer, u64::from(GREATEST_SIZE)),
    }
}
