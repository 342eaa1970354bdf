//! A need in words.
ghost use Rattle.std.specs.Prelude.{◌≡◌, IfOk, string_bytes};
ghost use Rattle.bq_needs.specs.Accesses.{noun, verb};
ghost use Rattle.bq_needs.specs.Operands.{known_in};
ghost use Rattle.bq_needs.specs.Words.{DescribesAccess, DescribesNeed, address_text, answer_text, argument_text, here_text, kind_rule, map_text, map_numbers_text, moves, register_name_text, names_below, other_rule, pointer_rule, pointer_text, unknown_reads_text};

use crate::accesses::{begin_text, lack_text, may_be_null, register_text};
use crate::arguments::{Argument, wanted_text};
use crate::known::known_text;
use crate::memory_access::{MemoryAccess, Registers};
use crate::needs::{Need, Pointer};
use bq_bpf::MapShape;
use bq_insn::{Insn, Operation, REGISTERS, Width};
use bq_policy_file::PolicySource;
use bq_states::abstract_state::{AbstractState, AbstractValue, ValueKind};
use bq_states::registers::known;
use std::alloc::{AllocError, Global};

/// Writes the need of the instruction in words.
pub fn need_text(
    alloc: Global,
    policy: &PolicySource,
    state: &AbstractState,
    insn: Insn,
    need: Need,
) -> Result<String, AllocError>
    ensures { IfOk result (λ text. DescribesNeed policy.now state.now insn need (string_bytes text)) }
{
    let shapes = policy.form.shapes.as_slice();
    match need {
        Need::Unknown(registers) => unknown_text(alloc, &registers),
        Need::Address(access) => address_text(alloc, access),
        Need::Access {
            access,
            pointer,
            lack,
        } => {
            let described = access_text(alloc, shapes, access, pointer)?;
            let why = lack_text(alloc, policy, lack)?;
            format!(in alloc; "{described}; {why}")
        }
        Need::Number(pointer) => pointer_text(alloc, shapes, pointer, insn),
        Need::Map(index) => map_text(alloc, index, policy.form.shapes.len()),
        Need::Argument { helper, argument } => argument_text(
            alloc, shapes, state, helper, argument,
        ),
        Need::Answer(known) => answer_text(alloc, shapes, known),
        Need::Unshown => String::from_str(alloc, "is not shown to be safe"),
    }
}

/// Names the registers that are read and of which nothing is known.
fn unknown_text(alloc: Global, registers: &Registers) -> Result<String, AllocError>
    ensures { IfOk result (λ text. string_bytes text ≡ unknown_reads_text registers.now) }
{
    let names = names_text(alloc, registers)?;
    format!(in alloc; "reads{names}, of which nothing is known here")
}

/// Writes the names of the registers.
fn names_text(alloc: Global, registers: &Registers) -> Result<String, AllocError>
    ensures { IfOk result (λ text. string_bytes text ≡ names_below REGISTERS registers.now) }
{
    let mut text = String::new(alloc);
    for register in 0..REGISTERS {
        let is_first = text.is_empty();
        let name = name_text(alloc, register, is_first, registers[register])?;
        text.push_str(name.as_str())?;
    }
    Ok(text)
}

/// Writes the name of a register, if it is named; `and` comes before it, unless it is the first.
fn name_text(
    alloc: Global,
    register: usize,
    is_first: bool,
    is_named: bool,
) -> Result<String, AllocError>
    ensures { IfOk result (λ text. string_bytes text ≡ register_name_text register is_first is_named) }
{
    match (is_named, is_first) {
        (true, true) => format!(in alloc; " r{register}"),
        (true, false) => format!(in alloc; " and r{register}"),
        (false, _) => Ok(String::new(alloc)),
    }
}

/// Writes an access by a register of which nothing is known.
fn address_text(alloc: Global, access: MemoryAccess) -> Result<String, AllocError>
    ensures { IfOk result (λ text. string_bytes text ≡ address_text access) }
{
    let verb = verb_of(access.writes);
    let bytes = access.bytes;
    let noun = noun_of(bytes);
    let register = access.register;
    format!(in alloc; "{verb} {bytes} {noun} at r{register}, of which nothing is known here")
}

/// Says how many bytes an access reads or writes, and where they begin.
fn access_text(
    alloc: Global,
    shapes: &[MapShape],
    access: MemoryAccess,
    pointer: AbstractValue,
) -> Result<String, AllocError>
    ensures { IfOk result (λ text. DescribesAccess shapes.now access pointer (string_bytes text)) }
{
    let verb = verb_of(access.writes);
    let bytes = access.bytes;
    let noun = noun_of(bytes);
    let begin = begin_text(alloc, shapes, access, pointer)?;
    format!(in alloc; "{verb} {bytes} {noun} at {begin}")
}

/// Chooses the verb of an access: `writes` or `reads`.
fn verb_of(writes: bool) -> &'static str
    ensures { result.now ≡ verb writes }
{
    if writes { "writes" } else { "reads" }
}

/// Chooses the noun after a number of bytes: `byte` after 1, else `bytes`.
fn noun_of(bytes: usize) -> &'static str
    ensures { result.now ≡ noun bytes }
{
    if bytes == 1 { "byte" } else { "bytes" }
}

/// Writes a pointer that is worked on, and what may be done with it.
fn pointer_text(
    alloc: Global,
    shapes: &[MapShape],
    pointer: Pointer,
    insn: Insn,
) -> Result<String, AllocError>
    ensures { IfOk result (λ text. string_bytes text ≡ pointer_text shapes.now pointer insn) }
{
    let described = register_text(alloc, shapes, pointer.register, pointer.known)?;
    let rule = pointer_rule(insn, pointer);
    format!(in alloc; "works on {described}; {rule}")
}

/// Says what may be done with a pointer, if the instruction does something else with it.
fn pointer_rule(insn: Insn, pointer: Pointer) -> &'static str
    ensures { result.now ≡ pointer_rule insn pointer }
{
    match insn {
        Insn::StoreReg { .. } => {
            "a pointer is stored whole by stxdw, on the stack, at a multiple of 8 below r10"
        }
        Insn::Branch { .. } => {
            "of pointers only the answer of a look-up is compared, by jeq64 or jne64 with the number 0"
        }
        _ => other_rule(insn, pointer),
    }
}

/// Says what may be done with a pointer, if the instruction neither stores nor compares it: the answer of a look-up may be moved
/// after its test.
fn other_rule(insn: Insn, pointer: Pointer) -> &'static str
    ensures { result.now ≡ other_rule insn pointer }
{
    let is_first = pointer.known.offset.hi == 0 && moves(insn, pointer.register);
    if may_be_null(pointer.known.kind) && is_first {
        "test it first"
    } else {
        kind_rule(pointer.known.kind)
    }
}

/// Whether the instruction adds to the register, takes from it, or adds it to a number, in 64 bits: then it moves a pointer.
pub fn moves(insn: Insn, register: u8) -> bool
    ensures { result ≡ moves insn register }
{
    match insn {
        Insn::Alu {
            width: Width::W64,
            op: Operation::Add,
            ..
        } => true,
        Insn::Alu {
            width: Width::W64,
            op: Operation::Sub,
            dst,
            ..
        } => dst == register,
        _ => false,
    }
}

/// Says what may be done with a pointer of the kind.
fn kind_rule(kind: ValueKind) -> &'static str
    ensures { result.now ≡ kind_rule kind }
{
    match kind {
        ValueKind::Map(_) => {
            "the reference of a map may be copied by mov64, and nothing may be added to it or taken from it"
        }
        ValueKind::EntryOrNull(_) => {
            "the answer of a look-up may be copied by mov64; before its test no number may be added to it"
        }
        _ =>
            "a pointer may be copied by mov64; a number may be added to it by add64, or taken from it by sub64",
    }
}

/// Writes a number that is no map's, and which numbers maps have.
fn map_text(alloc: Global, index: i32, count: usize) -> Result<String, AllocError>
    ensures { IfOk result (λ text. string_bytes text ≡ map_text index count) }
{
    let maps = maps_text(alloc, count)?;
    format!(in alloc; "names map {index}; the program has {maps}")
}

/// Says how many maps a program has, and their numbers.
fn maps_text(alloc: Global, count: usize) -> Result<String, AllocError>
    ensures { IfOk result (λ text. string_bytes text ≡ map_numbers_text count) }
{
    if count == 0 {
        return String::from_str(alloc, "no maps");
    }
    if count == 1 {
        return String::from_str(alloc, "1 map, number 0");
    }
    let last = count - 1;
    format!(in alloc; "{count} maps, numbers 0 to {last}")
}

/// Says what a helper needs an argument to be, and what is known of it.
fn argument_text(
    alloc: Global,
    shapes: &[MapShape],
    state: &AbstractState,
    helper: i32,
    argument: Argument,
) -> Result<String, AllocError>
    ensures { IfOk result (λ text. string_bytes text ≡ argument_text shapes.now state.now helper argument) }
{
    let wanted = wanted_text(argument);
    let here = here_text(alloc, shapes, state, argument.register())?;
    format!(in alloc; "calls helper {helper}, which wants {wanted}; here {here}")
}

/// Says what is known of the register.
fn here_text(
    alloc: Global,
    shapes: &[MapShape],
    state: &AbstractState,
    register: u8,
) -> Result<String, AllocError>
    ensures { IfOk result (λ text. string_bytes text ≡ here_text shapes.now register (known_in state.now register)) }
{
    match known(state, register) {
        Some(word) => {
            let described = known_text(alloc, shapes, &word)?;
            format!(in alloc; "r{register} is {described}")
        }
        None => format!(in alloc; "nothing is known of r{register}"),
    }
}

/// Says what is known of the answer, which is not shown to be a number.
fn answer_text(
    alloc: Global,
    shapes: &[MapShape],
    known: Option<AbstractValue>,
) -> Result<String, AllocError>
    ensures { IfOk result (λ text. string_bytes text ≡ answer_text shapes.now known) }
{
    match known {
        Some(word) => {
            let described = known_text(alloc, shapes, &word)?;
            format!(in alloc; "ends, and r0, the answer, is {described}; an answer is a number")
        }
        None => String::from_str(alloc, "ends, and nothing is known of r0, the answer"),
    }
}
