//! What helps, in words.
use crate::access_advice::{AccessRange, Reach};
use crate::advice::{Advice, Missing};
use crate::summary::maps_text;
use bq_bpf::shape::MAPS;
use bq_bpf::{with_counters, with_helper, with_helpers, with_most_calls, with_stack_size};
use bq_hooks::with_longer_context;
use bq_insn::REGISTERS;
use bq_needs::Argument;
use bq_policy_file::PolicySource;
use bq_states::abstract_state::ValueKind;
use std::alloc::{AllocError, Global};

/// Writes the advice on the policy in words.
pub fn advice_text(
    alloc: Global,
    policy: &PolicySource,
    advice: Advice,
) -> Result<String, AllocError> {
    match advice {
        Advice::Know(missing) => missing_text(alloc, &missing),
        Advice::StayInValue(room) => room_text(alloc, room),
        Advice::GiveValue(bytes) => value_text(alloc, bytes),
        Advice::StateMaps(count) => text_maps_text(alloc, policy, count),
        Advice::MakeWithMaps(count) => image_maps_text(alloc, policy, count),
        Advice::FewMaps => few_maps_text(alloc),
        Advice::OtherSide(register) => other_side_text(alloc, register),
        Advice::Test(register) => test_text(alloc, register),
        Advice::UseBefore(register) => use_before_text(alloc, register),
        Advice::Compare(register) => compare_text(alloc, register),
        Advice::CopyWhole { to, from } => copy_text(alloc, to, from),
        Advice::ReadContext(reach) => String::from_str(alloc, reach_text(reach)),
        Advice::Give(argument) => String::from_str(alloc, argument_text(argument)),
        Advice::Answer(kind) => String::from_str(alloc, answer_text(kind)),
        Advice::JumpForward => String::from_str(
            alloc,
            "jump to a later instruction, and write a loop out as often as it may run",
        ),
        Advice::CountSlots => String::from_str(
            alloc,
            "jump to a label, or count again: a wide instruction (lddw, ldmap) has two slots",
        ),
        Advice::PutThere => String::from_str(
            alloc,
            "put an instruction there, as exit: the program ends before it",
        ),
        Advice::End => String::from_str(alloc, "end with exit, or jump to one"),
        Advice::TakeOut => String::from_str(
            alloc,
            "take the instruction out, or let a branch lead to it",
        ),
        Advice::CallAnother => String::from_str(alloc, with_helpers!("call one of these: ")),
        Advice::CopyFrame => String::from_str(alloc, "copy it first: mov64 r2, r10, and change r2"),
        Advice::FewerCalls => String::from_str(
            alloc,
            with_most_calls!(
                "remove the ",
                " call and those after it on a path: each path may have ",
                ", and one call may add what several did"
            ),
        ),
        Advice::UsePointer => String::from_str(
            alloc,
            "use a pointer: at the start r1 points to the context, r10 to the end of the stack",
        ),
        Advice::LookUp => String::from_str(
            alloc,
            with_helper!(
                LOOKUP,
                "look an entry up, by helper ",
                ", test its answer (jeq64 r0, 0, label), and use that"
            ),
        ),
        Advice::WriteElsewhere => String::from_str(
            alloc,
            "write to the stack, at r10 - 8 or below, or to an entry of a map, which keeps its value from run to run",
        ),
        Advice::StayOnStack => String::from_str(
            alloc,
            with_stack_size!(
                "stay on the stack: it is the ",
                " bytes below r10, the last of them at r10 - 1"
            ),
        ),
        Advice::WriteFirst => String::from_str(
            alloc,
            "write each of these bytes first, on each path, by stores at known distances from r10, as stdw [r10-8], 0",
        ),
        Advice::StoreWhole => String::from_str(
            alloc,
            "store it by stxdw at r10 - 8, r10 - 16 or so on",
        ),
        Advice::LeaveComparison => String::from_str(
            alloc,
            "leave the comparison out: numbers are compared, and the answer of a look-up with the number 0",
        ),
        Advice::AddNothing => String::from_str(
            alloc,
            with_helper!(
                LOOKUP,
                "look an entry up, by helper ",
                ", and add to the address of its value, after a test"
            ),
        ),
        Advice::AddNumber => String::from_str(
            alloc,
            "add a number to a pointer, or take one from it: there is no sum or difference of two pointers",
        ),
        Advice::Calculate => String::from_str(
            alloc,
            "do arithmetic on numbers, and add the result to the pointer by add64",
        ),
        Advice::CountMaps => String::from_str(
            alloc,
            "maps are numbered from 0: ldmap r1, 0 names the first, which a line ;@ maps 8:1 says",
        ),
        Advice::GiveFirstMap => String::from_str(
            alloc,
            "give the policy a map (;@ maps 8:1 in the text's head, or --maps 8:1), and write ldmap r1, 0 just before the call",
        ),
        Advice::Read => String::from_str(alloc, "see docs/VERIFIER.md"),
    }
}

/// Says how to give the maps of a text.
fn text_maps_text(
    alloc: Global,
    policy: &PolicySource,
    count: usize,
) -> Result<String, AllocError> {
    let maps = maps_up_to(alloc, policy, count)?;
    format!(in alloc;
        "say the maps: a line ;@ maps {maps} in the text's head, or --maps {maps} if no line says them"
    )
}

/// Says how to make an image with its maps.
fn image_maps_text(
    alloc: Global,
    policy: &PolicySource,
    count: usize,
) -> Result<String, AllocError> {
    let hook = policy.form.hook.word();
    let maps = maps_up_to(alloc, policy, count)?;
    format!(in alloc;
        "an image holds the shapes of its maps: make it from its text again, by bqsim asm --hook {hook} --maps {maps}"
    )
}

/// Says which numbers maps have.
fn few_maps_text(alloc: Global) -> Result<String, AllocError> {
    format!(in alloc; "a program has at most {MAPS} maps, and the number of the first is 0")
}

/// Says where a register that is 0 here is an entry.
fn other_side_text(alloc: Global, register: u8) -> Result<String, AllocError> {
    format!(in alloc;
        "here r{register} is 0: use it on the other side of its test, where it is an entry"
    )
}

/// Says how to test the answer of a look-up.
fn test_text(alloc: Global, register: u8) -> Result<String, AllocError> {
    format!(in alloc; "test it first: jeq64 r{register}, 0, label, and use it on the other side")
}

/// Says where to use an answer that cannot be tested any more.
fn use_before_text(alloc: Global, register: u8) -> Result<String, AllocError> {
    format!(in alloc;
        "use r{register} on the path where it is an entry, before the paths meet: an answer to which a number was added can't be tested"
    )
}

/// Says how to compare the answer of a look-up.
fn compare_text(alloc: Global, register: u8) -> Result<String, AllocError> {
    format!(in alloc;
        "compare it with the number 0, by jeq64 or jne64: jeq64 r{register}, 0, label"
    )
}

/// Says how to copy a whole pointer.
fn copy_text(alloc: Global, to: u8, from: u8) -> Result<String, AllocError> {
    format!(in alloc; "copy the whole pointer: mov64 r{to}, r{from}")
}

/// Says what helps if nothing is known of registers, for one after another.
fn missing_text(alloc: Global, missing: &Missing) -> Result<String, AllocError> {
    let mut text = String::new(alloc);
    for register in 0..REGISTERS {
        let described = lack_text(alloc, missing, register)?;
        if !text.is_empty() && !described.is_empty() {
            text.push_str("; ")?;
        }
        text.push_str(described.as_str())?;
    }
    Ok(text)
}

/// Says what helps if nothing is known of the register; empty if the register is not missing.
fn lack_text(alloc: Global, missing: &Missing, register: usize) -> Result<String, AllocError> {
    if register >= REGISTERS {
        return Ok(String::new(alloc));
    }
    if missing.unknown_before_call[register] {
        return format!(in alloc;
            "set r{register} after the call, on each path that leads here: a call leaves r1 to r5 unset"
        );
    }
    if missing.known_before_call[register] {
        return format!(in alloc;
            "a call leaves r1 to r5 unset: on each path that leads here copy r{register} before the call, as by mov64 r6, r{register}, and read the copy, or set r{register} again"
        );
    }
    if missing.unset[register] {
        return format!(in alloc;
            "set r{register} on each path that leads here, as by mov64 before the first branch"
        );
    }
    if missing.mixed[register] {
        return format!(in alloc;
            "use r{register} on each path before the paths meet, or bring the same kind of word on both: a number, a pointer into the same place, or a map of the same shape"
        );
    }
    Ok(String::new(alloc))
}

/// Lists the maps of the policy as `--maps` takes them, and behind them maps of 8 bytes, until there are `count`.
fn maps_up_to(alloc: Global, policy: &PolicySource, count: usize) -> Result<String, AllocError> {
    let mut text = String::new(alloc);
    if !policy.form.shapes.is_empty() {
        text = maps_text(alloc, policy.form.shapes.as_slice())?;
    }
    for _ in policy.form.shapes.len()..count {
        if !text.is_empty() {
            text.push_str(",")?;
        }
        text.push_str("8:1")?;
    }
    Ok(text)
}

/// Says where an access of a value may begin.
fn room_text(alloc: Global, room: AccessRange) -> Result<String, AllocError> {
    let last = room.last;
    let larger = if room.is_in_greatest {
        ", or take a map of larger values"
    } else {
        ""
    };
    match (room.is_range, last) {
        (false, 0) => format!(in alloc; "let the access begin at byte 0 of the value{larger}"),
        (false, _) => {
            format!(in alloc; "let the access begin at byte 0 to {last} of the value{larger}")
        }
        (true, 0) => format!(in alloc;
            "let the access begin at byte 0 of the value, by a pointer to which nothing is added{larger}"
        ),
        (true, _) => format!(in alloc;
            "a smaller mask or a test (jgt64) before the address is made, so that the access begins at byte 0 to {last} of the value{larger}"
        ),
    }
}

/// Says what helps if a load reaches beyond the context.
fn reach_text(reach: Reach) -> &'static str {
    match (reach.is_range, reach.is_in_second) {
        (true, true) => with_longer_context!(
            "a smaller mask or a test (jgt64) before the address is made, or format 2, whose context has ",
            " bytes; docs/CONTEXTS.md has the fields"
        ),
        (true, false) => {
            "a smaller mask or a test (jgt64) before the address is made; docs/CONTEXTS.md has the fields of each hook"
        }
        (false, true) => with_longer_context!(
            "a field that this context has, or format 2, whose context has ",
            " bytes; docs/CONTEXTS.md has the fields"
        ),
        (false, false) => {
            "a field that this context has; docs/CONTEXTS.md has the fields of each hook"
        }
    }
}

/// Says how to give a value of this many bytes: on the stack, whose last 8 bytes are left for the entry's number.
fn value_text(alloc: Global, bytes: u16) -> Result<String, AllocError> {
    let far = u32::from(bytes) + 8;
    format!(in alloc;
        "write the whole value, {bytes} bytes from r10 - {far} up, 8 by each stdw, and point r3 to its first byte: mov64 r3, r10, add64 r3, -{far}"
    )
}

/// Says how to make an argument what a helper wants.
fn argument_text(argument: Argument) -> &'static str {
    match argument {
        Argument::Map => {
            "ldmap r1, 0 just before the call; each call leaves r1 to r5 unset, so set what it takes before each"
        }
        Argument::Entry => {
            "store the entry's number and point r2 to it: stw [r10-4], 0, mov64 r2, r10, add64 r2, -4"
        }
        Argument::Value => "write a whole value to the stack, and point r3 to its first byte",
        Argument::Zero => "mov64 r4, 0 before the call",
        Argument::Counter => with_counters!(
            "put a counter's number, ",
            ", into r1, as by mov64 r1, 3; mask or test one that was loaded"
        ),
        Argument::Amount => "put a number into r2, as by mov64 r2, 1",
    }
}

/// Says what helps if the answer is a pointer of that kind.
fn answer_text(kind: ValueKind) -> &'static str {
    match kind {
        ValueKind::Map(_) => {
            "set r0 to a number on each path to the exit; the reference of a map is no answer"
        }
        ValueKind::EntryOrNull(_) => {
            "set r0 to a number on each path to the exit; a pointer is no answer, what it points to may be loaded after a test: jeq64 r0, 0, label"
        }
        ValueKind::Number => "set r0 to a number on each path to the exit; a pointer is no answer",
        ValueKind::Context | ValueKind::Stack | ValueKind::Entry(_) => {
            "set r0 to a number on each path to the exit; a pointer is no answer, what it points to may be loaded"
        }
    }
}
