//! What is known of registers and stack at a slot, as lines of text.
ghost use Rattle.std.specs.Prelude.{◌≡◌, ◌<◌, ◌≤◌, true, false, slice_index_or, IfOk, string_bytes};
ghost use Rattle.bq_bpf.specs.Memory.{Setting, State, stack_size};
ghost use Rattle.bq_states.specs.AbstractStates.{Contains};
ghost use Rattle.bq_explain.specs.DescribedStates.{DescribesState};
ghost use Rattle.bq_needs.specs.Accesses.{AreBytesSet};
ghost use Rattle.bq_explain.specs.Texts.{AreByteRuns, EndsAt, IsStackText, IsStateText, kept_below, kept_text, known_register_text, registers_below, byte_run_text, unknown_below, unknown_name, unknown_registers_text};

use bq_bpf::MapShape;
use bq_bpf::addresses::STACK_SIZE;
use bq_insn::REGISTERS;
use bq_needs::known_text;
use bq_states::abstract_state::{AbstractState, AbstractValue};
use std::alloc::{AllocError, Global};

/// The bytes of the stack.
const STACK: usize = STACK_SIZE as usize;

/// Writes one line with what each register is known to be and with the stack's written bytes, and a line for each word that is kept
/// on the stack. The lines hold of every state of a program of such maps that the abstract state contains.
#[tactic(auto, using(crate::proofs::StateTextLemmas::describes_state))]
pub(crate) fn state_text(
    alloc: Global,
    shapes: &[MapShape],
    state: &AbstractState,
) -> Result<String, AllocError>
    ensures text { IfOk result (λ text. IsStateText shapes.now state.now (string_bytes text)) }
    ensures describes { IfOk result (λ text. (f : Setting) (s : State) → f.shapes ≡ shapes.now → Contains f state.now s → DescribesState f s (string_bytes text)) }
{
    let text = lines_of(alloc, shapes, state)?;
    Ok(text)
}

/// Writes the lines of `state_text`.
#[tactic(auto, using(crate::proofs::StateTextLemmas::is_state_text))]
fn lines_of(alloc: Global, shapes: &[MapShape], state: &AbstractState) -> Result<String, AllocError>
    ensures { IfOk result (λ text. IsStateText shapes.now state.now (string_bytes text)) }
{
    let registers = registers_text(alloc, shapes, state)?;
    let unknown = unknown_text(alloc, state)?;
    let stack = stack_line(alloc, state)?;
    let kept = kept_lines(alloc, shapes, state)?;
    format!(in alloc; " {registers}{unknown}{stack}{kept}")
}

/// Writes each register of which something is known, and what.
fn registers_text(
    alloc: Global,
    shapes: &[MapShape],
    state: &AbstractState,
) -> Result<String, AllocError>
    ensures { IfOk result (λ text. string_bytes text ≡ registers_below shapes.now REGISTERS state.now.registers) }
{
    let mut text = String::new(alloc);
    for number in 0..REGISTERS {
        let described = register_text(alloc, shapes, number, &state.registers[number])?;
        text.push_str(described.as_str())?;
    }
    Ok(text)
}

/// Writes a register and what is known of it; empty if nothing is.
fn register_text(
    alloc: Global,
    shapes: &[MapShape],
    number: usize,
    known: &Option<AbstractValue>,
) -> Result<String, AllocError>
    ensures { IfOk result (λ text. string_bytes text ≡ known_register_text shapes.now number known.now) }
{
    match known {
        None => Ok(String::new(alloc)),
        Some(known) => {
            let described = known_text(alloc, shapes, known)?;
            format!(in alloc; " r{number} {described}  ")
        }
    }
}

/// Says that the registers of which nothing is known are unknown; empty if each is known.
#[tactic(auto, using(crate::proofs::UnknownLemmas::none_unknown, crate::proofs::UnknownLemmas::some_unknown))]
fn unknown_text(alloc: Global, state: &AbstractState) -> Result<String, AllocError>
    ensures { IfOk result (λ text. string_bytes text ≡ unknown_registers_text state.now.registers) }
{
    let names = unknown_names(alloc, state)?;
    if names.is_empty() {
        return Ok(names);
    }
    format!(in alloc; "{names} unknown  ")
}

/// Writes the names of the registers of which nothing is known.
fn unknown_names(alloc: Global, state: &AbstractState) -> Result<String, AllocError>
    ensures { IfOk result (λ text. string_bytes text ≡ unknown_below REGISTERS state.now.registers) }
{
    let mut text = String::new(alloc);
    for number in 0..REGISTERS {
        let name = unknown_name(alloc, number, &state.registers[number])?;
        text.push_str(name.as_str())?;
    }
    Ok(text)
}

/// Writes the name of a register of which nothing is known; empty if something is.
fn unknown_name(
    alloc: Global,
    number: usize,
    known: &Option<AbstractValue>,
) -> Result<String, AllocError>
    ensures { IfOk result (λ text. string_bytes text ≡ unknown_name number known.now) }
{
    match known {
        None => format!(in alloc; " r{number}"),
        Some(_) => Ok(String::new(alloc)),
    }
}

/// Writes which bytes of the stack are set.
#[tactic(auto, using(crate::proofs::RunLemmas::none_written, crate::proofs::RunLemmas::some_written))]
fn stack_line(alloc: Global, state: &AbstractState) -> Result<String, AllocError>
    ensures { IfOk result (λ text. IsStackText state.now.set (string_bytes text)) }
{
    let runs = runs_text(alloc, state)?;
    if runs.is_empty() {
        return String::from_str(alloc, " stack: nothing known to be written\n");
    }
    format!(in alloc; " stack:{runs} written\n")
}

/// Writes each run of bytes that are set, by their distance from the stack's end.
#[tactic(auto, using(crate::proofs::RunLemmas::none_yet, crate::proofs::RunLemmas::all_described, crate::proofs::RunLemmas::byte_in_last_run, crate::proofs::RunLemmas::byte_not_set, crate::proofs::RunLemmas::with_run))]
fn runs_text(alloc: Global, state: &AbstractState) -> Result<String, AllocError>
    ensures { IfOk result (λ text. AreByteRuns state.now.set stack_size (string_bytes text)) }
{
    let mut text = String::new(alloc);
    let mut past = 0;
    for byte in 0..STACK {
        if byte < past {
            continue;
        }
        if !state.set[byte] {
            continue;
        }
        past = run_end(&state.set, byte);
        let run = run_text(alloc, byte, past)?;
        text.push_str(run.as_str())?;
    }
    Ok(text)
}

/// Finds the byte past the run of set bytes that begins at `first`.
fn run_end(set: &[bool; STACK], first: usize) -> usize
    requires inside { first < stack_size }
    requires begun { slice_index_or set.now first false ≡ true }
    ensures some { first < result }
    ensures most { result ≤ stack_size }
    ensures all { AreBytesSet set.now first result }
    ensures ends { EndsAt set.now result }
{
    for byte in first + 1..STACK {
        if !set[byte] {
            return byte;
        }
    }
    STACK
}

/// Writes a run of bytes of the stack, from `first` up to the byte before `past`.
fn run_text(alloc: Global, first: usize, past: usize) -> Result<String, AllocError>
    requires some { first < past }
    requires inside { past ≤ stack_size }
    ensures { IfOk result (λ text. string_bytes text ≡ byte_run_text first past) }
{
    let far = STACK - first;
    let near = STACK + 1 - past;
    if far == near {
        return format!(in alloc; " -{far}");
    }
    format!(in alloc; " -{far}..-{near}")
}

/// Writes a line for each word that is kept whole on the stack.
fn kept_lines(
    alloc: Global,
    shapes: &[MapShape],
    state: &AbstractState,
) -> Result<String, AllocError>
    ensures { IfOk result (λ text. string_bytes text ≡ kept_below shapes.now 64 state.now.kept) }
{
    let mut text = String::new(alloc);
    for slot in 0..64usize {
        let described = kept_line(alloc, shapes, slot, &state.kept[slot])?;
        text.push_str(described.as_str())?;
    }
    Ok(text)
}

/// Writes the line of the word that is kept in a slot of the stack; empty if none is known.
fn kept_line(
    alloc: Global,
    shapes: &[MapShape],
    slot: usize,
    known: &Option<AbstractValue>,
) -> Result<String, AllocError>
    requires { slot < 64 }
    ensures { IfOk result (λ text. string_bytes text ≡ kept_text shapes.now slot known.now) }
{
    match known {
        None => Ok(String::new(alloc)),
        Some(known) => {
            let described = known_text(alloc, shapes, known)?;
            let below = STACK - slot * 8;
            format!(in alloc; "  the 8 bytes at stack end - {below}: {described}\n")
        }
    }
}
