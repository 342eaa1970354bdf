//! The fields of an answer of `check` as JSON.
ghost use Rattle.std.specs.Prelude.{◌≡◌, OnOk};
ghost use Rattle.serde_json.specs.Data.{number, put as with_member, string, unsigned};
ghost use Rattle.serde_json.specs.View.{members_view};
ghost use Rattle.bq_policy_check.specs.Showing.{of_accepted, of_limit, refusal_fields, of_verdict, put_all};

use bq_bpf::MapShape;
use bq_console::NO_TEXT;
use bq_explain::{
    ExplainedRefusal, Finding, ProgramPoint, RegisterMaker, Summary, Verdict, advice_text,
    finding_text,
};
use bq_insn::REGISTERS;
use bq_needs::known_text;
use bq_policy_file::{PolicySource, instruction_text};
use bq_states::abstract_state::{AbstractState, AbstractValue};
use bq_transfer::obligation::Obligation;
use bq_verify::{Cause, GraphCause};
use serde_json::{Map, Value, put};
use std::alloc::{AllocError, Global};
use std::str::Lines;

/// Adds the parts of a verdict.
pub(crate) fn put_verdict(
    fields: &mut Map<String, Value>,
    alloc: Global,
    policy: &PolicySource,
    verdict: Verdict,
) -> Result<(), AllocError>
    ensures { OnOk result (members_view fields.new.entries ≡ put_all (of_verdict policy.now verdict) (members_view fields.old.entries)) }
{
    match verdict {
        Verdict::Accepted { budget } => put_accepted(fields, alloc, policy, budget),
        Verdict::OverSteps { budget, most } => {
            put_limit(fields, alloc, "steps")?;
            put_number(fields, alloc, "budget", u64::from(budget))?;
            put_number(fields, alloc, "limit", u64::from(most))
        }
        Verdict::Forbidden { helper } => {
            put_limit(fields, alloc, "helper")?;
            put(fields, alloc, "helper", Value::from(i64::from(helper)))
        }
        Verdict::OtherHook => put_limit(fields, alloc, "hook"),
        Verdict::Beyond(over) => {
            put_limit(fields, alloc, over.measure.word())?;
            put_number(fields, alloc, "used", over.used)?;
            put_number(fields, alloc, "limit", u64::from(over.most))
        }
        Verdict::Refused { slot, cause } => put_refusal(fields, alloc, slot, cause),
    }
}

/// Adds the hook, the version and the budget of a policy that is accepted.
fn put_accepted(
    fields: &mut Map<String, Value>,
    alloc: Global,
    policy: &PolicySource,
    budget: u32,
) -> Result<(), AllocError>
    ensures { OnOk result (members_view fields.new.entries ≡ put_all (of_accepted policy.now budget) (members_view fields.old.entries)) }
{
    put_text(fields, alloc, "hook", policy.form.hook.word())?;
    let version = policy.form.version.number();
    put_number(fields, alloc, "version", u64::from(version))?;
    put_number(fields, alloc, "budget", u64::from(budget))
}

/// Adds the limit that a policy is beyond.
fn put_limit(fields: &mut Map<String, Value>, alloc: Global, cause: &str) -> Result<(), AllocError>
    ensures { OnOk result (members_view fields.new.entries ≡ put_all (of_limit cause.now) (members_view fields.old.entries)) }
{
    put_text(fields, alloc, "stage", "limit")?;
    put_text(fields, alloc, "cause", cause)
}

/// Adds the cause for which the verifier refuses a policy, and the slot.
fn put_refusal(
    fields: &mut Map<String, Value>,
    alloc: Global,
    slot: usize,
    cause: Cause,
) -> Result<(), AllocError>
    ensures { OnOk result (members_view fields.new.entries ≡ put_all (refusal_fields slot cause) (members_view fields.old.entries)) }
{
    let number = cause.number();
    let code = format!(in alloc; "V{number}")?;
    put_text(fields, alloc, "stage", "verifier")?;
    put_text(fields, alloc, "code", code.as_str())?;
    put_number(fields, alloc, "slot", slot as u64)
}

/// Makes the fields for an accepted policy: its maps, and what it uses.
pub(crate) fn fields_of_summary(
    alloc: Global,
    policy: &PolicySource,
    summary: &Summary,
) -> Result<Map<String, Value>, AllocError> {
    let mut fields = Map::new(alloc);
    let maps = maps_value(alloc, policy.form.shapes.as_slice())?;
    put(&mut fields, alloc, "maps", maps)?;
    let helpers = helpers_value(alloc, summary.helpers.as_slice())?;
    put(&mut fields, alloc, "helpers", helpers)?;
    put_number(&mut fields, alloc, "counters", summary.counters as u64)?;
    put_number(&mut fields, alloc, "slots", summary.slots as u64)?;
    Ok(fields)
}

/// Makes the fields for a policy that the verifier refuses: the cause in words, the instruction, the need, what is known,
/// where that comes from, and what helps.
pub(crate) fn fields_of_refusal(
    alloc: Global,
    policy: &PolicySource,
    refusal: &ExplainedRefusal,
) -> Result<Map<String, Value>, AllocError> {
    let mut fields = Map::new(alloc);
    put_text(&mut fields, alloc, "cause", cause_word(refusal.cause))?;
    put_instruction(&mut fields, alloc, &refusal.place)?;
    let need = finding_text(alloc, policy, refusal)?;
    put_text(&mut fields, alloc, "need", need.as_str())?;
    let shapes = policy.form.shapes.as_slice();
    let registers = registers_value(alloc, shapes, refusal.finding)?;
    put(&mut fields, alloc, "registers", registers)?;
    let trail = trail_value(alloc, shapes, refusal.trail.makers.as_slice())?;
    put(&mut fields, alloc, "trail", trail)?;
    let advice = advice_text(alloc, policy, refusal.advice)?;
    put_text(&mut fields, alloc, "advice", advice.as_str())?;
    Ok(fields)
}

/// Makes the fields for a policy that exceeds a limit: the place of a call that is not allowed.
pub(crate) fn fields_of_limit(
    alloc: Global,
    place: &Option<ProgramPoint>,
) -> Result<Map<String, Value>, AllocError> {
    let mut fields = Map::new(alloc);
    if let Some(place) = place {
        put_place(&mut fields, alloc, place)?;
    }
    Ok(fields)
}

/// Adds a text under a key.
pub(crate) fn put_text(
    fields: &mut Map<String, Value>,
    alloc: Global,
    key: &str,
    text: &str,
) -> Result<(), AllocError>
    ensures { OnOk result (members_view fields.new.entries ≡ with_member key.now (string text.now) (members_view fields.old.entries)) }
{
    put(fields, alloc, key, Value::try_from_str(alloc, text)?)
}

/// Adds a number under a key.
fn put_number(
    fields: &mut Map<String, Value>,
    alloc: Global,
    key: &str,
    value: u64,
) -> Result<(), AllocError>
    ensures { OnOk result (members_view fields.new.entries ≡ with_member key.now (number (unsigned value)) (members_view fields.old.entries)) }
{
    put(fields, alloc, key, Value::from(value))
}

/// Adds the slot, the line and the text of an instruction.
fn put_place(
    fields: &mut Map<String, Value>,
    alloc: Global,
    place: &ProgramPoint,
) -> Result<(), AllocError> {
    put_number(fields, alloc, "slot", place.slot as u64)?;
    put_instruction(fields, alloc, place)
}

/// Adds the line and the text of an instruction.
fn put_instruction(
    fields: &mut Map<String, Value>,
    alloc: Global,
    place: &ProgramPoint,
) -> Result<(), AllocError> {
    put(fields, alloc, "line", number_value(place.line))?;
    let insn = instruction_text(alloc, place.insn)?;
    put_text(fields, alloc, "instruction", insn.as_str())
}

/// Returns the number, or null.
pub(crate) fn number_value(number: Option<usize>) -> Value {
    match number {
        Some(number) => Value::from(number as u64),
        None => Value::Null,
    }
}

/// Shows what is known of each register, by its name; null if nothing is known before the instruction.
fn registers_value(
    alloc: Global,
    shapes: &[MapShape],
    finding: Finding,
) -> Result<Value, AllocError> {
    match finding {
        Finding::State { known, .. } => known_value(alloc, shapes, &known),
        Finding::Graph(_) | Finding::Unknown => Ok(Value::Null),
    }
}

/// Shows what is known of each register of which anything is known.
fn known_value(
    alloc: Global,
    shapes: &[MapShape],
    state: &AbstractState,
) -> Result<Value, AllocError> {
    let mut registers = Map::new(alloc);
    for register in 0..REGISTERS {
        if let Some(known) = state.registers[register] {
            let name = format!(in alloc; "r{register}")?;
            let text = known_text(alloc, shapes, &known)?;
            put_text(&mut registers, alloc, name.as_str(), text.as_str())?;
        }
    }
    Ok(Value::Object(registers))
}

/// Lists the instructions that made registers, the nearest first.
fn trail_value(
    alloc: Global,
    shapes: &[MapShape],
    trail: &[RegisterMaker],
) -> Result<Value, AllocError> {
    let mut values = Vec::new(alloc);
    for made in trail {
        values.push(made_value(alloc, shapes, made)?)?;
    }
    Ok(Value::Array(values))
}

/// Shows an instruction that made a register, and what the register is known to be after it.
fn made_value(
    alloc: Global,
    shapes: &[MapShape],
    made: &RegisterMaker,
) -> Result<Value, AllocError> {
    let mut fields = Map::new(alloc);
    put_place(&mut fields, alloc, &made.place)?;
    let register = made.register;
    let name = format!(in alloc; "r{register}")?;
    put_text(&mut fields, alloc, "register", name.as_str())?;
    put(
        &mut fields,
        alloc,
        "known",
        known_or_null(alloc, shapes, made.known)?,
    )?;
    Ok(Value::Object(fields))
}

/// Returns what is known of a word, or null.
fn known_or_null(
    alloc: Global,
    shapes: &[MapShape],
    known: Option<AbstractValue>,
) -> Result<Value, AllocError> {
    match known {
        Some(known) => {
            let text = known_text(alloc, shapes, &known)?;
            Value::try_from_str(alloc, text.as_str())
        }
        None => Ok(Value::Null),
    }
}

/// Returns the name of the file, or null of standard input. Bytes that are no UTF-8 text are escaped, as `\xff`.
pub(crate) fn file_value(alloc: Global, name: Option<&str>) -> Result<Value, AllocError> {
    match name {
        Some(name) => {
            let shown = with_bytes(alloc, name)?;
            Value::try_from_str(alloc, shown.as_str())
        }
        None => Ok(Value::Null),
    }
}

/// Writes the name with `\x` where it has `NO_TEXT`, which two hex digits follow. JSON has its own way to write control characters.
fn with_bytes(alloc: Global, name: &str) -> Result<String, AllocError> {
    let mut shown = String::new(alloc);
    for letter in name.chars() {
        if letter == NO_TEXT {
            shown.push_str("\\x")?;
        } else {
            shown.push(letter)?;
        }
    }
    Ok(shown)
}

/// Makes a list of lines.
pub(crate) fn lines_value(alloc: Global, lines: Lines<'_>) -> Result<Value, AllocError> {
    let mut values = Vec::new(alloc);
    for line in lines {
        values.push(Value::try_from_str(alloc, line)?)?;
    }
    Ok(Value::Array(values))
}

/// Lists maps: of each the size of a value and the number of entries.
fn maps_value(alloc: Global, shapes: &[MapShape]) -> Result<Value, AllocError> {
    let mut values = Vec::new(alloc);
    for shape in shapes {
        values.push(map_value(alloc, shape)?)?;
    }
    Ok(Value::Array(values))
}

/// Shows the shape of a map as a JSON object: the size of a value, and the number of entries.
fn map_value(alloc: Global, shape: &MapShape) -> Result<Value, AllocError> {
    let mut fields = Map::new(alloc);
    let size = Value::from(u64::from(shape.value_size));
    put(&mut fields, alloc, "value_size", size)?;
    let entries = Value::from(u64::from(shape.entries));
    put(&mut fields, alloc, "entries", entries)?;
    Ok(Value::Object(fields))
}

/// Lists helpers by their numbers.
fn helpers_value(alloc: Global, helpers: &[i32]) -> Result<Value, AllocError> {
    let mut values = Vec::new(alloc);
    for helper in helpers {
        values.push(Value::from(i64::from(*helper)))?;
    }
    Ok(Value::Array(values))
}

/// Names the cause in a word.
fn cause_word(cause: Cause) -> &'static str {
    match cause {
        Cause::Graph(GraphCause::Jump) => "jump",
        Cause::Graph(GraphCause::NoExit) => "no exit",
        Cause::Graph(GraphCause::Unreached) => "unreached",
        Cause::Graph(GraphCause::Helper) => "helper",
        Cause::Graph(GraphCause::Frame) => "frame",
        Cause::Graph(GraphCause::Counters) => "counters",
        Cause::State(Obligation::Unset) => "unset",
        Cause::State(Obligation::Access) => "access",
        Cause::State(Obligation::PointerUse) => "pointer use",
        Cause::State(Obligation::Argument) => "argument",
        Cause::State(Obligation::Answer) => "answer",
    }
}
