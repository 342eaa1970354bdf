//! An answer of `check` as JSON: one line, by the schema of docs/JSON.md.
ghost use Rattle.std.specs.Prelude.{◌≡◌, Bool, IfOk, OnOk, false, string_bytes};
ghost use Rattle.serde_json.specs.Data.{object};
ghost use Rattle.serde_json.specs.View.{members_view, view};
ghost use Rattle.bq_insn.specs.Appending.{StartsWith};
ghost use Rattle.bq_policy_check.specs.Refusing.{policy_fault_line};
ghost use Rattle.bq_policy_check.specs.Showing.{IsLineOf, ShowsFault, ShowsNone, ShowsVerdict, answer_members, first_line, put_all};

use crate::file_fault::{FileFault, fields_of_reason, put_fault};
use crate::json_parts::{
    fields_of_limit, fields_of_refusal, fields_of_summary, file_value, lines_value, put_text,
    put_verdict,
};
use bq_console::Name;
use bq_explain::{Detail, Explanation, explanation_text};
use bq_policy_file::{PolicyFault, PolicySource};
use serde_json::{Map, Value, put};
use std::alloc::{AllocError, Global};

/// The version of the schema.
const SCHEMA: u64 = 1;

/// Writes the explanation of a policy as one line of JSON.
pub(crate) fn explanation_json(
    alloc: Global,
    name: Option<&str>,
    policy: &PolicySource,
    explanation: &Explanation,
) -> Result<String, AllocError>
    ensures { IfOk result (λ text. ShowsVerdict policy.now explanation.now.verdict (string_bytes text)) }
{
    let shown = name_text(alloc, name)?;
    let prose = explanation_text(alloc, policy, shown.as_deref(), explanation)?;
    let (first, rest) = first_line(prose.as_str());
    let answer = Value::try_from_str(alloc, first)?;
    let mut fields = fields_of(alloc, policy, explanation)?;
    put_explanation(&mut fields, alloc, name, rest)?;
    put_answer(
        &mut fields,
        alloc,
        explanation.verdict.is_accepted(),
        answer,
    )?;
    put_verdict(&mut fields, alloc, policy, explanation.verdict)?;
    line_of(alloc, fields)
}

/// Says why a file is no policy, as one line of JSON.
pub(crate) fn reason_json(
    alloc: Global,
    name: Option<&str>,
    fault: PolicyFault,
    reason: &FileFault,
    prose: &str,
) -> Result<String, AllocError>
    requires { StartsWith (policy_fault_line fault) prose.now }
    ensures { IfOk result (λ text. ShowsFault fault (string_bytes text)) }
{
    let (first, rest) = first_line(prose);
    let answer = Value::try_from_str(alloc, first)?;
    let mut fields = fields_of_reason(alloc, reason)?;
    put_explanation(&mut fields, alloc, name, rest)?;
    put_answer(&mut fields, alloc, false, answer)?;
    put_fault(&mut fields, alloc, fault)?;
    line_of(alloc, fields)
}

/// Says why no answer comes to a file, as one line of JSON: `stage` is `words`, `memory`, `reading` or `writing`.
pub fn unanswered_json(
    alloc: Global,
    name: Option<&str>,
    stage: &str,
    why: &str,
) -> Result<String, AllocError>
    ensures { IfOk result (λ text. ShowsNone (string_bytes text)) }
{
    let mut fields = Map::new(alloc);
    put_text(&mut fields, alloc, "stage", stage)?;
    put_text(&mut fields, alloc, "need", why)?;
    put_explanation(&mut fields, alloc, name, "")?;
    put_answer(&mut fields, alloc, false, Value::Null)?;
    line_of(alloc, fields)
}

/// Writes a name of a file as messages show it.
pub(crate) fn name_text(alloc: Global, name: Option<&str>) -> Result<Option<String>, AllocError> {
    match name {
        Some(name) => {
            let name = Name(name);
            Ok(Some(format!(in alloc; "{name}")?))
        }
        None => Ok(None),
    }
}

/// Returns the first line of a text, and the rest after it.
fn first_line(text: &str) -> (&str, &str)
    ensures { result.0.now ≡ first_line text.now }
{
    text.split_once('\n').unwrap_or((text, ""))
}

/// Makes the fields of a JSON object that explain a verdict beside the prose.
fn fields_of(
    alloc: Global,
    policy: &PolicySource,
    explanation: &Explanation,
) -> Result<Map<String, Value>, AllocError> {
    match &explanation.detail {
        Detail::Accepted(summary) => fields_of_summary(alloc, policy, summary),
        Detail::Refused(refusal) => fields_of_refusal(alloc, policy, refusal),
        Detail::Limited(place) => fields_of_limit(alloc, place),
    }
}

/// Adds the version of the schema, the file's name, and the lines that explain the answer.
fn put_explanation(
    fields: &mut Map<String, Value>,
    alloc: Global,
    name: Option<&str>,
    lines: &str,
) -> Result<(), AllocError> {
    put(fields, alloc, "schema", Value::from(SCHEMA))?;
    put(fields, alloc, "file", file_value(alloc, name)?)?;
    put(
        fields,
        alloc,
        "explanation",
        lines_value(alloc, lines.lines())?,
    )
}

/// Adds whether the policy is accepted, and the answer's first line.
fn put_answer(
    fields: &mut Map<String, Value>,
    alloc: Global,
    accepted: bool,
    answer: Value,
) -> Result<(), AllocError>
    ensures { OnOk result (members_view fields.new.entries ≡ put_all (answer_members accepted (view answer)) (members_view fields.old.entries)) }
{
    put(fields, alloc, "accepted", Value::Bool(accepted))?;
    put(fields, alloc, "answer", answer)
}

/// Writes the JSON object of these fields as one line, with its line end.
fn line_of(alloc: Global, fields: Map<String, Value>) -> Result<String, AllocError>
    ensures { IfOk result (λ text. IsLineOf (object (members_view fields.entries)) (string_bytes text)) }
{
    let line = Value::Object(fields).to_string(alloc)?;
    format!(in alloc; "{line}\n")
}
