//! Look-ups in the tables of a document.
ghost use Rattle.std.specs.Prelude.{◌≡◌, Some, map, option_map};
ghost use Rattle.std.specs.List.{list_any};
ghost use Rattle.std.specs.Result.{result_err};
ghost use Rattle.std.specs.Str.{bytes_eq};
ghost use Rattle.toml.specs.Data.{get_member};
ghost use Rattle.toml.specs.View.{view, table_view};
ghost use Rattle.bq_workload_file.specs.Keys.{first_unknown, unknown_key};
ghost use Rattle.bq_workload_file.specs.Tables.{only_of};

use crate::workload_cause::WorkloadCause;
use toml::{Table, Value};

/// The value at a key.
pub(crate) fn at<'a>(table: &'a Table, key: &str) -> Option<&'a Value>
    ensures { option_map (λ v. view v.now) result ≡ get_member key.now (table_view table.now) }
{
    table.get(key)
}

/// Finds the entry of a table that has exactly one entry.
pub(crate) fn only(table: &Table) -> Option<(&str, &Value)>
    ensures { option_map (λ p. (p.0.now, view p.1.now)) result ≡ only_of (table_view table.now) }
{
    if table.len() != 1 {
        return None;
    }
    match table.first_key_value() {
        Some((key, value)) => Some((key.as_str(), value)),
        None => None,
    }
}

/// Checks that each key is one of the known words. The error is the first unknown key.
pub(crate) fn all_known<'a>(
    table: &'a Table,
    known: &'static [&'static str],
) -> Result<(), WorkloadCause<'a>>
    ensures { option_map unknown_key (result_err result) ≡ option_map (λ key. Some key) (first_unknown (map (λ word. word.now) known.now) (table_view table.now)) }
{
    'keys: for (key, _value) in table.iter() {
        if !is_word(key.as_str(), known) {
            return Err(WorkloadCause::UnknownKey {
                key: key.as_str(),
                known,
            });
        }
    }
    Ok(())
}

/// Whether a key is one of some words.
fn is_word(key: &str, words: &[&str]) -> bool
    ensures { result ≡ list_any (λ word. bytes_eq word.now key.now) words.now }
{
    words.iter().any(|word| *word == key)
}
