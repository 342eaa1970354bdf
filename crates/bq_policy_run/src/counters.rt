//! Counters from the words of a command.
ghost use Rattle.std.specs.Prelude.{◌≡◌, ◌<◌, ◌^◌, ℕ, [], IfErr, IfNone, IfSome, IsOk, slice_set};
ghost use Rattle.std.specs.Result.{OnErr, OnOk};
ghost use Rattle.bq_console.specs.Words.{GivesNone};
ghost use Rattle.bq_policy_run.specs.Naming.{NamesCounter, SetsCounter, TextsInTurn};
ghost use Rattle.bq_policy_run.specs.Runs.{ChangesOnlyCounters};

use crate::faults::refused;
use crate::inputs::Inputs;
use bq_bpf::board::COUNTERS;
use bq_bpf::{Board, Plain, with_counters};
use bq_console::WordsFault;
use bq_console::words::{cut, decimal, value};
use std::alloc::Global;

impl Inputs {
    /// Sets the counters that the texts name, in order. Stops at the first text that names no counter; what the texts before it
    /// set remains.
    pub fn set_all_counters(&mut self, alloc: Global, texts: &[String]) -> Result<(), WordsFault>
        ensures board { OnOk result (TextsInTurn SetsCounter texts.now self.old.board self.new.board) }
        ensures refused { IfErr result (GivesNone (TextsInTurn SetsCounter texts.now self.old.board)) }
        ensures others { ChangesOnlyCounters self.old self.new }
        ensures none { texts.now ≡ [] → IsOk result }
    {
        for text in texts {
            self.set_counter(alloc, text.as_str())?;
        }
        Ok(())
    }

    /// Sets a counter, as `3=10` does. A text is refused only if it names no counter.
    pub fn set_counter(&mut self, alloc: Global, text: &str) -> Result<(), WordsFault>
        ensures board { OnOk result (SetsCounter text.now self.old.board self.new.board) }
        ensures refused { IfErr result (GivesNone (SetsCounter text.now self.old.board)) }
        ensures left { OnErr result (self.new ≡ self.old) }
        ensures others { ChangesOnlyCounters self.old self.new }
    {
        let Some((number, word)) = counter_named(text) else {
            return Err(refused(alloc, "counter", text, flaw_of(text)));
        };
        if number >= COUNTERS {
            return Err(refused(
                alloc,
                "counter",
                text,
                with_counters!("there are the counters ", ""),
            ));
        }
        set(&mut self.board, number as u8, word);
        Ok(())
    }
}

/// Returns the counter that a text names, and its value.
fn counter_named(text: &str) -> Option<(usize, u64)>
    ensures some { IfSome result (λ named. NamesCounter text.now named.0 named.1) }
    ensures none { IfNone result ((counter word : ℕ) → counter < 2 ^ 64 → word < 2 ^ 64 → ¬ NamesCounter text.now counter word) }
{
    let (number, word) = cut(text, '=')?;
    decimal(number).zip(value(word))
}

/// Says what is wrong with a text that names no counter and value.
fn flaw_of(text: &str) -> &'static str {
    match cut(text, '=') {
        None => "a counter is set as 3=10",
        Some((number, _)) if decimal(number).is_none() => {
            "what is before = is no number; a counter is set as 3=10"
        }
        Some(_) => "what is behind = is no number of 64 bits; a counter is set as 3=10",
    }
}

/// Sets a counter to `word`.
fn set(board: &mut Plain, counter: u8, word: u64)
    requires { counter < COUNTERS }
    ensures { board.new ≡ slice_set board.old counter word }
{
    let before = board.value(counter);
    let _ = board.add(counter, word.wrapping_sub(before));
}
