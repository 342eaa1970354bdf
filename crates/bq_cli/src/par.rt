//! `par`: processors by threads of their own, and how long their one history is.
ghost use Rattle.std.specs.Prelude.{◌≡◌, true, IfOk, IfErr, OnOk, OnErr};
ghost use Rattle.clap.specs.Words.{found_of, rows_of};
ghost use Rattle.bq_words.specs.Sizes.{discipline_named, processors_in};
ghost use Rattle.bq_words.specs.Quantities.{size_in_word};
ghost use Rattle.bq_par.specs.Summaries.{IsHistorySummary};
ghost use Rattle.bq_streams.specs.Counts.{counted_inner, failures_of};
ghost use Rattle.bq_streams.specs.Faults.{IsWriteFault};
ghost use Rattle.bq_trace.specs.Machines.{discipline_of};
ghost use Rattle.bq_cli.specs.Performing.{WritesPar, WritesParInPart};
ghost use Rattle.bq_cli.specs.Words.{AreParWords, NamesValue, OnlyMemoryFails, ticks_of};

use crate::with_ticks;
use bq_cfs::CfsQueue;
use bq_console::{WordsFault, refused_value, value};
use bq_eevdf::EevdfQueue;
use bq_par::{HistorySummary, run};
use bq_streams::{Counted, StreamFault};
use bq_words::{DisciplineName, ProcessorCount, quantities, with_disciplines, with_sizes};
use clap::ArgMatches;
use std::alloc::{AllocError, Global};
use std::io::Write;
use std::sync::Wait;
use std::thread::Threads;

/// The most ticks of a processor.
pub const MOST_TICKS: u32 = 1_000_000;

/// A text with the numbers of ticks in it that may be asked for.
#[macro_export]
macro_rules! with_ticks {
    ($before:literal) => {
        with_ticks!($before, "")
    };
    ($before:literal, $behind:literal) => {
        concat!($before, "0 to 1000000", $behind)
    };
}

/// What `par` is to run: under which discipline, how many processors, and how often each of them ticks, at most `MOST_TICKS` times.
#[derive(Clone, Copy)]
pub struct ParWords {
    pub discipline: DisciplineName,
    pub size: ProcessorCount,
    pub ticks: u32,
}

/// What the value of `--rule` is.
const DISCIPLINE: &str = with_disciplines!("a rule is ");
/// The words of disciplines as a list.
const DISCIPLINE_WORDS: &str = with_disciplines!("");
/// What the value of `--processors` is.
const SIZE: &str = with_sizes!("a number of processors is ");
/// What the value of `--ticks` is.
const TICKS: &str = with_ticks!("a number of ticks is ");

/// Gathers the words that were found. A value that names nothing is refused.
pub(crate) fn par_words(alloc: Global, matches: &ArgMatches<'_>) -> Result<ParWords, WordsFault>
    ensures ok { IfOk result (AreParWords (rows_of (found_of matches.now))) }
    ensures taken { IfErr result (OnlyMemoryFails (AreParWords (rows_of (found_of matches.now)))) }
{
    let discipline = discipline_in(alloc, value(matches, "rule"))?;
    let size = size_in(alloc, value(matches, "processors"))?;
    let ticks = ticks_in(alloc, value(matches, "ticks"))?;
    Ok(ParWords {
        discipline,
        size,
        ticks,
    })
}

/// Returns the discipline that a word names.
fn discipline_in(alloc: Global, word: Option<&str>) -> Result<DisciplineName, WordsFault>
    ensures ok { IfOk result (NamesValue discipline_named word.entry) }
    ensures taken { IfErr result (OnlyMemoryFails (NamesValue discipline_named word.entry)) }
{
    let Some(word) = word else {
        return Err(refused_value(alloc, "rule", "", DISCIPLINE, DISCIPLINE_WORDS));
    };
    match DisciplineName::of_word(word.as_bytes()) {
        Some(discipline) => Ok(discipline),
        None => Err(refused_value(alloc, "rule", word, DISCIPLINE, DISCIPLINE_WORDS)),
    }
}

/// Returns the number of processors that a word names.
fn size_in(alloc: Global, word: Option<&str>) -> Result<ProcessorCount, WordsFault>
    ensures ok { IfOk result (NamesValue size_in_word word.entry) }
    ensures taken { IfErr result (OnlyMemoryFails (NamesValue size_in_word word.entry)) }
{
    let Some(word) = word else {
        return Err(refused_value(alloc, "processors", "", SIZE, ""));
    };
    match quantities::size(word.as_bytes()) {
        Some(size) => Ok(size),
        None => Err(refused_value(alloc, "processors", word, SIZE, "")),
    }
}

/// Returns the number of ticks that a word names.
fn ticks_in(alloc: Global, word: Option<&str>) -> Result<u32, WordsFault>
    ensures ok { IfOk result (NamesValue ticks_of word.entry) }
    ensures taken { IfErr result (OnlyMemoryFails (NamesValue ticks_of word.entry)) }
{
    let Some(word) = word else {
        return Err(refused_value(alloc, "ticks", "", TICKS, ""));
    };
    match ticks_named(word.as_bytes()) {
        Some(ticks) => Ok(ticks),
        None => Err(refused_value(alloc, "ticks", word, TICKS, "")),
    }
}

/// Reads a number of ticks, in decimal.
fn ticks_named(word: &[u8]) -> Option<u32>
    ensures { result ≡ ticks_of word.now }
{
    let ticks = quantities::decimal(word)?;
    if ticks > u64::from(MOST_TICKS) {
        return None;
    }
    Some(ticks as u32)
}

/// Runs processors by threads of their own, and writes how long their history is.
pub(crate) fn perform_par<T: Threads + Wait + Sync, W: Write>(
    rt: &T,
    alloc: Global,
    parallel: &ParWords,
    output: &mut Counted<W>,
) -> Result<bool, StreamFault>
    ensures ok { IfOk result (λ done. (done ≡ true) × WritesPar parallel.now (W.contents (counted_inner output.old)) (W.contents (counted_inner output.new))) }
    ensures kept { OnOk result (failures_of output.new ≡ failures_of output.old) }
    ensures part { OnErr result (WritesParInPart parallel.now (W.contents (counted_inner output.old)) (W.contents (counted_inner output.new))) }
    ensures fault { IfErr result (λ e. IsWriteFault e (failures_of output.old) (failures_of output.new)) }
{
    let summary = run_as_asked(rt, alloc, parallel)?;
    let line = summary.line(alloc)?;
    output.write_text(line.as_bytes())?;
    Ok(true)
}

/// Runs processors under the discipline that is asked for.
fn run_as_asked<T: Threads + Wait + Sync>(
    rt: &T,
    alloc: Global,
    parallel: &ParWords,
) -> Result<HistorySummary, AllocError>
    ensures { IfOk result (IsHistorySummary (discipline_of parallel.now.discipline) (processors_in parallel.now.size) parallel.now.ticks) }
{
    let ParWords {
        discipline,
        size,
        ticks,
    } = *parallel;
    match discipline {
        DisciplineName::Cfs => run::<CfsQueue, T>(rt, alloc, size, ticks),
        DisciplineName::Eevdf => run::<EevdfQueue, T>(rt, alloc, size, ticks),
    }
}
