//! The events of a trace in the format that ui.perfetto.dev and chrome://tracing open, as text.
ghost use Rattle.std.specs.Prelude.{◌≡◌, ◌++◌, IfOk, OnOk, string_bytes};
ghost use Rattle.bq_hooks.specs.Hooks.{hook_word};
ghost use Rattle.bq_drawing.specs.Events.{beginning_text, counter_text, end_text, instant_text, overruled_text, run_event, task_args, track_text, tracks_text};

use bq_report::Micros;
use bq_schedule::{ClockReading, Decision, Slice};
use std::alloc::{AllocError, Global};

/// The first number of the events' tracks. The tracks of runs have the numbers of their processors.
pub const EVENTS: u64 = 64;

/// Adds a track with its name and its place among all tracks.
fn write_track(track: u128, name: &str, place: u128, text: &mut String) -> Result<(), AllocError>
    ensures { OnOk result (string_bytes text.new ≡ string_bytes text.old ++ track_text track name.now place) }
{
    write!(
        text,
        ",\n{{\"ph\":\"M\",\"pid\":0,\"tid\":{track},\"name\":\"thread_name\",\"args\":{{\"name\":\"{name}\"}}}},\n{{\"ph\":\"M\",\"pid\":0,\"tid\":{track},\"name\":\"thread_sort_index\",\"args\":{{\"sort_index\":{place}}}}}"
    )
}

/// Adds the two tracks of a processor.
pub fn write_tracks(alloc: Global, processor: u64, text: &mut String) -> Result<(), AllocError>
    ensures { OnOk result (string_bytes text.new ≡ string_bytes text.old ++ tracks_text processor) }
{
    let runs = u128::from(processor);
    let name = format!(in alloc; "cpu {runs}")?;
    write_track(runs, name.as_str(), runs * 2, text)?;
    let name = format!(in alloc; "cpu {runs} events")?;
    write_track(u128::from(EVENTS) + runs, name.as_str(), runs * 2 + 1, text)
}

/// Adds the event of a run. The name and the arguments are JSON already.
pub fn write_run_event(
    run: &Slice,
    name: &str,
    args: &str,
    text: &mut String,
) -> Result<(), AllocError>
    ensures { OnOk result (string_bytes text.new ≡ string_bytes text.old ++ run_event run.now name.now args.now) }
{
    let processor = run.processor;
    let from = Micros(run.from);
    let length = Micros(run.to.saturating_sub(run.from));
    write!(
        text,
        ",\n{{\"ph\":\"X\",\"cat\":\"run\",\"name\":{name},\"pid\":0,\"tid\":{processor},\"ts\":{from},\"dur\":{length},\"args\":{args}}}"
    )
}

/// Adds a slice of one nanosecond, the shortest that the format can have.
pub fn write_mark(
    kind: &str,
    name: &str,
    track: u64,
    at: u64,
    args: &str,
    text: &mut String,
) -> Result<(), AllocError>
    ensures { OnOk result (string_bytes text.new ≡ string_bytes text.old ++ instant_text kind.now name.now track at args.now) }
{
    let at = Micros(at);
    write!(
        text,
        ",\n{{\"ph\":\"X\",\"cat\":\"{kind}\",\"name\":{name},\"pid\":0,\"tid\":{track},\"ts\":{at},\"dur\":0.001,\"args\":{args}}}"
    )
}

/// Returns the arguments of a mark: a task, and a processor under the name that says how it is related.
pub fn task_args(alloc: Global, task: u16, name: &str, processor: u8) -> Result<String, AllocError>
    ensures { IfOk result (λ text. string_bytes text ≡ task_args task name.now processor) }
{
    format!(in alloc; "{{\"task\":{task},\"{name}\":{processor}}}")
}

/// Adds the beginning of the arrow with this number.
pub fn write_beginning(
    kind: &str,
    arrow: u64,
    track: u64,
    at: u64,
    text: &mut String,
) -> Result<(), AllocError>
    ensures { OnOk result (string_bytes text.new ≡ string_bytes text.old ++ beginning_text kind.now arrow track at) }
{
    let at = Micros(at);
    write!(
        text,
        ",\n{{\"ph\":\"s\",\"cat\":\"{kind}\",\"name\":\"{kind}\",\"id\":{arrow},\"pid\":0,\"tid\":{track},\"ts\":{at}}}"
    )
}

/// Adds the end of the arrow with this number, at the beginning of a run.
pub fn write_end(kind: &str, arrow: u64, run: &Slice, text: &mut String) -> Result<(), AllocError>
    ensures { OnOk result (string_bytes text.new ≡ string_bytes text.old ++ end_text kind.now arrow run.now) }
{
    let processor = run.processor;
    let at = Micros(run.from);
    write!(
        text,
        ",\n{{\"ph\":\"f\",\"bp\":\"e\",\"cat\":\"{kind}\",\"name\":\"{kind}\",\"id\":{arrow},\"pid\":0,\"tid\":{processor},\"ts\":{at}}}"
    )
}

/// Adds the instant at which a policy's answer was overruled.
pub fn write_overruled(
    decision: &Decision,
    reading: &ClockReading,
    text: &mut String,
) -> Result<(), AllocError>
    ensures { OnOk result (string_bytes text.new
        ≡ string_bytes text.old ++ overruled_text (hook_word decision.now.hook) decision.now.steps reading.now.processor reading.now.current) }
{
    let hook = decision.hook.word();
    let steps = decision.steps;
    let track = EVENTS + u64::from(reading.processor);
    let at = Micros(reading.current);
    write!(
        text,
        ",\n{{\"ph\":\"i\",\"s\":\"t\",\"cat\":\"policy\",\"name\":\"{hook} overruled\",\"pid\":0,\"tid\":{track},\"ts\":{at},\"args\":{{\"steps\":{steps}}}}}"
    )
}

/// Adds how many tasks are runnable at a processor.
pub fn write_counter(
    reading: &ClockReading,
    count: u64,
    text: &mut String,
) -> Result<(), AllocError>
    ensures { OnOk result (string_bytes text.new ≡ string_bytes text.old ++ counter_text reading.now.processor reading.now.current count) }
{
    let processor = reading.processor;
    let at = Micros(reading.current);
    write!(
        text,
        ",\n{{\"ph\":\"C\",\"name\":\"cpu {processor} runnable\",\"pid\":0,\"ts\":{at},\"args\":{{\"tasks\":{count}}}}}"
    )
}
