//! Events and machines as lines.
ghost use Rattle.std.specs.Prelude.{◌≡◌, ◌++◌, ◌∷◌, [], OnOk, string_bytes};
ghost use Rattle.std.specs.Fmt.{decimal};
ghost use Rattle.bq_simulate.specs.Spelling.{HasFittingNumbers, asking_line, image_word, install_line, machine_line, spaced_words};
ghost use Rattle.bq_trace.specs.Borrowed.{optional_bytes};

use bq_hooks::Hook;
use bq_lines::Keyword;
use bq_parts::Event;
use bq_words::{DisciplineName, ProcessorCount};
use std::alloc::{AllocError, Global};
use std::fmt::Write;

/// Adds the line that asks for an event, and a line feed. An install brings this image, or `none`; no other event brings one.
/// `Event::Pull` with processor 1, from 0 and now 2000 adds `pull 1 0 2000`.
pub fn write_event(
    alloc: Global,
    text: &mut String,
    event: &Event,
    image: Option<&[u8]>,
) -> Result<(), AllocError>
    ensures line { OnOk result (string_bytes text.new ≡ string_bytes text.old ++ (asking_line (optional_bytes image.entry) event.now ++ 10 ∷ [])) }
    ensures numbers { HasFittingNumbers event.now }
{
    let keyword = Keyword::of_event(event).word();
    match *event {
        Event::Admit {
            task,
            nice,
            mask,
            slice,
        } => write!(text, "{keyword} {task} {nice} {mask} {slice}\n"),
        Event::Retire { task } => write!(text, "{keyword} {task}\n"),
        Event::Draw => write!(text, "{keyword}\n"),
        Event::Install {
            processor,
            hook,
            generation,
            policy: _,
        } => write_install(alloc, text, processor, generation, hook, image),
        Event::BeginWake { processor, task } => write!(text, "{keyword} {processor} {task}\n"),
        Event::EndWake { processor, now } => write_pair(text, keyword, processor, now),
        Event::Drain { processor, now } => write_pair(text, keyword, processor, now),
        Event::Tick { processor, now } => write_pair(text, keyword, processor, now),
        Event::Block { processor, now } => write_pair(text, keyword, processor, now),
        Event::Pull {
            processor,
            from,
            now,
        } => write!(text, "{keyword} {processor} {from} {now}\n"),
    }
}

/// Adds the line of a word, a processor and a number, and a line feed.
fn write_pair(text: &mut String, word: &str, processor: u8, number: u64) -> Result<(), AllocError>
    ensures { OnOk result (string_bytes text.new ≡ string_bytes text.old ++ (spaced_words (word.now ∷ decimal processor ∷ decimal number ∷ []) ++ 10 ∷ [])) }
{
    write!(text, "{word} {processor} {number}\n")
}

/// Adds the line of an install with this image, and a line feed.
fn write_install(
    alloc: Global,
    text: &mut String,
    processor: u8,
    generation: u64,
    hook: Hook,
    image: Option<&[u8]>,
) -> Result<(), AllocError>
    ensures { OnOk result (string_bytes text.new ≡ string_bytes text.old ++ (install_line processor generation hook (optional_bytes image.entry) ++ 10 ∷ [])) }
{
    let keyword = Keyword::Install.word();
    let hook = hook.word();
    write!(text, "{keyword} {processor} {generation} {hook} ")?;
    write_image(alloc, text, image)
}

/// Adds the word of an image, and a line feed.
fn write_image(alloc: Global, text: &mut String, image: Option<&[u8]>) -> Result<(), AllocError>
    ensures { OnOk result (string_bytes text.new ≡ string_bytes text.old ++ (image_word (optional_bytes image.entry) ++ 10 ∷ [])) }
{
    match image {
        None => text.push_str("none\n"),
        Some(bytes) => {
            let spelled = hex::encode(alloc, bytes)?;
            write!(text, "{spelled}\n")
        }
    }
}

/// Adds the line that makes a machine, and a line feed.
pub fn write_machine(
    text: &mut String,
    discipline: DisciplineName,
    size: ProcessorCount,
) -> Result<(), AllocError>
    ensures { OnOk result (string_bytes text.new ≡ string_bytes text.old ++ (machine_line discipline size ++ 10 ∷ [])) }
{
    let keyword = Keyword::Machine.word();
    let discipline = discipline.word();
    let processors = size.processors();
    write!(text, "{keyword} {discipline} {processors}\n")
}
