//! What a line of a trace says.
ghost use Rattle.std.specs.Prelude.{◌≡◌, ℕ, List};
ghost use Rattle.std.specs.Borrow.{Bor};
ghost use Rattle.std.specs.Option.{option_map};
ghost use Rattle.bq_words.specs.Words.{words};
ghost use Rattle.bq_lines.specs.Lines.{machine_command, admit_command, retire_command, draw_command, install_words, install_command, begin_command, end_command, wake_command, drain_command, tick_command, block_command, pull_command, show_command, counter_command, command_of, machine_words, admit_words, one_task, one_number, processor_and_task, processor_and_time, wake_words, pull_words, reading_of_command, reading_of_words, reading_of, reading_of_short_line};

use crate::bytes::is_allowed_line;
use crate::command::{LineCommand, LineReading};
use crate::hex_word::HexWord;
use crate::keyword::Keyword;
use bq_hooks::Hook;
use bq_parts::Event;
use bq_words::{
    DisciplineName, ProcessorCount, end_of_words, four_words, next_word, only_word, quantities,
    three_words, two_words,
};

/// The most bytes of a line.
pub const LONGEST: usize = 131_072;

/// Reads a line, which comes without its line feed, and without the CR before that. A line of more than 131,072 bytes is
/// `Bad`, and so is one with a byte that no line may have.
#[tactic(auto, unfolding(crate::specs::Lines::reading_of))]
pub fn read_line(line: &[u8]) -> LineReading<'_>
    ensures { result ≡ reading_of line.now }
{
    if line.len() > LONGEST || !is_allowed_line(line) {
        return LineReading::Bad;
    }
    read_words(line)
}

/// Reads a line by what was kept of it. `None` is a line that was too long, which is `Bad`.
pub fn read_short_line(short_line: Option<&[u8]>) -> LineReading<'_>
    ensures { result ≡ reading_of_short_line (option_map (λ (l : Bor (List ℕ)). l.now) short_line.entry) }
{
    match short_line {
        None => LineReading::Bad,
        Some(line) => read_line(line),
    }
}

/// Reads a line of allowed bytes.
fn read_words(line: &[u8]) -> LineReading<'_>
    ensures { result ≡ reading_of_words (words line.now) }
{
    let Some((name, operands)) = next_word(line) else {
        return LineReading::Skipped;
    };
    if name.starts_with(b"#") {
        return LineReading::Skipped;
    }
    command(name, operands)
}

/// Reads the command of this name, by the words after the name. Each arm builds its own `LineReading`: one return for all
/// would copy a large value for every line.
fn command<'a>(name: &[u8], operands: &'a [u8]) -> LineReading<'a>
    ensures { result ≡ reading_of_command (command_of name.now (words operands.now)) }
{
    match Keyword::of_word(name) {
        Some(Keyword::Install) => install(operands),
        Some(Keyword::Machine) => machine(operands),
        Some(Keyword::Admit) => admit(operands),
        Some(Keyword::Retire) => retire(operands),
        Some(Keyword::Draw) => draw(operands),
        Some(Keyword::Begin) => begin(operands),
        Some(Keyword::End) => end(operands),
        Some(Keyword::Wake) => wake(operands),
        Some(Keyword::Drain) => drain(operands),
        Some(Keyword::Tick) => tick(operands),
        Some(Keyword::Block) => block(operands),
        Some(Keyword::Pull) => pull(operands),
        Some(Keyword::Show) => show(operands),
        Some(Keyword::Counter) => counter(operands),
        None => LineReading::Bad,
    }
}

/// Reads a discipline and a number of processors.
fn machine_words(operands: &[u8]) -> Option<(DisciplineName, ProcessorCount)>
    ensures { result ≡ machine_words (words operands.now) }
{
    match two_words(operands) {
        Some((first, second)) => DisciplineName::of_word(first).zip(quantities::size(second)),
        None => None,
    }
}

/// Reads a task, its nice value, its mask and its slice.
fn admit_words(operands: &[u8]) -> Option<(u16, i8, u64, u64)>
    ensures { result ≡ admit_words (words operands.now) }
{
    let (first, second, third, fourth) = four_words(operands)?;
    let task = quantities::task(first)?;
    let nice = quantities::nice(second)?;
    let mask = quantities::mask(third)?;
    let slice = quantities::decimal(fourth)?;
    Some((task, nice, mask, slice))
}

/// Reads a processor, a generation, a hook, and the word that spells an image.
fn install_words(operands: &[u8]) -> Option<(u8, u64, Hook, &[u8])>
    ensures { option_map (λ w. (w.0, w.1, w.2, w.3.now)) result ≡ install_words (words operands.now) }
{
    let (first, second, third, image) = four_words(operands)?;
    let processor = quantities::processor(first)?;
    let generation = quantities::decimal(second)?;
    let hook = Hook::of_word(third)?;
    Some((processor, generation, hook, image))
}

/// Reads a task.
fn one_task(operands: &[u8]) -> Option<u16>
    ensures { result ≡ one_task (words operands.now) }
{
    match only_word(operands) {
        Some(word) => quantities::task(word),
        None => None,
    }
}

/// Reads a processor, or a counter.
fn one_number(operands: &[u8]) -> Option<u8>
    ensures { result ≡ one_number (words operands.now) }
{
    match only_word(operands) {
        Some(word) => quantities::processor(word),
        None => None,
    }
}

/// Reads a processor and a task.
fn processor_and_task(operands: &[u8]) -> Option<(u8, u16)>
    ensures { result ≡ processor_and_task (words operands.now) }
{
    match two_words(operands) {
        Some((first, second)) => quantities::processor(first).zip(quantities::task(second)),
        None => None,
    }
}

/// Reads a processor and a clock reading, which most lines of a trace have. The words are read one after the other, which
/// takes a fifth fewer instructions than pairing both readings.
fn processor_and_time(operands: &[u8]) -> Option<(u8, u64)>
    ensures { result ≡ processor_and_time (words operands.now) }
{
    let (first, second) = two_words(operands)?;
    let processor = quantities::processor(first)?;
    let now = quantities::decimal(second)?;
    Some((processor, now))
}

/// Reads a processor, a task and a clock reading. The words are read one after the other, as in `processor_and_time`.
fn wake_words(operands: &[u8]) -> Option<(u8, u16, u64)>
    ensures { result ≡ wake_words (words operands.now) }
{
    let (first, second, third) = three_words(operands)?;
    let processor = quantities::processor(first)?;
    let task = quantities::task(second)?;
    let now = quantities::decimal(third)?;
    Some((processor, task, now))
}

/// Reads two processors and a clock reading.
fn pull_words(operands: &[u8]) -> Option<(u8, u8, u64)>
    ensures { result ≡ pull_words (words operands.now) }
{
    let (first, second, third) = three_words(operands)?;
    let processor = quantities::processor(first)?;
    let from = quantities::processor(second)?;
    let now = quantities::decimal(third)?;
    Some((processor, from, now))
}

/// Reads the words after `machine`.
fn machine(operands: &[u8]) -> LineReading<'_>
    ensures { result ≡ reading_of_command (machine_command (words operands.now)) }
{
    match machine_words(operands) {
        Some((discipline, size)) => LineReading::Asks(LineCommand::Machine { discipline, size }),
        None => LineReading::Bad,
    }
}

/// Reads the words after `admit`.
fn admit(operands: &[u8]) -> LineReading<'_>
    ensures { result ≡ reading_of_command (admit_command (words operands.now)) }
{
    match admit_words(operands) {
        Some((task, nice, mask, slice)) => LineReading::Asks(LineCommand::Does(Event::Admit {
            task,
            nice,
            mask,
            slice,
        })),
        None => LineReading::Bad,
    }
}

/// Reads the words after `retire`.
fn retire(operands: &[u8]) -> LineReading<'_>
    ensures { result ≡ reading_of_command (retire_command (words operands.now)) }
{
    match one_task(operands) {
        Some(task) => LineReading::Asks(LineCommand::Does(Event::Retire { task })),
        None => LineReading::Bad,
    }
}

/// Reads the words after `draw`.
fn draw(operands: &[u8]) -> LineReading<'_>
    ensures { result ≡ reading_of_command (draw_command (words operands.now)) }
{
    match end_of_words(operands) {
        Some(()) => LineReading::Asks(LineCommand::Does(Event::Draw)),
        None => LineReading::Bad,
    }
}

/// Reads the words after `install`.
fn install(operands: &[u8]) -> LineReading<'_>
    ensures { result ≡ reading_of_command (install_command (words operands.now)) }
{
    let Some((processor, generation, hook, image)) = install_words(operands) else {
        return LineReading::Bad;
    };
    if image == b"none".as_slice() {
        return LineReading::Asks(LineCommand::Does(Event::Install {
            processor,
            hook,
            generation,
            policy: None,
        }));
    }
    LineReading::Asks(LineCommand::Load {
        processor,
        hook,
        generation,
        image: HexWord::new(image),
    })
}

/// Reads the words after `begin`.
fn begin(operands: &[u8]) -> LineReading<'_>
    ensures { result ≡ reading_of_command (begin_command (words operands.now)) }
{
    match processor_and_task(operands) {
        Some((processor, task)) => {
            LineReading::Asks(LineCommand::Does(Event::BeginWake { processor, task }))
        }
        None => LineReading::Bad,
    }
}

/// Reads the words after `end`.
fn end(operands: &[u8]) -> LineReading<'_>
    ensures { result ≡ reading_of_command (end_command (words operands.now)) }
{
    match processor_and_time(operands) {
        Some((processor, now)) => {
            LineReading::Asks(LineCommand::Does(Event::EndWake { processor, now }))
        }
        None => LineReading::Bad,
    }
}

/// Reads the words after `wake`.
fn wake(operands: &[u8]) -> LineReading<'_>
    ensures { result ≡ reading_of_command (wake_command (words operands.now)) }
{
    match wake_words(operands) {
        Some((processor, task, now)) => LineReading::Asks(LineCommand::Wake {
            processor,
            task,
            now,
        }),
        None => LineReading::Bad,
    }
}

/// Reads the words after `drain`.
fn drain(operands: &[u8]) -> LineReading<'_>
    ensures { result ≡ reading_of_command (drain_command (words operands.now)) }
{
    match processor_and_time(operands) {
        Some((processor, now)) => LineReading::Asks(LineCommand::Does(Event::Drain {
            processor,
            now,
        })),
        None => LineReading::Bad,
    }
}

/// Reads the words after `tick`.
fn tick(operands: &[u8]) -> LineReading<'_>
    ensures { result ≡ reading_of_command (tick_command (words operands.now)) }
{
    match processor_and_time(operands) {
        Some((processor, now)) => LineReading::Asks(LineCommand::Does(Event::Tick {
            processor,
            now,
        })),
        None => LineReading::Bad,
    }
}

/// Reads the words after `block`.
fn block(operands: &[u8]) -> LineReading<'_>
    ensures { result ≡ reading_of_command (block_command (words operands.now)) }
{
    match processor_and_time(operands) {
        Some((processor, now)) => LineReading::Asks(LineCommand::Does(Event::Block {
            processor,
            now,
        })),
        None => LineReading::Bad,
    }
}

/// Reads the words after `pull`.
fn pull(operands: &[u8]) -> LineReading<'_>
    ensures { result ≡ reading_of_command (pull_command (words operands.now)) }
{
    match pull_words(operands) {
        Some((processor, from, now)) => LineReading::Asks(LineCommand::Does(Event::Pull {
            processor,
            from,
            now,
        })),
        None => LineReading::Bad,
    }
}

/// Reads the words after `show`.
fn show(operands: &[u8]) -> LineReading<'_>
    ensures { result ≡ reading_of_command (show_command (words operands.now)) }
{
    match one_number(operands) {
        Some(processor) => LineReading::Asks(LineCommand::Show { processor }),
        None => LineReading::Bad,
    }
}

/// Reads the words after `counter`.
fn counter(operands: &[u8]) -> LineReading<'_>
    ensures { result ≡ reading_of_command (counter_command (words operands.now)) }
{
    match one_number(operands) {
        Some(counter) => LineReading::Asks(LineCommand::Counter { counter }),
        None => LineReading::Bad,
    }
}
