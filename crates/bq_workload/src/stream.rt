//! The lengths of one task.
ghost use Rattle.std.specs.Prelude.{◌≡◌, ◌≤◌, true};
ghost use Rattle.bq_workload.specs.Lengths.{is_length, longest};
ghost use Rattle.bq_workload.specs.Streams.{stream_of_task, first_word, second_word, after_draw};
ghost use Rattle.bq_workload.specs.Draws.{length_drawn, uniform};

use crate::Length;
use crate::exponential::exponential;
use rand_core::utils::next_u64_via_u32;
use rand_pcg::Pcg32;
use std::marker::Model;

/// The lengths that a task is given, one after another. Each takes two words of 64 bits, whatever its kind.
#[derive(Drop)]
pub struct Stream {
    words: Pcg32,
}

impl Model for Stream {
    ghost use Rattle.rand_pcg.specs.Lcg.{Lcg};

    ghost Value = { Lcg };

    ghost view = { λ s. s.words };
}

impl Stream {
    /// The stream of a task's number: the seed is the generator's state, and the number its stream.
    pub fn of_task(seed: u64, task: u16) -> Stream
        ensures { result ≡ stream_of_task seed task }
    {
        Stream {
            words: Pcg32::new(seed, u64::from(task)),
        }
    }

    /// The next length, in nanoseconds.
    pub fn draw(&mut self, length: Length) -> u64
        requires { is_length length ≡ true }
        ensures value { result ≡ length_drawn length (first_word self.old) (second_word self.old) }
        ensures next { self.new ≡ after_draw self.old }
        ensures least { 1 ≤ result }
        ensures greatest { result ≤ longest }
    {
        let first = next_u64_via_u32(&mut self.words);
        let second = next_u64_via_u32(&mut self.words);
        length_of(length, first, second)
    }
}

/// The length that two words give.
fn length_of(length: Length, first: u64, second: u64) -> u64
    requires { is_length length ≡ true }
    ensures value { result ≡ length_drawn length first second }
    ensures least { 1 ≤ result }
    ensures greatest { result ≤ longest }
{
    match length {
        Length::Fixed(length) => length,
        Length::Uniform { least, greatest } => uniform(least, greatest, first),
        Length::Exponential { mean } => exponential(mean, first, second),
    }
}

/// The number in whose share of all words this word falls: the numbers from the least to the greatest divide the words
/// among them, in order, into shares as even as whole words can be.
fn uniform(least: u64, greatest: u64, word: u64) -> u64
    requires order { least ≤ greatest }
    requires high { greatest ≤ longest }
    ensures value { result ≡ uniform least greatest word }
    ensures least { least ≤ result }
    ensures greatest { result ≤ greatest }
{
    let numbers = u128::from(greatest - least) + 1;
    least + ((u128::from(word) * numbers) >> 64) as u64
}
