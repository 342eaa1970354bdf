//! Refusals of an event only for its arguments, in any world of this many processors.
ghost use Rattle.std.specs.Prelude.{◌≡◌, ◌<◌, ◌≤◌, Some, None};
ghost use Rattle.bq_parts.specs.Refusals.{argument_refusal};

use bq_disc::limits::{GREATEST_SLICE, LEAST_SLICE, PROCESSORS, TASKS};
use bq_disc::mask::low_bits;
use bq_hooks::Hook;
use bq_installed::Policy;
use bq_parts::{Event, Refusal};
use bq_weights::is_nice;

/// Returns why an event is refused for its arguments, in any world of this many processors. If there are several reasons, this is
/// the one of least number.
pub fn argument_refusal(count: usize, event: &Event) -> Option<Refusal>
    requires { count ≤ PROCESSORS }
    ensures { result ≡ argument_refusal count event.now }
{
    match event {
        Event::Draw => None,
        Event::Admit {
            task,
            nice,
            mask,
            slice,
        } => admit_refusal(count, *task, *nice, *mask, *slice),
        Event::Retire { task } => (*task >= TASKS).then_some(Refusal::NoTask),
        Event::Install {
            processor,
            hook,
            generation,
            policy,
        } => install_refusal(count, *processor, *hook, *generation, policy),
        Event::BeginWake { processor, task } => {
            if usize::from(*processor) >= count {
                Some(Refusal::NoProcessor)
            } else if *task >= TASKS {
                Some(Refusal::NoTask)
            } else {
                None
            }
        }
        Event::EndWake { processor, .. }
        | Event::Drain { processor, .. }
        | Event::Tick { processor, .. }
        | Event::Block { processor, .. } => {
            if usize::from(*processor) >= count {
                Some(Refusal::NoProcessor)
            } else {
                None
            }
        }
        Event::Pull {
            processor,
            from,
            ..
        } => {
            if usize::from(*processor) >= count || usize::from(*from) >= count {
                Some(Refusal::NoProcessor)
            } else if processor == from {
                Some(Refusal::SameProcessor)
            } else {
                None
            }
        }
    }
}

fn admit_refusal(count: usize, task: u16, nice: i8, mask: u64, slice: u64) -> Option<Refusal>
    requires { count ≤ PROCESSORS }
    ensures { result ≡ argument_refusal count (Event.Admit task nice mask slice) }
{
    if task >= TASKS {
        Some(Refusal::NoTask)
    } else if low_bits(mask, count) == 0 {
        Some(Refusal::EmptyMask)
    } else if !is_nice(i64::from(nice)) {
        Some(Refusal::Nice)
    } else if slice < LEAST_SLICE || slice > GREATEST_SLICE {
        Some(Refusal::Slice)
    } else {
        None
    }
}

fn install_refusal(
    count: usize,
    processor: u8,
    hook: Hook,
    generation: u64,
    policy: &Option<Policy>,
) -> Option<Refusal>
    ensures { result ≡ argument_refusal count (Event.Install processor hook generation policy.now) }
{
    if usize::from(processor) >= count {
        return Some(Refusal::NoProcessor);
    }
    match policy {
        Some(policy) if policy.hook() != hook => Some(Refusal::WrongHook),
        _ => None,
    }
}
