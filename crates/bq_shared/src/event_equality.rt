//! Compares events by their contents.
ghost use Rattle.std.specs.Prelude.{◌≡◌, ◌↔◌, IsTrue};

use bq_installed::Policy;
use bq_parts::Event;

/// Returns whether both events are equal. Policies are equal if what was accepted of them is: instructions, shapes of maps, hook,
/// version and budget.
pub fn is_same_event(event: &Event, other: &Event) -> bool
    ensures { IsTrue result ↔ (event.now ≡ other.now) }
{
    match (event, other) {
        (
            Event::Admit {
                task,
                nice,
                mask,
                slice,
            },
            Event::Admit {
                task: their_task,
                nice: their_nice,
                mask: their_mask,
                slice: their_slice,
            },
        ) => task == their_task && nice == their_nice && mask == their_mask && slice == their_slice,
        (Event::Retire { task }, Event::Retire { task: their_task }) => task == their_task,
        (Event::Draw, Event::Draw) => true,
        (
            Event::Install {
                processor,
                hook,
                generation,
                policy,
            },
            Event::Install {
                processor: their_processor,
                hook: their_hook,
                generation: their_generation,
                policy: their_policy,
            },
        ) => processor == their_processor
            && hook == their_hook
            && generation == their_generation
            && same_policy(policy, their_policy),
        (
            Event::BeginWake { processor, task },
            Event::BeginWake {
                processor: their_processor,
                task: their_task,
            },
        ) => processor == their_processor && task == their_task,
        (
            Event::EndWake { processor, now },
            Event::EndWake {
                processor: their_processor,
                now: their_now,
            },
        ) => processor == their_processor && now == their_now,
        (
            Event::Drain { processor, now },
            Event::Drain {
                processor: their_processor,
                now: their_now,
            },
        ) => processor == their_processor && now == their_now,
        (
            Event::Tick { processor, now },
            Event::Tick {
                processor: their_processor,
                now: their_now,
            },
        ) => processor == their_processor && now == their_now,
        (
            Event::Block { processor, now },
            Event::Block {
                processor: their_processor,
                now: their_now,
            },
        ) => processor == their_processor && now == their_now,
        (
            Event::Pull {
                processor,
                from,
                now,
            },
            Event::Pull {
                processor: their_processor,
                from: their_from,
                now: their_now,
            },
        ) => processor == their_processor && from == their_from && now == their_now,
        _ => false,
    }
}

/// Returns whether both are none, or equal policies.
fn same_policy(policy: &Option<Policy>, other: &Option<Policy>) -> bool
    ensures { IsTrue result ↔ (policy.now ≡ other.now) }
{
    match (policy, other) {
        (None, None) => true,
        (Some(policy), Some(their_policy)) => policy.is_same(their_policy),
        _ => false,
    }
}
