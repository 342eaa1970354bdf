//! What is recorded of an event: a record for the history, and an equal one for the receipt.
ghost use Rattle.std.specs.Prelude.{◌≡◌, ℕ, [], Ok, Option, false};
ghost use Rattle.bq_hooks.specs.declared.settled.By.{By};
ghost use Rattle.bq_parts.specs.declared.reply.Reply.TheVariants.{Ticked};
ghost use Rattle.bq_shared.specs.PackedReplies.{has_loads};
ghost use Rattle.bq_shared.specs.Events.{CarriesPolicy};

use bq_history::{CommitDraft, Room};
use bq_parts::{Event, Refusal, Reply};
use bq_shared::{Calls, JournalState, PackedAnswer, Record, copy_event};

/// The record of an event for the history, and an equal one for the receipt.
#[derive(Drop)]
pub(crate) struct Records {
    pub for_history: Record,
    pub for_receipt: Record,
    pub ghost same: { for_history ≡ for_receipt },
}

impl Records {
    /// Makes the records of an event from the pieces of each record.
    #[inline(always)]
    pub fn new(
        events: (Event, Event),
        answers: (PackedAnswer, PackedAnswer),
        calls: (Calls, Calls),
    ) -> Records
        requires events { events.0 ≡ events.1 }
        requires answers { answers.0 ≡ answers.1 }
        requires calls { calls.0 ≡ calls.1 }
        ensures { result.for_receipt ≡ record { event = events.0; reply = answers.0; calls = calls.0 } }
    {
        Records {
            for_history: Record {
                event: events.0,
                reply: answers.0,
                calls: calls.0,
            },
            for_receipt: Record {
                event: events.1,
                reply: answers.1,
                calls: calls.1,
            },
        }
    }

    /// Makes the records of an event that carries no policy and is answered without loads.
    #[inline(always)]
    pub fn of(event: Event, answer: &Result<Reply, Refusal>, calls: (Calls, Calls)) -> Records
        requires event { ¬ (CarriesPolicy event) }
        requires answer { has_loads answer.now ≡ false }
        requires calls { calls.0 ≡ calls.1 }
        ensures { result.for_receipt ≡ record { event = event; reply = answer.now; calls = calls.0 } }
    {
        Records::new(event_twice(event), answer_twice(answer), calls)
    }

    /// Makes the records of an event that carries no policy, is answered without loads, and calls no counters.
    #[inline(always)]
    pub fn without_calls(event: Event, answer: &Result<Reply, Refusal>) -> Records
        requires event { ¬ (CarriesPolicy event) }
        requires answer { has_loads answer.now ≡ false }
        ensures { result.for_receipt ≡ record { event = event; reply = answer.now; calls = [] } }
    {
        Records::of(event, answer, no_calls())
    }

    /// Makes the records of a tick, as `of` does. Ticks are the most frequent events, so the reply is not packed case by case.
    #[inline(always)]
    pub fn of_tick(processor: u8, now: u64, reply: Reply, calls: (Calls, Calls)) -> Records
        requires ticked { (run : Option ℕ) × (by : By) × (steps : ℕ) × (reply ≡ Ticked run by steps) }
        requires calls { calls.0 ≡ calls.1 }
        ensures { result.for_receipt ≡ record { event = Event.Tick processor now; reply = Ok reply; calls = calls.0 } }
    {
        let Reply::Ticked { run, by, steps } = reply else {
            unreachable!()
        };
        let answers = (
            PackedAnswer::ticked(run, by, steps),
            PackedAnswer::ticked(run, by, steps),
        );
        Records::new(event_twice(Event::Tick { processor, now }), answers, calls)
    }

    /// Makes the draft of a commit: these records, the room that was made for the first, and what the journal keeps of the world
    /// from then on, or None if that does not change.
    #[inline(always)]
    pub fn draft(
        self,
        room: &mut Room<Record>,
        kept: Option<JournalState>,
    ) -> CommitDraft<'_, Record, JournalState>
        ensures { result ≡ record { room = room.entry; logged = self.for_receipt; reported = self.for_receipt; kept = kept } }
    {
        let Records {
            for_history,
            for_receipt,
        } = self;
        CommitDraft {
            room,
            logged: for_history,
            reported: for_receipt,
            kept,
        }
    }
}

/// Copies an event that carries no policy, for both records.
#[inline(always)]
pub(crate) fn event_twice(event: Event) -> (Event, Event)
    requires { ¬ (CarriesPolicy event) }
    ensures for_history { result.0 ≡ event }
    ensures for_receipt { result.1 ≡ event }
{
    let Ok(again) = copy_event(&event) else {
        unreachable!()
    };
    (event, again)
}

/// Packs an answer without loads twice, for both records.
#[inline(always)]
pub(crate) fn answer_twice(answer: &Result<Reply, Refusal>) -> (PackedAnswer, PackedAnswer)
    requires { has_loads answer.now ≡ false }
    ensures for_history { result.0 ≡ answer.now }
    ensures for_receipt { result.1 ≡ answer.now }
{
    (PackedAnswer::of(answer), PackedAnswer::of(answer))
}

/// Makes two lists without calls of counters, for both records.
#[inline(always)]
pub(crate) fn no_calls() -> (Calls, Calls)
    ensures for_history { result.0 ≡ [] }
    ensures for_receipt { result.1 ≡ [] }
{
    (Calls::none(), Calls::none())
}
