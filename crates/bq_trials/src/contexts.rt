//! Contexts and settled pulls over the queues of both rules. Expected bytes are written field by field from the tables of
//! docs/CONTEXTS.md.

use crate::answer::put;
use crate::asserting::is_true;
use bq_cfs::{Cfs, CfsQueue};
use bq_disc::{Entity, List, RunQueue};
use bq_eevdf::{Eevdf, EevdfQueue};
use bq_hooks::{By, Choice, Preempt, Pull, preempt_ctx, pull_ctx, settle_pull};
use std::alloc::Global;
use std::process::Abort;

/// A task of nice 0 that may use processors 0 and 1, by its id, v and deadline.
fn task(id: u16, v: u64, deadline: u64) -> Entity {
    let mut entity = Entity::new(id, 1024, 3, 3_000_000);
    entity.set_times(v.min(1 << 62), deadline.min(1 << 62));
    entity
}

/// The context of a preemption at processor 0.
fn preemption<Q: RunQueue>(rt: &impl Abort, queue: &Q, current: &Entity, own: bool) -> [u8; 56] {
    // a queue's ids are distinct, as this call tells
    let _ = queue.after(None);
    assert!(rt; queue.len() < 1024);
    let facts = Preempt {
        processor: 0,
        queue,
        current,
        own,
    };
    let mut context = [0xaa; 56];
    preempt_ctx(&facts, &mut context);
    context
}

/// Task 1 has run for a millisecond beside task 2, which is the queue's choice.
static BESIDE_ONE: [u8; 56] = [
    0, 0, 0, 0, // the processor
    1, 0, 0, 0, // how many tasks wait
    1, 0, 0, 0, // the current task
    0, 4, 0, 0, // its weight
    0x40, 0x42, 0x0f, 0, 1, 0, 0, 0, // its v
    0, 0, 0, 0, 0, 0, 0, 0, // its deadline
    2, 0, 0, 0, // the queue's choice
    0, 4, 0, 0, // its weight
    0, 0, 0, 0, 1, 0, 0, 0, // its v
    0, 0, 0, 0, // the own answer
    0, 0, 0, 0, // not used
];

fn a_preemption_beside_one_task<Q: RunQueue>(rt: &impl Abort, alloc: Global, queue: &mut Q) {
    put(rt, alloc, queue, task(2, 4294967296, 0));
    let context = preemption(rt, queue, &task(1, 4295967296, 0), false);
    is_true(rt, context == BESIDE_ONE);
}

/// Task 513 has no other beside it.
static ALONE: [u8; 56] = [
    0, 0, 0, 0, // the processor
    0, 0, 0, 0, // how many tasks wait
    1, 2, 0, 0, // the current task
    0, 4, 0, 0, // its weight
    0, 0, 0, 0, 0, 0, 0, 0x40, // its v
    0xff, 0xff, 0xff, 0xff, 0xff, 0xff, 0xff, 0x3f, // its deadline
    0xff, 0xff, 0xff, 0xff, // no choice
    0, 0, 0, 0, // no weight
    0, 0, 0, 0, 0, 0, 0, 0, // no v
    1, 0, 0, 0, // the own answer
    0, 0, 0, 0, // not used
];

fn a_preemption_of_a_task_alone<Q: RunQueue>(rt: &impl Abort, queue: &Q) {
    let context = preemption(rt, queue, &task(513, 1 << 62, (1 << 62) - 1), true);
    is_true(rt, context == ALONE);
}

/// The context of a pull by processor 1 from processor 0, where three tasks run or wait and none does here.
fn pull<Q: RunQueue>(queue: &Q, own: Option<u16>) -> [u8; 160] {
    let _ = queue.after(None);
    let facts = Pull {
        puller: 1,
        source: 0,
        puller_size: 0,
        source_size: 3,
        queue,
        own,
    };
    let mut context = [0xaa; 160];
    pull_ctx(&facts, &mut context);
    context
}

/// A queue whose only task is not permitted there shows none.
static NONE_IS_SHOWN: [u8; 160] = [
    1, 0, 0, 0, // the puller
    0, 0, 0, 0, // the other
    0, 0, 0, 0, // how many tasks the puller has
    3, 0, 0, 0, // and the other
    0, 0, 0, 0, // how many may be pulled
    0, 0, 0, 0, // how many are shown
    0xff, 0xff, 0xff, 0xff, // no own choice
    0, 0, 0, 0, // not used
    0, 0, 0, 0, 0, 0, 0, 0, 0, 0, 0, 0, 0, 0, 0, 0, //
    0, 0, 0, 0, 0, 0, 0, 0, 0, 0, 0, 0, 0, 0, 0, 0, //
    0, 0, 0, 0, 0, 0, 0, 0, 0, 0, 0, 0, 0, 0, 0, 0, //
    0, 0, 0, 0, 0, 0, 0, 0, 0, 0, 0, 0, 0, 0, 0, 0, //
    0, 0, 0, 0, 0, 0, 0, 0, 0, 0, 0, 0, 0, 0, 0, 0, //
    0, 0, 0, 0, 0, 0, 0, 0, 0, 0, 0, 0, 0, 0, 0, 0, //
    0, 0, 0, 0, 0, 0, 0, 0, 0, 0, 0, 0, 0, 0, 0, 0, //
    0, 0, 0, 0, 0, 0, 0, 0, 0, 0, 0, 0, 0, 0, 0, 0, //
];

/// Of nine tasks that may be pulled eight are shown: of each its id, its weight of 1024, and its v, which is 2^32 and its id.
static EIGHT_ARE_SHOWN: [u8; 160] = [
    1, 0, 0, 0, // the puller
    0, 0, 0, 0, // the other
    0, 0, 0, 0, // how many tasks the puller has
    3, 0, 0, 0, // and the other
    9, 0, 0, 0, // how many may be pulled
    8, 0, 0, 0, // how many are shown
    10, 0, 0, 0, // the own choice
    0, 0, 0, 0, // not used
    10, 0, 0, 0, 0, 4, 0, 0, 10, 0, 0, 0, 1, 0, 0, 0, // task 10
    9, 0, 0, 0, 0, 4, 0, 0, 9, 0, 0, 0, 1, 0, 0, 0, // task 9
    8, 0, 0, 0, 0, 4, 0, 0, 8, 0, 0, 0, 1, 0, 0, 0, // task 8
    7, 0, 0, 0, 0, 4, 0, 0, 7, 0, 0, 0, 1, 0, 0, 0, // task 7
    6, 0, 0, 0, 0, 4, 0, 0, 6, 0, 0, 0, 1, 0, 0, 0, // task 6
    5, 0, 0, 0, 0, 4, 0, 0, 5, 0, 0, 0, 1, 0, 0, 0, // task 5
    4, 0, 0, 0, 0, 4, 0, 0, 4, 0, 0, 0, 1, 0, 0, 0, // task 4
    3, 0, 0, 0, 0, 4, 0, 0, 3, 0, 0, 0, 1, 0, 0, 0, // task 3
];

/// Tasks that may be pulled are shown from the greatest (v, id) on, eight at most.
fn pulls_of_many_tasks<Q: RunQueue>(rt: &impl Abort, alloc: Global, queue: &mut Q) {
    put(rt, alloc, queue, Entity::new(1, 1024, 1, 3_000_000));
    is_true(rt, pull(queue, None) == NONE_IS_SHOWN);
    for id in 2..11 {
        put(rt, alloc, queue, task(id, 4294967296 + u64::from(id), 0));
    }
    is_true(rt, pull(queue, Some(10)) == EIGHT_ARE_SHOWN);
}

/// Of two tasks that wait at the mark the one of the greater id is shown first.
static ONE_OF_TWO: [u8; 160] = [
    1, 0, 0, 0, // the puller
    0, 0, 0, 0, // the other
    0, 0, 0, 0, // how many tasks the puller has
    3, 0, 0, 0, // and the other
    2, 0, 0, 0, // how many may be pulled
    2, 0, 0, 0, // how many are shown
    3, 0, 0, 0, // the own choice
    0, 0, 0, 0, // not used
    3, 0, 0, 0, // the first task
    0, 4, 0, 0, // its weight
    0, 0, 0, 0, 1, 0, 0, 0, // its v
    2, 0, 0, 0, // the second
    0, 4, 0, 0, // its weight
    0, 0, 0, 0, 1, 0, 0, 0, // its v
    0, 0, 0, 0, 0, 0, 0, 0, 0, 0, 0, 0, 0, 0, 0, 0, //
    0, 0, 0, 0, 0, 0, 0, 0, 0, 0, 0, 0, 0, 0, 0, 0, //
    0, 0, 0, 0, 0, 0, 0, 0, 0, 0, 0, 0, 0, 0, 0, 0, //
    0, 0, 0, 0, 0, 0, 0, 0, 0, 0, 0, 0, 0, 0, 0, 0, //
    0, 0, 0, 0, 0, 0, 0, 0, 0, 0, 0, 0, 0, 0, 0, 0, //
    0, 0, 0, 0, 0, 0, 0, 0, 0, 0, 0, 0, 0, 0, 0, 0, //
];

fn a_pull_of_one_of_two<Q: RunQueue>(rt: &impl Abort, alloc: Global, queue: &mut Q) {
    put(rt, alloc, queue, task(2, 4294967296, 0));
    put(rt, alloc, queue, task(3, 4294967296, 0));
    is_true(rt, pull(queue, Some(3)) == ONE_OF_TWO);
}

fn is_settled(rt: &impl Abort, choice: &Choice<Option<u16>>, value: Option<u16>, by: By) {
    is_true(rt, *choice == Choice { value, by });
}

/// The ids and masks of three tasks: 2 and 3 may be pulled by processor 1, and task 1 may not.
static THREE: [(u16, u64); 3] = [(1, 1), (2, 3), (3, 3)];

/// Puts them into a queue.
fn fill<Q: RunQueue>(rt: &impl Abort, alloc: Global, queue: &mut Q) {
    for (id, mask) in &THREE {
        put(rt, alloc, queue, Entity::new(*id, 1024, *mask, 3_000_000));
    }
}

/// What a policy answers, the own answer, and which task is then pulled, and by whom.
static SETTLED: [(Option<u64>, Option<u16>, Option<u16>, By); 9] = [
    (None, Some(3), Some(3), By::Discipline),
    (Some(1), Some(3), Some(3), By::Discipline),
    (Some(2), Some(3), Some(2), By::Policy),
    (Some(3), Some(3), Some(3), By::Policy),
    (Some(4294967295), Some(3), None, By::Policy),
    (Some(u64::MAX), Some(3), Some(3), By::Discipline),
    (Some(65538), Some(3), Some(3), By::Discipline),
    (Some(7), Some(3), Some(3), By::Discipline),
    (Some(1), None, None, By::Discipline),
];

/// Which of the three are pulled.
fn pulls_that_are_permitted<Q: RunQueue>(rt: &impl Abort, alloc: Global, queue: &mut Q) {
    fill(rt, alloc, queue);
    for (r0, own, value, by) in &SETTLED {
        is_settled(rt, &settle_pull(*r0, queue, 1, *own), *value, *by);
    }
}

/// What policies are shown of queues of that kind, and which of their answers are taken.
fn contexts_of<Q: RunQueue + Drop>(rt: &impl Abort, alloc: Global) {
    a_preemption_beside_one_task(rt, alloc, &mut Q::empty());
    a_preemption_of_a_task_alone(rt, &Q::empty());
    pulls_of_many_tasks(rt, alloc, &mut Q::empty());
    a_pull_of_one_of_two(rt, alloc, &mut Q::empty());
    pulls_that_are_permitted(rt, alloc, &mut Q::empty());
}

/// The list and the tree show the same contexts under both rules.
#[test]
fn contexts_of_each_queue(rt: HostRuntime) {
    contexts_of::<CfsQueue>(&rt, rt.alloc());
    contexts_of::<List<Cfs>>(&rt, rt.alloc());
    contexts_of::<EevdfQueue>(&rt, rt.alloc());
    contexts_of::<List<Eevdf>>(&rt, rt.alloc());
}
