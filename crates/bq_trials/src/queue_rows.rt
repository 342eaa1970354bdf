//! The queues on the tree beside the plain list, and worked rows whose values come from outside this program.

ghost use Rattle.bq_weights.specs.VirtualTime.{IsWeight};

use crate::answer::{Answer, perform, put};
use crate::asserting::{is_number, is_task, is_true};
use crate::command::Draws;
use bq_cfs::{Cfs, CfsQueue};
use bq_disc::{Entity, Entry, List, Node, RuledQueue, RunQueue};
use bq_eevdf::{Eevdf, EevdfQueue};
use bq_tree::{NoSums, Tree};
use std::alloc::Global;
use std::process::Abort;

/// Two queues answer a command alike.
fn answers_alike(rt: &impl Abort, row: u32, a: &Answer, b: &Answer) {
    assert!(rt; a == b, "command {row}");
}

/// Gives a list of commands to two queues, and compares each answer.
fn agree<A: RunQueue, B: RunQueue>(
    rt: &impl Abort,
    alloc: Global,
    a: &mut A,
    b: &mut B,
    commands: u32,
) {
    let mut draws = Draws::new(20);
    let mut current_a: Option<Entity> = None;
    let mut current_b: Option<Entity> = None;
    for row in 0..commands {
        let command = draws.command();
        let from_a = perform(rt, alloc, a, &mut current_a, &command);
        let from_b = perform(rt, alloc, b, &mut current_b, &command);
        answers_alike(rt, row, &from_a, &from_b);
    }
    is_true(rt, a.len() > 100);
}

/// Gives a list of commands to two empty queues.
fn begin_alike<A: RunQueue + Drop, B: RunQueue + Drop>(
    rt: &impl Abort,
    alloc: Global,
    commands: u32,
) {
    agree(rt, alloc, &mut A::empty(), &mut B::empty(), commands);
}

/// Under CFS the tree and the plain list answer 20,000 drawn commands alike.
#[test]
fn the_tree_answers_as_the_list_under_cfs(rt: HostRuntime) {
    begin_alike::<CfsQueue, List<Cfs>>(&rt, rt.alloc(), 20_000);
}

/// And under EEVDF.
#[test]
fn the_tree_answers_as_the_list_under_eevdf(rt: HostRuntime) {
    begin_alike::<EevdfQueue, List<Eevdf>>(&rt, rt.alloc(), 20_000);
}

/// A tree whose nodes know no sums is walked where EEVDF asks for them.
#[test]
fn a_tree_without_sums_answers_as_the_list(rt: HostRuntime) {
    begin_alike::<RuledQueue<Tree<NoSums>, Eevdf>, List<Eevdf>>(&rt, rt.alloc(), 5_000);
}

/// A queue's task of nice 0: its id, v and deadline.
type Row = (u16, u64, u64);

/// Puts some tasks of nice 0 into a queue.
fn fill<Q: RunQueue>(rt: &impl Abort, alloc: Global, queue: &mut Q, rows: &[Row]) {
    for row in rows {
        let (id, v, deadline) = *row;
        let mut entity = Entity::new(id, 1024, 1, 3_000_000);
        entity.set_times(v.min(1 << 62), deadline.min(1 << 62));
        is_true(rt, put(rt, alloc, queue, entity));
    }
}

/// Tasks of nice 0, which of them a queue chooses, and its mark.
type QueueChoice = (&'static [Row], u16, u64);

/// The earliest deadline is chosen while it is eligible, and once its task is past the mean the other one is; of equal
/// deadlines that of the lesser id. The mark is the mean, rounded down.
static CHOICES: [QueueChoice; 5] = [
    // both are at the mark
    (
        &[(1, 4294967296, 4297967296), (2, 4294967296, 4295067296)],
        2,
        4294967296,
    ),
    // the second has run
    (
        &[(1, 4294967296, 4297967296), (2, 4295067296, 4295167296)],
        1,
        4295017296,
    ),
    // and again
    (
        &[(1, 4295117296, 4298117296), (2, 4295167296, 4295267296)],
        1,
        4295142296,
    ),
    // equal deadlines
    (&[(7, 4, 9), (3, 5, 9), (9, 100, 1000)], 3, 36),
    // half past the mean
    (&[(7, 4, 10), (3, 5, 9)], 7, 4),
];

/// What a queue of the tasks chooses, and its mark.
fn chooses<Q: RunQueue>(rt: &impl Abort, alloc: Global, queue: &mut Q, choice: &QueueChoice) {
    let (rows, chosen, mark) = *choice;
    fill(rt, alloc, queue, rows);
    is_task(rt, queue.choice(None), Some(chosen));
    is_number(rt, queue.update_mark(None), mark);
}

/// Puts 1,024 greatest tasks into a queue.
fn fill_with_greatest<Q: RunQueue>(rt: &impl Abort, alloc: Global, queue: &mut Q) {
    for id in 0..1024 {
        let mut entity = Entity::new(1023 - id, 88761, 1, 3_000_000);
        entity.set_times(1 << 62, 1 << 62);
        put(rt, alloc, queue, entity);
    }
}

/// They are chosen by their ids, until none is left.
fn are_chosen_in_order<Q: RunQueue>(rt: &impl Abort, queue: &mut Q) {
    for id in 0..1024 {
        is_task(rt, queue.choice(None), Some(id));
        is_true(rt, queue.take(id).is_some());
    }
    is_task(rt, queue.choice(None), None);
}

/// Sums of 1,024 greatest tasks fit: all are eligible, since none is past the mean, and of equal deadlines the least id
/// is chosen.
fn greatest_tasks_are_all_eligible<Q: RunQueue>(rt: &impl Abort, alloc: Global, queue: &mut Q) {
    fill_with_greatest(rt, alloc, queue);
    is_number(rt, queue.len() as u64, 1024);
    is_number(rt, queue.update_mark(None), 1 << 62);
    are_chosen_in_order(rt, queue);
}

/// The task of a row wakes so.
fn wakes<Q: RunQueue>(rt: &impl Abort, queue: &Q, row: &Wake) {
    let (weight, slice, rel, v, deadline) = *row;
    let mut node = Node::new(
        1,
        weight.clamp(15, 88761),
        1,
        slice.clamp(100_000, 100_000_000),
    );
    node.entity.set_rel(rel);
    queue.enter(&mut node, Entry::Wake);
    is_number(rt, node.entity.v(), v);
    is_number(rt, node.entity.deadline(), deadline);
}

/// A task's weight, its slice, how far it was from the mark, and its v and its deadline once it woke.
type Wake = (u32, u64, i64, u64, u64);

/// A woken task keeps its lag as far as one slice's virtual time, at the mark of a queue that is empty.
static WAKES_UNDER_EEVDF: [Wake; 3] = [
    (1024, 100_000, 250_000, 4295067296, 4295167296),
    (1024, 100_000, -250_000, 4294867296, 4294967296),
    (335, 3_000_000, -10_000_000, 4285797147, 4294967296),
];

/// A woken task is at most 3,000,000 behind the mark of a queue that is empty, whatever its slice. CFS has no deadlines.
static WAKES_UNDER_CFS: [Wake; 3] = [
    (1024, 3_000_000, 250_000, 4295217296, 0),
    (1024, 3_000_000, -3_000_000, 4291967296, 0),
    (1024, 100_000, -3_000_001, 4291967296, 0),
];

/// The tasks of some rows wake so.
fn all_wake<Q: RunQueue>(rt: &impl Abort, queue: &Q, rows: &[Wake]) {
    for row in rows {
        wakes(rt, queue, row);
    }
}

/// Worked rows of EEVDF: choices and marks, many great tasks, and wakes.
fn rows_under_eevdf<Q: RunQueue + Drop>(rt: &impl Abort, alloc: Global) {
    for choice in &CHOICES {
        chooses(rt, alloc, &mut Q::empty(), choice);
    }
    greatest_tasks_are_all_eligible(rt, alloc, &mut Q::empty());
    all_wake(rt, &Q::empty(), &WAKES_UNDER_EEVDF);
}

/// Both queues under EEVDF choose, mark and wake as the rows say.
#[test]
fn rows_of_eevdf(rt: HostRuntime) {
    rows_under_eevdf::<EevdfQueue>(&rt, rt.alloc());
    rows_under_eevdf::<List<Eevdf>>(&rt, rt.alloc());
}

/// A task that begins at 2^32.
fn started(weight: u32) -> Node
    requires { IsWeight weight }
{
    let mut node = Node::new(1, weight, 1, 3_000_000);
    node.entity.set_times(4294967296, 0);
    node
}

/// The current task gives way to another only beyond 1,000,000.
fn gives_way<Q: RunQueue>(rt: &impl Abort, queue: &mut Q, node: &mut Node) {
    is_task(rt, queue.choice(Some(node)), Some(1));
    queue.charge(node, 1_000_000);
    is_true(rt, !queue.wants_preempt(node));
    queue.charge(node, 1);
    is_true(rt, queue.wants_preempt(node));
    is_task(rt, queue.next(node), Some(2));
    is_number(rt, queue.update_mark(Some(node)), 4294967296);
}

/// Task 1 runs beside task 2.
fn gives_way_to_one<Q: RunQueue>(rt: &impl Abort, alloc: Global, queue: &mut Q) {
    fill(rt, alloc, queue, &[(2, 4294967296, 0)]);
    gives_way(rt, queue, &mut started(1024));
}

/// A queue without others has its mark at the task that has run.
fn mark_follows<Q: RunQueue>(rt: &impl Abort, queue: &mut Q, node: &mut Node) {
    queue.charge(node, 10_000_000);
    is_number(rt, queue.update_mark(Some(node)), 4325534460);
}

/// And it keeps it.
fn mark_stays<Q: RunQueue>(rt: &impl Abort, queue: &mut Q, node: &mut Node) {
    queue.charge(node, (1 << 48) - 1);
    is_number(rt, node.entity.v(), 281479271677951);
    is_number(rt, queue.update_mark(Some(node)), 281479271677951);
    is_number(rt, queue.update_mark(None), 281479271677951);
}

fn marks_of_a_task_alone<Q: RunQueue>(rt: &impl Abort, queue: &mut Q) {
    mark_follows(rt, queue, &mut started(335));
    mark_stays(rt, queue, &mut started(1024));
}

/// The current task gives way only beyond 1,000,000, and its time counts by its weight; and wakes.
fn rows_under_cfs<Q: RunQueue + Drop>(rt: &impl Abort, alloc: Global) {
    gives_way_to_one(rt, alloc, &mut Q::empty());
    marks_of_a_task_alone(rt, &mut Q::empty());
    all_wake(rt, &Q::empty(), &WAKES_UNDER_CFS);
}

/// The queue under CFS gives way, marks and wakes as the rows say.
#[test]
fn rows_of_cfs(rt: HostRuntime) {
    rows_under_cfs::<CfsQueue>(&rt, rt.alloc());
}
