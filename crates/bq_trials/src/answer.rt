//! What a run queue answers, as numbers.
ghost use Rattle.std.specs.Prelude.{◌≡◌, ◌<◌, ◌≤◌};
ghost use Rattle.bq_disc.specs.declared.clock.TheConstants.{LATEST};
ghost use Rattle.bq_disc.specs.Chains.{task_of, IsLone};

use crate::command::{Command, Newcomer};
use bq_disc::limits::PROCESSORS;
use bq_disc::{Entity, Entry, Node, RunQueue};
use std::alloc::Global;
use std::process::Abort;

/// A part of an answer as numbers; those that it does not need are 0.
type Part = [i128; 5];

/// What a queue answers a command, which task is then its first, and how many tasks it then has and the mark that it keeps.
pub(crate) type Answer = [Part; 3];

const NOTHING: Part = [0; 5];

/// What tells a task from others, and where it stands.
fn part_of_task(entity: &Entity) -> Part {
    [
        1,
        i128::from(entity.id()),
        i128::from(entity.v()),
        i128::from(entity.deadline()),
        i128::from(entity.rel()),
    ]
}

/// The task that was moved, charged or found; nothing if there is no task.
fn shown(entity: Option<Entity>) -> Part {
    match entity {
        None => NOTHING,
        Some(entity) => part_of_task(&entity),
    }
}

fn node_shown(node: Option<&Node>) -> Part {
    match node {
        None => NOTHING,
        Some(node) => part_of_task(&node.entity),
    }
}

/// An id and one more, or 0 if there is no task.
fn id_shown(id: Option<u16>) -> i128 {
    match id {
        None => 0,
        Some(id) => i128::from(id) + 1,
    }
}

fn runs(current: &Option<Entity>, id: u16) -> bool {
    match current {
        None => false,
        Some(entity) => entity.id() == id,
    }
}

/// A node of that task, linked to none.
fn node_of(entity: &Entity) -> Node
    ensures task { task_of result ≡ entity.now }
    ensures lone { IsLone result }
{
    let mut node = Node::new(entity.id(), entity.weight(), entity.mask(), entity.slice());
    node.entity = *entity;
    node
}

/// Puts a task into a queue, unless its id is there. It answers whether it was not.
pub(crate) fn put<Q: RunQueue>(
    rt: &impl Abort,
    alloc: Global,
    queue: &mut Q,
    entity: Entity,
) -> bool {
    if queue.get(entity.id()).is_some() {
        return false;
    }
    queue.insert(Box::new(alloc, node_of(&entity)).expect(rt, "memory"));
    true
}

/// Takes a task out of a queue.
fn taken<Q: RunQueue>(queue: &mut Q, id: u16) -> Option<Entity> {
    let node = queue.take(id)?;
    Some(node.entity)
}

/// The task that should run in the place of the current one, or where nothing runs.
fn next_of<Q: RunQueue>(queue: &Q, current: &Option<Entity>) -> Option<u16> {
    match current {
        None => queue.choice(None),
        Some(entity) => queue.next(&node_of(entity)),
    }
}

/// The choice over queue and current, that of the queue by itself, whom the current gives way to, and whether it wants to.
fn choices<Q: RunQueue>(queue: &Q, current: &Option<Entity>) -> Part {
    let queued = id_shown(queue.choice(None));
    match current {
        None => [queued, queued, queued, 0, 0],
        Some(entity) => {
            let node = node_of(entity);
            [
                id_shown(queue.choice(Some(&node))),
                queued,
                id_shown(queue.next(&node)),
                i128::from(queue.wants_preempt(&node)),
                0,
            ]
        }
    }
}

fn mark<Q: RunQueue>(queue: &mut Q, current: &Option<Entity>) -> u64 {
    match current {
        None => queue.update_mark(None),
        Some(entity) => queue.update_mark(Some(&node_of(entity))),
    }
}

/// Some ids in base 1024 by 1 more.
fn ids_shown(ids: &[u16]) -> i128 {
    let mut shown = 0i128;
    for id in ids {
        shown = shown.wrapping_mul(1024).wrapping_add(i128::from(*id) + 1);
    }
    shown
}

/// How many may go, the ids of the first eight, and whether one may go.
fn movable<Q: RunQueue>(queue: &Q, processor: u8, id: u16) -> Part
    requires { processor < PROCESSORS }
{
    let found = queue.movable(processor);
    [
        i128::from(found.count),
        ids_shown(found.first.as_slice()),
        i128::from(queue.is_movable(id, processor)),
        0,
        0,
    ]
}

/// A task that leaves takes along how far it is from the mark.
fn left<Q: RunQueue>(queue: &Q, task: Option<Entity>) -> Option<Entity> {
    let mut node = node_of(&task?);
    queue.leave(&mut node);
    Some(node.entity)
}

/// A task that has run for a time.
fn charged<Q: RunQueue>(queue: &Q, task: Option<Entity>, time: u64) -> Option<Entity>
    requires { time ≤ LATEST }
{
    let mut node = node_of(&task?);
    queue.charge(&mut node, time);
    Some(node.entity)
}

/// The next task runs in the place of the current one.
fn run_next<Q: RunQueue>(
    rt: &impl Abort,
    alloc: Global,
    queue: &mut Q,
    current: &mut Option<Entity>,
) -> Option<Entity> {
    let id = next_of(queue, current)?;
    let before = *current;
    *current = taken(queue, id);
    if let Some(old) = before {
        put(rt, alloc, queue, old);
    }
    *current
}

/// A task as it enters, woken or pulled.
fn entered<Q: RunQueue>(queue: &Q, entity: &Entity, pulled: bool) -> Entity {
    let mut node = node_of(entity);
    queue.enter(&mut node, if pulled { Entry::Pull } else { Entry::Wake });
    node.entity
}

/// The task that a newcomer is.
fn admitted_task(newcomer: &Newcomer) -> Entity {
    let mut entity = Entity::new(
        newcomer.id,
        newcomer.weight.clamp(15, 88761),
        newcomer.mask,
        newcomer.slice.clamp(100_000, 100_000_000),
    );
    entity.set_rel(newcomer.rel);
    entity
}

/// A task enters, unless it is there or runs.
fn enter<Q: RunQueue>(
    rt: &impl Abort,
    alloc: Global,
    queue: &mut Q,
    current: &Option<Entity>,
    newcomer: &Newcomer,
) -> Part {
    if runs(current, newcomer.id) {
        return NOTHING;
    }
    let entity = entered(queue, &admitted_task(newcomer), newcomer.pulled);
    if put(rt, alloc, queue, entity) {
        part_of_task(&entity)
    } else {
        NOTHING
    }
}

/// The current task has run for a time.
fn charge<Q: RunQueue>(queue: &Q, current: &mut Option<Entity>, time: u64) -> Part {
    *current = charged(queue, *current, time % (1 << 48));
    shown(*current)
}

/// A task leaves the queue.
fn take<Q: RunQueue>(queue: &mut Q, id: u16) -> Part {
    let task = taken(queue, id);
    shown(left(queue, task))
}

/// What a queue answers a command, which may change it and the current task.
fn answered<Q: RunQueue>(
    rt: &impl Abort,
    alloc: Global,
    queue: &mut Q,
    current: &mut Option<Entity>,
    command: &Command,
) -> Part {
    match command {
        Command::Insert(newcomer) => enter(rt, alloc, queue, current, newcomer),
        Command::Next => shown(run_next(rt, alloc, queue, current)),
        Command::Take { id } => take(queue, *id),
        Command::Choose => choices(queue, current),
        Command::Charge { time } => charge(queue, current, *time),
        Command::Mark => [i128::from(mark(queue, current)), 0, 0, 0, 0],
        Command::Leave => shown(left(queue, current.take())),
        Command::After { v, id } => node_shown(queue.after(Some((*v, *id)))),
        Command::Movable { processor, id } => movable(queue, *processor % 64, *id),
    }
}

/// Does a command, and tells what the queue answers and how it then stands.
pub(crate) fn perform<Q: RunQueue>(
    rt: &impl Abort,
    alloc: Global,
    queue: &mut Q,
    current: &mut Option<Entity>,
    command: &Command,
) -> Answer {
    let answer = answered(rt, alloc, queue, current, command);
    let first = node_shown(queue.after(None));
    let size = [queue.len() as i128, i128::from(queue.mark()), 0, 0, 0];
    [answer, first, size]
}
