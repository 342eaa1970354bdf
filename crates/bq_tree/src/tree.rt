//! The tree with what finds a task at once: the key of its first task, and a table of each id's v.
ghost use Rattle.std.specs.Prelude.{◌≡◌, ◌<◌, ◌≤◌, ◌^◌, ◌++◌, ℕ, ◌==◌, false, List, [], length, None, IfSome, IfNone, slice_index};
ghost use Rattle.std.specs.Option.{option_map, option_map_or, option_to_list};
ghost use Rattle.bq_disc.specs.Tasks.{Task, find_task};
ghost use Rattle.bq_disc.specs.Chains.{task_of, IsLone};
ghost use Rattle.bq_tree.specs.Trees.{in_order_behind};
ghost use Rattle.bq_tree.specs.Sound.{Knows, first_key, lesser_of};
ghost use Rattle.bq_weights.specs.declared.TheConstants.{GREATEST_V};

use crate::edits::{insert_into, pop_least, take_from};
use crate::summary::Summary;
use crate::{balance, walks};
use bq_disc::limits::TASKS;
use bq_disc::node::Link;
use bq_disc::{Deadline, Movable, Node, TaskOrder, Totals};
use std::marker::{Model, PhantomData};

/// The number of ids that the table has room for: all ids.
const IDS: usize = TASKS as usize;

/// Tasks with distinct ids, by rising (v, id), as a balanced tree of their own nodes. Each node knows what `S` says.
#[derive(Drop)]
pub struct Tree<S: Summary> {
    root: Link,
    len: usize,
    least: Option<(u64, u16)>,
    times: [u64; IDS],
    summary: PhantomData<S>,
}

impl<S: Summary> Model for Tree<S> {
    ghost use Rattle.std.specs.Prelude.{List};
    ghost use Rattle.std.specs.Coded.{coded_list};
    ghost use Rattle.bq_disc.specs.Tasks.{Task, coded_task};

    ghost Value = { List Task };

    ghost coded = { coded_list coded_task };

    ghost use Rattle.bq_tree.specs.Trees.{in_order_behind};
    ghost use Rattle.bq_tree.specs.Sound.{IsSound};

    ghost view = { λ t. in_order_behind t.root };

    ghost invariant = { λ t. IsSound S.knows t.root t.len t.least t.times };
}

impl<S: Summary> Tree<S> {
    /// How many levels the tree has.
    pub fn height(&self) -> u8
        ensures low { length self.now ≤ TASKS → result ≤ 14 }
        ensures high { length self.now < 2 ^ result }
    {
        balance::height(&self.root)
    }

    /// Takes out the first task.
    fn take_least(&mut self) -> Option<Box<Node>>
        ensures order { self.old ≡ option_to_list (option_map (λ b. task_of b.value) result) ++ self.new }
        ensures none { IfNone result (self.new ≡ []) }
        ensures lone { IfSome result (λ b. IsLone b.value) }
    {
        let least = pop_least::<S>(&mut self.root)?;
        self.len -= 1;
        self.least = first_key(&self.root);
        Some(least)
    }
}

impl<S: Summary> TaskOrder for Tree<S> {
    ghost tasks = { λ t. t };

    fn empty() -> Tree<S> {
        Tree {
            root: None,
            len: 0,
            least: None,
            times: zeros(),
            summary: PhantomData,
        }
    }

    fn len(&self) -> usize {
        self.len
    }

    fn insert(&mut self, node: Box<Node>) {
        let key = node.entity.key();
        self.least = Some(lesser(key, self.least));
        remember(&mut self.times, key.1, key.0);
        insert_into::<S>(&mut self.root, node);
        self.len += 1;
    }

    fn take(&mut self, id: u16) -> Option<Box<Node>> {
        if has_id(self.least, id) {
            return self.take_least();
        }
        let v = time_of(&self.times, &self.root, id);
        let Some(taken) = take_from::<S>(&mut self.root, v, id) else {
            return None;
        };
        self.len -= 1;
        Some(taken)
    }

    fn get(&self, id: u16) -> Option<&Node> {
        walks::get_at(&self.root, time_of(&self.times, &self.root, id), id)
    }

    fn after(&self, last: Option<(u64, u16)>) -> Option<&Node> {
        match last {
            None => walks::least(&self.root),
            Some((v, id)) => walks::after(&self.root, v, id),
        }
    }

    fn movable(&self, processor: u8) -> Movable {
        let mut found = Movable::new();
        walks::movable_into(&self.root, processor, &mut found);
        found
    }

    fn least(&self) -> Option<(u64, u16)> {
        self.least
    }

    fn totals(&self) -> Totals {
        S::totals(&self.root)
    }

    fn earliest_at_most_mean(&self, weight: u64, moment: u128) -> Option<Deadline> {
        S::earliest_at_most_mean(&self.root, weight, moment)
    }
}

/// A table in which nothing is written yet.
fn zeros<const N: usize>() -> [u64; N] {
    [0; N]
}

/// The lesser of a key and `least`; the key if there is no `least`.
fn lesser(key: (u64, u16), least: Option<(u64, u16)>) -> (u64, u16)
    ensures value { result ≡ lesser_of key least }
    ensures high { key.0 ≤ GREATEST_V → IfSome least (λ k. k.0 ≤ GREATEST_V) → result.0 ≤ GREATEST_V }
{
    let Some(least) = least else { return key };
    if key.0 < least.0 || (key.0 == least.0 && key.1 < least.1) {
        return key;
    }
    least
}

/// Whether there is a key and it has this id.
fn has_id(key: Option<(u64, u16)>, id: u16) -> bool
    ensures { result ≡ option_map_or (λ (k : ℕ × ℕ). k.1 == id) key false }
{
    match key {
        None => false,
        Some(key) => key.1 == id,
    }
}

/// The key of a tree's first task.
fn first_key(root: &Link) -> Option<(u64, u16)>
    ensures key { result ≡ first_key (in_order_behind root.now) }
    ensures high { IfSome result (λ key. key.0 ≤ GREATEST_V) }
{
    match walks::least(root) {
        None => None,
        Some(node) => Some(node.entity.key()),
    }
}

/// Records the v of the task with this id, if the table has room for the id.
fn remember(times: &mut [u64; IDS], id: u16, v: u64)
    ensures others { (xs : List Task) → find_task id xs ≡ None → Knows times.old xs → Knows times.new xs }
    ensures here { id < TASKS → slice_index times.new id ≡ v }
{
    let place = usize::from(id);
    if place < IDS {
        times[place] = v;
    }
}

/// The v of the task with this id, if there is one; else the number means nothing.
fn time_of(times: &[u64; IDS], root: &Link, id: u16) -> u64
    requires knows { Knows times.now (in_order_behind root.now) }
    ensures { IfSome (find_task id (in_order_behind root.now)) (λ t. t.v ≡ result) }
{
    let place = usize::from(id);
    if place < IDS {
        return times[place];
    }
    match walks::find_id(root, id) {
        Some(node) => node.entity.v(),
        None => 0,
    }
}
