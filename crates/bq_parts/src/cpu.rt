//! One processor: its queue, the running task, the clock, the task in its hand, and what is installed at its hooks.
ghost use Rattle.std.specs.Prelude.{◌≡◌, ◌<◌, ◌≤◌, ◌^◌, ◌+◌, ℕ, [], Option, Some, None, IfSome, find, is_some};
ghost use Rattle.std.specs.Option.{option_map};
ghost use Rattle.bq_disc.specs.Tasks.{id_of, find_task};
ghost use Rattle.bq_disc.specs.Queues.{follows, HasDistinctIds};
ghost use Rattle.bq_disc.specs.Rising.{IsRising};
ghost use Rattle.bq_disc.specs.Pulls.{pull_of};
ghost use Rattle.bq_disc.specs.Discipline.{left_at};
ghost use Rattle.bq_disc.specs.Chains.{task_of, chain_behind, IsStraightBehind};
ghost use Rattle.bq_disc.specs.OneProcessor.{charge, marked, choice_started, switched, enter_all, entered, present_at};
ghost use Rattle.bq_installed.specs.Installed.{at_hook, IsFor};
ghost use Rattle.bq_installed.specs.Standing.{WasAnswered};
ghost use Rattle.bq_parts.specs.Processors.{new_processor, with_at_hook, load_of, size_of, count_of_id, HasEachOnce};
ghost use Rattle.bq_parts.specs.Moves.{taken_from, without_task, with_pulled, started_if_idle};

use crate::{Carried, Inbox, Unlinked};
use bq_bpf::RunResult;
use bq_disc::clock::LATEST;
use bq_disc::limits::{FIRST_MARK, PROCESSORS};
use bq_disc::node::{self, Link};
use bq_disc::{Entry, Node, RunQueue};
use bq_hooks::Hook;
use bq_installed::{Hooks, Installed};
use std::marker::Model;

/// One processor of the world. A call whose contract has a clause `share` does the processor's share of an event. The other calls
/// make a processor, only read one, or are pieces of such calls.
#[derive(Drop)]
pub struct Cpu<Q: RunQueue> {
    pub(crate) queue: Q,
    pub(crate) current: Option<Unlinked>,
    /// The last reading of the clock, in nanoseconds.
    pub(crate) last_reading: u64,
    hand: Option<Carried>,
    pub(crate) hooks: Hooks,
}

impl<Q: RunQueue> Model for Cpu<Q> {
    ghost use Rattle.std.specs.Prelude.{◌≤◌};
    ghost use Rattle.bq_disc.specs.declared.clock.TheConstants.{LATEST};
    ghost use Rattle.bq_parts.specs.Processors.{Processor};

    ghost Value = { Processor };

    ghost view = { λ c. record { running = record { queue = Q.members c.queue; mark = Q.last_mark c.queue; current = c.current; last = c.last_reading }; hand = c.hand; hooks = c.hooks } };

    ghost invariant = { λ c. c.last_reading ≤ LATEST };
}

/// Returns the node of the running task, or `None` if no task runs.
fn node_of(current: &Option<Unlinked>) -> Option<&Node>
    ensures { option_map (λ n. task_of n.now) result ≡ current.now }
{
    match current {
        None => None,
        Some(task) => Some(task.node()),
    }
}

impl<Q: RunQueue> Cpu<Q> {
    /// Makes a processor to which nothing has come, with nothing installed at its hooks.
    pub fn new() -> Cpu<Q>
        ensures { result ≡ new_processor }
    {
        Cpu::with_queue(Q::empty())
    }

    /// Makes a processor of an empty queue that the caller hands in. Nothing runs there, and nothing is installed at its hooks.
    pub fn with_queue(queue: Q) -> Cpu<Q>
        requires empty { Q.members queue ≡ [] }
        requires mark { Q.last_mark queue ≡ FIRST_MARK }
        ensures { result ≡ new_processor }
    {
        Cpu {
            queue,
            current: None,
            last_reading: 0,
            hand: None,
            hooks: Hooks::new(),
        }
    }

    /// Returns the node of the running task, or `None` if no task runs.
    pub fn current(&self) -> Option<&Node>
        ensures { option_map (λ n. task_of n.now) result ≡ self.now.running.current }
    {
        node_of(&self.current)
    }

    /// Returns the id of the running task, or `None` if no task runs.
    pub fn running_id(&self) -> Option<u16>
        ensures { result ≡ id_of self.now.running.current }
    {
        match &self.current {
            None => None,
            Some(task) => Some(task.id()),
        }
    }

    /// Returns the mark as it was last computed, in virtual nanoseconds.
    pub fn mark(&self) -> u64
        ensures { result ≡ self.now.running.mark }
    {
        self.queue.mark()
    }

    /// Returns the queue's task of least (v, id) above `key`, or its task of least (v, id) of all if there is no `key`.
    pub fn after(&self, key: Option<(u64, u16)>) -> Option<&Node>
        ensures task { option_map (λ n. task_of n.now) result ≡ find (follows key) self.now.running.queue }
        ensures rising { IsRising self.now.running.queue }
        ensures distinct { HasDistinctIds self.now.running.queue }
    {
        self.queue.after(key)
    }

    /// Returns the generation of what is installed at a hook, or 0 if nothing has been installed.
    pub fn generation(&self, hook: Hook) -> u64
        ensures { result ≡ (at_hook hook self.now.hooks).generation }
    {
        self.hooks.generation(hook)
    }

    /// Returns the last answer of the policy at a hook, with its steps: some run of the policy gives it. Returns `None` if the policy
    /// has not been asked since it was installed.
    pub fn answered(&self, hook: Hook) -> Option<RunResult>
        ensures { WasAnswered (at_hook hook self.now.hooks).policy result }
    {
        self.hooks.answered(hook)
    }

    /// Counts the tasks that run or wait in the queue.
    pub fn size(&self) -> usize
        requires { size_of self.now < 2 ^ 32 }
        ensures { result ≡ size_of self.now }
    {
        match &self.current {
            None => self.queue.len(),
            Some(_) => self.queue.len() + 1,
        }
    }

    /// Counts the tasks that run or wait here, those of the inbox included.
    pub fn load(&self, inbox: &Inbox) -> u32
        requires few { load_of self.now inbox.now < 2 ^ 32 }
        ensures { result ≡ load_of self.now inbox.now }
    {
        self.size() as u32 + inbox.len()
    }

    /// Charges the current task for the time up to `now`, and computes the mark again.
    pub fn charge(&mut self, now: u64)
        ensures { self.new ≡ record self.old { running = charge Q.R.discipline self.old.running now } }
    {
        let at = self.last_reading.max(now.min(LATEST));
        if let Some(task) = self.current.take() {
            let mut node = task.into_node();
            self.queue.charge(&mut node, at - self.last_reading);
            self.current = Some(Unlinked::new(node));
        }
        self.last_reading = at;
        self.update_mark();
    }

    /// Computes the mark again.
    pub fn update_mark(&mut self)
        ensures { self.new ≡ record self.old { running = marked Q.R.discipline self.old.running } }
    {
        self.queue.update_mark(node_of(&self.current));
    }

    /// Starts to run the queue's choice.
    pub fn start(&mut self)
        requires { self.old.running.current ≡ None }
        ensures { self.new ≡ record self.old { running = choice_started Q.R.discipline self.old.running } }
    {
        if let Some(id) = self.queue.choice(None) {
            if let Some(node) = self.queue.take(id) {
                self.current = Some(Unlinked::new(node));
            }
        }
    }

    /// Starts to run the queue's choice if nothing runs.
    pub fn start_if_idle(&mut self)
        ensures { self.new ≡ record self.old { running = started_if_idle Q.R.discipline self.old.running self.old.running.current } }
    {
        if self.current.is_none() {
            self.start();
        }
    }

    /// Exchanges the current task with the next one, unless they are one and the same.
    pub fn switch(&mut self)
        requires once { HasEachOnce (present_at self.old.running) }
        ensures { self.new ≡ record self.old { running = switched Q.R.discipline self.old.running self.old.running.current } }
    {
        let Some(current) = &self.current else {
            return;
        };
        let Some(id) = self.queue.next(current.node()) else {
            return;
        };
        let Some(next) = self.queue.take(id) else {
            return;
        };
        if let Some(current) = self.current.replace(Unlinked::new(next)) {
            self.queue.insert(current.into_node());
        }
    }

    /// Lets the tasks of a chain enter the queue in their order, as woken tasks.
    pub fn enter_all(&mut self, tasks: Link)
        requires straight { IsStraightBehind tasks }
        requires apart { (id : ℕ) → count_of_id id self.old.running.queue + count_of_id id (chain_behind tasks) ≤ 1 }
        ensures { self.new ≡ record self.old { running = enter_all Q.R.discipline self.old.running (chain_behind tasks) } }
    {
        enter_chain(&mut self.queue, tasks);
    }

    /// Takes the running task, if any, from the processor, whose number is `processor`. The task goes to sleep.
    pub fn leave(&mut self, processor: u8) -> Option<Unlinked>
        ensures task { result ≡ option_map (λ t. record (left_at self.old.running.mark t) { prev = Some processor }) self.old.running.current }
        ensures left { self.new ≡ record self.old { running = record self.old.running { current = None } } }
    {
        let Some(task) = self.current.take() else {
            return None;
        };
        let mut node = task.into_node();
        self.queue.leave(&mut node);
        node.entity.set_prev(processor);
        Some(Unlinked::new(node))
    }

    /// Returns the id of the task that the discipline would move to a processor with `size` tasks, or `None` if it would move none.
    pub fn own_pull(&self, processor: u8, size: usize) -> Option<u16>
        requires inside { processor < PROCESSORS }
        requires few { size_of self.now < 2 ^ 32 }
        ensures { result ≡ id_of (pull_of processor size (size_of self.now) self.now.running.queue) }
    {
        self.queue.own_pull(processor, size, self.size())
    }

    /// Takes the task with this id, if any, out of the queue, for another processor's.
    pub fn give(&mut self, task: Option<u16>) -> Option<Unlinked>
        ensures task { result ≡ taken_from self.old.running task }
        ensures rest { self.new ≡ record self.old { running = without_task self.old.running task } }
    {
        let Some(id) = task else {
            return None;
        };
        let Some(mut node) = self.queue.take(id) else {
            return None;
        };
        self.queue.leave(&mut node);
        Some(Unlinked::new(node))
    }

    /// Lets a task from another processor's queue, if there is one, enter the queue.
    pub fn accept(&mut self, task: Option<Unlinked>)
        requires fresh { IfSome task (λ t. find_task t.id self.old.running.queue ≡ None) }
        ensures { self.new ≡ record self.old { running = with_pulled Q.R.discipline self.old.running task } }
    {
        if let Some(task) = task {
            let mut node = task.into_node();
            self.queue.enter(&mut node, Entry::Pull);
            self.queue.insert(node);
        }
    }

    /// Returns true if the hand has a task.
    pub fn has_in_hand(&self) -> bool
        ensures { result ≡ is_some self.now.hand }
    {
        self.hand.is_some()
    }

    /// Puts a woken task, with the loads that were counted for it, into the empty hand.
    pub fn put_in_hand(&mut self, carried: Carried)
        requires { self.old.hand ≡ None }
        ensures { self.new ≡ record self.old { hand = Some carried } }
    {
        self.hand = Some(carried);
    }

    /// Gives away the task in the hand.
    pub fn release(&mut self) -> Option<Carried>
        ensures carried { result ≡ self.old.hand }
        ensures left { self.new ≡ record self.old { hand = None } }
    {
        self.hand.take()
    }

    /// Replaces what is installed at a hook.
    pub fn install(&mut self, hook: Hook, installed: Installed)
        requires { IsFor hook installed.policy }
        ensures { self.new ≡ with_at_hook hook self.old installed }
    {
        self.hooks.install(hook, installed);
    }
}

/// Lets the tasks of a chain enter a queue, one after another.
fn enter_chain<Q: RunQueue>(queue: &mut Q, tasks: Link)
    requires straight { IsStraightBehind tasks }
    requires apart { (id : ℕ) → count_of_id id (Q.members queue.old) + count_of_id id (chain_behind tasks) ≤ 1 }
    ensures members { Q.members queue.new ≡ entered Q.R.discipline (Q.last_mark queue.old) (Q.members queue.old) (chain_behind tasks) }
    ensures mark { Q.last_mark queue.new ≡ Q.last_mark queue.old }
{
    let mut rest = tasks;
    while let Some(mut node) = node::pop_front(&mut rest) {
        queue.enter(&mut node, Entry::Wake);
        queue.insert(node);
    }
}
