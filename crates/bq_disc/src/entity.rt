//! A task as the disciplines see it.
ghost use Rattle.std.specs.Prelude.{◌≡◌, ◌<◌, ◌≤◌, ◌^◌, Option, Some, None, pos};
ghost use Rattle.bq_disc.specs.declared.limits.TheConstants.{GREATEST_SLICE, LEAST_SLICE};
ghost use Rattle.bq_weights.specs.VirtualTime.{IsWeight};
ghost use Rattle.bq_disc.specs.Tasks.{runs_before};
ghost use Rattle.bq_disc.specs.Dues.{due_of};
ghost use Rattle.bq_disc.specs.Totals.{is_at_most_mean};
ghost use Rattle.bq_disc.specs.Queues.{can_use, key_of};
ghost use Rattle.bq_weights.specs.declared.TheConstants.{GREATEST_V};

use crate::Deadline;
use crate::limits::PROCESSORS;
use crate::mask::allows;
use std::marker::Model;

/// A task's figures.
#[derive(Clone, Copy)]
pub struct Entity {
    v: u64,
    deadline: u64,
    mask: u64,
    slice: u64,
    rel: i64,
    weight: u32,
    id: u16,
    prev: Option<u8>,
}

impl Model for Entity {
    ghost use Rattle.std.specs.Prelude.{◌≤◌, ◌^◌};
    ghost use Rattle.bq_weights.specs.VirtualTime.{IsWeight};
    ghost use Rattle.bq_disc.specs.declared.limits.TheConstants.{GREATEST_SLICE, LEAST_SLICE};
    ghost use Rattle.bq_disc.specs.Tasks.{Task, coded_task};
    ghost use Rattle.bq_weights.specs.declared.TheConstants.{GREATEST_V};

    ghost Value = { Task };

    ghost coded = { coded_task };

    ghost view = { λ e. record { id = e.id; weight = e.weight; mask = e.mask; slice = e.slice; v = e.v; deadline = e.deadline; rel = e.rel; prev = e.prev } };

    ghost invariant = { λ e. IsWeight e.weight × (LEAST_SLICE ≤ e.slice) × (e.slice ≤ GREATEST_SLICE) × (e.v ≤ GREATEST_V) × (e.deadline ≤ GREATEST_V) };

    ghost inverse = { λ t. record { id = t.id; weight = t.weight; mask = t.mask; slice = t.slice; v = t.v; deadline = t.deadline; rel = t.rel; prev = t.prev } };
}

impl Entity {
    /// A new task, which has not run.
    pub fn new(id: u16, weight: u32, mask: u64, slice: u64) -> Entity
        requires weight { IsWeight weight }
        requires slice_low { LEAST_SLICE ≤ slice }
        requires slice_high { slice ≤ GREATEST_SLICE }
        ensures { result ≡ record { id = id; weight = weight; mask = mask; slice = slice; v = 0; deadline = 0; rel = pos 0; prev = None } }
    {
        Entity {
            v: 0,
            deadline: 0,
            mask,
            slice,
            rel: 0,
            weight,
            id,
            prev: None,
        }
    }

    /// The task's id.
    pub fn id(&self) -> u16
        ensures { result ≡ self.now.id }
    {
        self.id
    }

    /// Its weight, from 15 to 88,761. Tasks share a processor in proportion to their weights.
    pub fn weight(&self) -> u32
        ensures value { result ≡ self.now.weight }
        ensures range { IsWeight result }
    {
        self.weight
    }

    /// The processors that it may use: bit k is processor k.
    pub fn mask(&self) -> u64
        ensures { result ≡ self.now.mask }
    {
        self.mask
    }

    /// The time that it asks for at once: its slice, from 100,000 to 100,000,000 nanoseconds.
    pub fn slice(&self) -> u64
        ensures value { result ≡ self.now.slice }
        ensures low { LEAST_SLICE ≤ result }
        ensures high { result ≤ GREATEST_SLICE }
    {
        self.slice
    }

    /// Its virtual runtime in virtual nanoseconds, at most 2^62.
    pub fn v(&self) -> u64
        ensures value { result ≡ self.now.v }
        ensures high { result ≤ GREATEST_V }
    {
        self.v
    }

    /// Its virtual deadline in virtual nanoseconds, at most 2^62; 0 under CFS.
    pub fn deadline(&self) -> u64
        ensures value { result ≡ self.now.deadline }
        ensures high { result ≤ GREATEST_V }
    {
        self.deadline
    }

    /// Its v less the mark when it last left: below 0 if it was behind the mark.
    pub fn rel(&self) -> i64
        ensures { result ≡ self.now.rel }
    {
        self.rel
    }

    /// The processor at which it last blocked; None if it has not blocked yet.
    pub fn prev(&self) -> Option<u8>
        ensures { result ≡ self.now.prev }
    {
        self.prev
    }

    /// Gives it another v and deadline.
    pub fn set_times(&mut self, v: u64, deadline: u64)
        requires v { v ≤ GREATEST_V }
        requires deadline { deadline ≤ GREATEST_V }
        ensures { self.new ≡ record self.old { v = v; deadline = deadline } }
    {
        self.v = v;
        self.deadline = deadline;
    }

    /// Gives it another distance from the mark.
    pub fn set_rel(&mut self, rel: i64)
        ensures { self.new ≡ record self.old { rel = rel } }
    {
        self.rel = rel;
    }

    /// Records the processor that it leaves.
    pub fn set_prev(&mut self, prev: u8)
        ensures { self.new ≡ record self.old { prev = Some prev } }
    {
        self.prev = Some(prev);
    }

    /// Whether it may use a processor.
    pub fn can_use(&self, processor: u8) -> bool
        requires { processor < PROCESSORS }
        ensures { result ≡ can_use processor self.now }
    {
        allows(self.mask, processor)
    }

    /// Its place in the order: its (v, id).
    pub fn key(&self) -> (u64, u16)
        ensures value { result ≡ key_of self.now }
        ensures high { result.0 ≤ GREATEST_V }
        ensures small { result.1 < 2 ^ 16 }
    {
        (self.v(), self.id())
    }

    /// Whether it goes before another by (v, id).
    pub fn runs_before(&self, other: &Entity) -> bool
        ensures { result ≡ runs_before self.now other.now }
    {
        self.v < other.v || (self.v == other.v && self.id < other.id)
    }

    /// Whether its v is at most the mean of tasks with this weight and this sum of weight times v: `weight * v <= moment`.
    pub fn is_at_most_mean(&self, weight: u64, moment: u128) -> bool
        ensures { result ≡ is_at_most_mean weight moment self.now }
    {
        u128::from(weight) * u128::from(self.v) <= moment
    }

    /// Its virtual deadline, with its id.
    pub fn due(&self) -> Deadline
        ensures { result ≡ due_of self.now }
    {
        Deadline {
            deadline: self.deadline,
            id: self.id,
        }
    }
}
