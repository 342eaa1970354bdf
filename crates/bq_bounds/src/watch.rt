//! The charges of one processor, while only its discipline decides who runs there.
ghost use Rattle.std.specs.Prelude.{◌≡◌};
ghost use Rattle.bq_bounds.specs.Watches.{unwatched, risen, measured, watch_decided, disturbed, watch_charged, greater, watch_after, decided_by_event};

use crate::charge::Charge;
use crate::running_task::RunningTask;
use bq_hooks::By;
use bq_parts::{Event, Reply};
use bq_words::DisciplineName;

/// The charges of one processor so far. Counts stop at their type's greatest number.
#[derive(Clone, Copy)]
pub struct Watch {
    /// How far the clock has risen since the discipline decided who runs. `None` if a policy decided last, or if a pull has
    /// disturbed what the discipline saw.
    pub elapsed: Option<u64>,
    /// How many charges were measured.
    pub measured: u64,
    /// How many charges were not measured.
    pub left_out: u64,
    /// The first of the measured charges with the greatest difference.
    pub greatest: Option<Charge>,
}

impl Watch {
    /// Returns a watch before the first event.
    pub fn new() -> Watch
        ensures { result ≡ unwatched }
    {
        Watch {
            elapsed: None,
            measured: 0,
            left_out: 0,
            greatest: None,
        }
    }

    /// Takes an answered event of the processor, whose clock rose by `rise` ns with it, and measures the charge. `running` is the running
    /// task before the event, and `mean` the mean of the processor's tasks after the charge.
    pub fn take(
        &mut self,
        discipline: DisciplineName,
        event: &Event,
        reply: &Reply,
        running: Option<RunningTask>,
        rise: u64,
        mean: u64,
    )
        ensures { self.new ≡ watch_after discipline event.now reply.now running rise mean self.old }
    {
        self.rise(rise);
        if let Some(running) = running {
            self.charge(discipline, &running, rise, mean);
        }
        self.decide_by_event(event, reply, running.is_some());
    }

    /// Adds a rise of the clock to `elapsed`, if that is known.
    fn rise(&mut self, rise: u64)
        ensures { self.new ≡ risen rise self.old }
    {
        if let Some(elapsed) = self.elapsed {
            self.elapsed = Some(elapsed.saturating_add(rise));
        }
    }

    /// Measures the charge of the task that ran, if there is one. Counts it as left out if `elapsed` is `None`.
    fn charge(&mut self, discipline: DisciplineName, running: &RunningTask, rise: u64, mean: u64)
        ensures { self.new ≡ watch_charged discipline running.now rise mean self.old.elapsed self.old }
    {
        match self.elapsed {
            Some(elapsed) => {
                if let Some(charge) = running.charge(discipline, rise, elapsed, mean) {
                    self.measure(charge);
                }
            }
            None => self.left_out = self.left_out.saturating_add(1),
        }
    }

    /// Counts a measured charge, and keeps it if its difference is the greatest so far.
    pub fn measure(&mut self, charge: Charge)
        ensures { self.new ≡ measured charge self.old }
    {
        self.measured = self.measured.saturating_add(1);
        self.greatest = Some(greater(self.greatest, charge));
    }

    /// Notes who decided at this event, if anyone did. `was_busy` is whether a task ran before.
    fn decide_by_event(&mut self, event: &Event, reply: &Reply, was_busy: bool)
        ensures { self.new ≡ decided_by_event event.now reply.now was_busy self.old }
    {
        match (event, reply) {
            (
                Event::Tick { .. },
                Reply::Ticked {
                    run: _,
                    by,
                    steps: _,
                },
            ) => self.decide(*by),
            (
                Event::Drain { .. },
                Reply::Drained {
                    count: _,
                    run: _,
                    by,
                    steps: _,
                },
            ) => self.decide(*by),
            (Event::Block { .. }, Reply::Blocked { .. }) => self.decide(By::Discipline),
            (Event::Pull { .. }, Reply::Pulled { task, .. }) => {
                if !was_busy {
                    self.decide(By::Discipline);
                } else if task.is_some() {
                    self.disturb();
                }
            }
            _ => {}
        }
    }

    /// Notes who decided which task runs.
    fn decide(&mut self, by: By)
        ensures { self.new ≡ watch_decided by self.old }
    {
        self.elapsed = match by {
            By::Discipline => Some(0),
            By::Policy => None,
        };
    }

    /// Notes that a task came or went which the discipline did not see when it decided: `elapsed` is no longer known.
    pub fn disturb(&mut self)
        ensures { self.new ≡ disturbed self.old }
    {
        self.elapsed = None;
    }
}

/// Returns the charge of greater difference, the first of two equal ones.
pub(crate) fn greater(first: Option<Charge>, second: Charge) -> Charge
    ensures { result ≡ greater first second }
{
    match first {
        Some(first) if first.difference >= second.difference => first,
        _ => second,
    }
}
