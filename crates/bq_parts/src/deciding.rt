//! The choices of a processor: its policies' if they are permitted, else the discipline's own.
ghost use Rattle.std.specs.Prelude.{◌≡◌, ◌≤◌, ◌<◌, ◌^◌, [], length, Some, IfSome};
ghost use Rattle.std.specs.Option.{option_map};
ghost use Rattle.bq_bpf.specs.Counters.{Through};
ghost use Rattle.bq_bpf.specs.Memory.{HaveShapes};
ghost use Rattle.bq_installed.specs.Answers.{RunsWithin};
ghost use Rattle.bq_installed.specs.Installed.{AnswersAt};
ghost use Rattle.bq_hooks.specs.Contexts.{as_number};
ghost use Rattle.bq_hooks.specs.OwnPlace.{HasPlace};
ghost use Rattle.bq_disc.specs.Queues.{HasDistinctIds};
ghost use Rattle.bq_disc.specs.OneProcessor.{present_at};
ghost use Rattle.bq_parts.specs.Processors.{with_at_hook, HasEachOnce, HasIdsBelowTasks, size_of};
ghost use Rattle.bq_parts.specs.Choices.{by_programs, place_bytes, SettlesPlace, SettlesPreempt, SettlesPulled, decided_by, decision_of};

use crate::{Carried, Cpu, HookDecision};
use bq_bpf::{Board, Env, RunResult};
use bq_disc::RunQueue;
use bq_disc::limits::{PROCESSORS, TASKS};
use bq_hooks::place::{PLACE_LENGTH, Place, WIDE_PLACE_LENGTH, place_ctx, wide_place_ctx};
use bq_hooks::preempt::{PREEMPT_LENGTH, Preempt, preempt_ctx};
use bq_hooks::pull::{PULL_LENGTH, Pull, pull_ctx};
use bq_hooks::{Hook, Version, own_place, settle_place, settle_preempt, settle_pull};
use bq_installed::Scratch;

impl<Q: RunQueue> Cpu<Q> {
    /// Returns what a policy may ask at this processor: the last reading of its clock, in nanoseconds, and its number.
    fn env(&self, processor: u8) -> Env
        ensures { result ≡ record { now = self.now.running.last; processor = processor } }
    {
        Env {
            now: self.last_reading,
            processor: u32::from(processor),
        }
    }

    /// Chooses the processor, of the first `count`, where the task in the hand is placed.
    #[inline(never)]
    pub fn choose_place<B: Board>(
        &mut self,
        processor: u8,
        count: usize,
        carried: &Carried,
        scratch: &mut Scratch,
        board: &mut B,
    ) -> HookDecision<u8>
        requires few { count ≤ PROCESSORS }
        requires usable { HasPlace count carried.now.task }
        requires no_calls { scratch.old ≡ [] }
        ensures settled { SettlesPlace (by_programs Q.R.discipline) count processor self.old carried.now (decision_of (λ number. number) result scratch.new self.new.hooks.place) }
        ensures rest { self.new ≡ with_at_hook Hook.Place self.old self.new.hooks.place }
        ensures board { Through B.leads board.old scratch.new board.new }
    {
        let task = &carried.task.node().entity;
        let own = own_place(count, &carried.loads, task);
        let Some(version) = self.hooks.version(Hook::Place) else {
            return HookDecision::unasked(own);
        };
        let facts = Place {
            task,
            waking: processor,
            processors: count,
            own,
            loads: &carried.loads,
        };
        let done = self.ask_place(processor, version, &facts, scratch, board);
        HookDecision::after(settle_place(Some(done.r0), count, task, own), done.steps)
    }

    /// Asks the place policy, whose image has this version, about these facts.
    fn ask_place<B: Board>(
        &mut self,
        processor: u8,
        version: Version,
        facts: &Place,
        scratch: &mut Scratch,
        board: &mut B,
    ) -> RunResult
        requires version { Some version ≡ option_map (λ p. p.version) self.old.hooks.place.policy }
        ensures answers { AnswersAt self.old.hooks.place (place_bytes facts.now version) self.old.running.last processor result.r0 self.new.hooks.place.maps result.steps scratch.new }
        ensures within { IfSome self.old.hooks.place.policy (λ p. RunsWithin p result.steps scratch.new) }
        ensures shapes { IfSome self.old.hooks.place.policy (λ p. HaveShapes p.shapes self.new.hooks.place.maps) }
        ensures rest { self.new ≡ with_at_hook Hook.Place self.old (record self.old.hooks.place { maps = self.new.hooks.place.maps }) }
        ensures board { Through B.leads board.old scratch.new board.new }
    {
        let env = self.env(processor);
        match version {
            Version::First => {
                let mut context = [0; PLACE_LENGTH];
                place_ctx(facts, &mut context);
                self.hooks.ask(Hook::Place, &context, env, scratch, board)
            }
            Version::Second => {
                let mut context = [0; WIDE_PLACE_LENGTH];
                wide_place_ctx(facts, &mut context);
                self.hooks.ask(Hook::Place, &context, env, scratch, board)
            }
        }
    }

    /// Decides whether the running task gives way. If none runs, no policy is asked.
    fn choose_preempt<B: Board>(
        &mut self,
        processor: u8,
        scratch: &mut Scratch,
        board: &mut B,
    ) -> HookDecision<bool>
        requires distinct { HasDistinctIds self.old.running.queue }
        requires few { length self.old.running.queue < 2 ^ 32 }
        requires no_calls { scratch.old ≡ [] }
        ensures settled { SettlesPreempt (by_programs Q.R.discipline) processor self.old self.old.running.current (decision_of as_number result scratch.new self.new.hooks.preempt) }
        ensures rest { self.new ≡ with_at_hook Hook.Preempt self.old self.new.hooks.preempt }
        ensures board { Through B.leads board.old scratch.new board.new }
    {
        let Some(current) = &self.current else {
            return HookDecision::unasked(false);
        };
        let own = self.queue.wants_preempt(current.node());
        let Some(_) = self.hooks.version(Hook::Preempt) else {
            return HookDecision::unasked(own);
        };
        let facts = Preempt {
            processor,
            queue: &self.queue,
            current: &current.node().entity,
            own,
        };
        let mut context = [0; PREEMPT_LENGTH];
        preempt_ctx(&facts, &mut context);
        let env = self.env(processor);
        let done = self.hooks.ask(Hook::Preempt, &context, env, scratch, board);
        HookDecision::after(settle_preempt(Some(done.r0), own), done.steps)
    }

    /// Decides who runs. If nothing runs, the queue's choice does, and no policy is asked.
    pub fn decide<B: Board>(
        &mut self,
        processor: u8,
        scratch: &mut Scratch,
        board: &mut B,
    ) -> HookDecision<bool>
        requires once { HasEachOnce (present_at self.old.running) }
        requires ids { HasIdsBelowTasks (present_at self.old.running) }
        requires no_calls { scratch.old ≡ [] }
        ensures settled { SettlesPreempt (by_programs Q.R.discipline) processor self.old self.old.running.current (decision_of as_number result scratch.new self.new.hooks.preempt) }
        ensures decided { self.new ≡ decided_by (by_programs Q.R.discipline) self.old (decision_of as_number result scratch.new self.new.hooks.preempt) }
        ensures board { Through B.leads board.old scratch.new board.new }
    {
        let preempted = self.choose_preempt(processor, scratch, board);
        if preempted.choice {
            self.switch();
        } else {
            self.start_if_idle();
        }
        preempted
    }

    /// Decides which task is pulled from another processor, if any. A policy is shown the sizes as they are now.
    pub(crate) fn choose_pull<B: Board>(
        &mut self,
        processor: u8,
        from: u8,
        source: &Cpu<Q>,
        scratch: &mut Scratch,
        board: &mut B,
    ) -> HookDecision<Option<u16>>
        requires inside { processor < PROCESSORS }
        requires few { size_of self.old ≤ TASKS }
        requires few_from { size_of source.now ≤ TASKS }
        requires distinct { HasDistinctIds source.now.running.queue }
        requires no_calls { scratch.old ≡ [] }
        ensures settled { SettlesPulled (by_programs Q.R.discipline) processor from self.old source.now result scratch.new self.new.hooks.pull }
        ensures rest { self.new ≡ with_at_hook Hook.Pull self.old self.new.hooks.pull }
        ensures board { Through B.leads board.old scratch.new board.new }
    {
        let size = self.size();
        let own = source.own_pull(processor, size);
        let Some(_) = self.hooks.version(Hook::Pull) else {
            return HookDecision::unasked(own);
        };
        let facts = Pull {
            puller: processor,
            source: from,
            puller_size: size as u32,
            source_size: source.size() as u32,
            queue: &source.queue,
            own,
        };
        let mut context = [0; PULL_LENGTH];
        pull_ctx(&facts, &mut context);
        let env = self.env(processor);
        let done = self.hooks.ask(Hook::Pull, &context, env, scratch, board);
        let chosen = settle_pull(Some(done.r0), &source.queue, processor, own);
        HookDecision::after(chosen, done.steps)
    }
}
