//! What is installed at the hooks of a processor.
ghost use Rattle.std.specs.Prelude.{◌≡◌, true, length, IfSome, is_some};
ghost use Rattle.std.specs.Option.{option_map};
ghost use Rattle.bq_bpf.specs.Counters.{Through};
ghost use Rattle.bq_hooks.specs.Hooks.{context_length_of};
ghost use Rattle.bq_bpf.specs.Memory.{HaveShapes};
ghost use Rattle.bq_installed.specs.Answers.{RunsWithin};
ghost use Rattle.bq_installed.specs.Standing.{WasAnswered};
ghost use Rattle.bq_installed.specs.Installed.{AnswersAt, new_hooks, at_hook, with_installed, IsFor};

use crate::{Installed, Scratch};
use bq_bpf::{Board, Env, RunResult};
use bq_hooks::{Hook, Version};
use std::marker::Model;

/// What is installed at each hook of a processor. Nothing here was verified for another hook.
#[derive(Drop)]
pub struct Hooks {
    place: Installed,
    preempt: Installed,
    pull: Installed,
}

impl Model for Hooks {
    ghost use Rattle.bq_installed.specs.Installed.{HooksFacts, IsFor};
    ghost use Rattle.bq_hooks.specs.declared.hook.Hook.TheVariants.{Place, Preempt, Pull};

    ghost Value = { HooksFacts };

    ghost view = { λ h. record { place = h.place; preempt = h.preempt; pull = h.pull } };

    ghost invariant = { λ h. IsFor Place h.place.policy × IsFor Preempt h.preempt.policy × IsFor Pull h.pull.policy };
}

impl Hooks {
    /// Hooks at which nothing has been installed yet.
    pub fn new() -> Hooks
        ensures { result ≡ new_hooks }
    {
        Hooks {
            place: Installed::nothing(),
            preempt: Installed::nothing(),
            pull: Installed::nothing(),
        }
    }

    /// The generation of what is installed at a hook; 0 if nothing has been installed.
    pub fn generation(&self, hook: Hook) -> u64
        ensures { result ≡ (at_hook hook self.now).generation }
    {
        match hook {
            Hook::Place => self.place.generation(),
            Hook::Preempt => self.preempt.generation(),
            Hook::Pull => self.pull.generation(),
        }
    }

    /// Replaces what is installed at a hook.
    pub fn install(&mut self, hook: Hook, installed: Installed)
        requires { IsFor hook installed.policy }
        ensures { self.new ≡ with_installed hook self.old installed }
    {
        match hook {
            Hook::Place => self.place.give_way_to(installed),
            Hook::Preempt => self.preempt.give_way_to(installed),
            Hook::Pull => self.pull.give_way_to(installed),
        }
    }

    /// The version of the image of the policy at a hook; `None` if there is no policy.
    #[inline(always)]
    pub fn version(&self, hook: Hook) -> Option<Version>
        ensures { result ≡ option_map (λ p. p.version) (at_hook hook self.now).policy }
    {
        match hook {
            Hook::Place => self.place.version(),
            Hook::Preempt => self.preempt.version(),
            Hook::Pull => self.pull.version(),
        }
    }

    /// The policy's last answer at a hook; `None` if it has not been asked since it was installed.
    pub fn answered(&self, hook: Hook) -> Option<RunResult>
        ensures { WasAnswered (at_hook hook self.now).policy result }
    {
        match hook {
            Hook::Place => self.place.answered(),
            Hook::Preempt => self.preempt.answered(),
            Hook::Pull => self.pull.answered(),
        }
    }

    /// Asks the policy at a hook about a context: its answer, and the steps that it took. Afterwards its maps are as it left
    /// them, and the scratch space holds its calls of counters.
    pub fn ask<B: Board>(
        &mut self,
        hook: Hook,
        context: &[u8],
        env: Env,
        scratch: &mut Scratch,
        board: &mut B,
    ) -> RunResult
        requires there { is_some (at_hook hook self.old).policy ≡ true }
        requires context { IfSome (at_hook hook self.old).policy (λ p. length context.now ≡ context_length_of hook p.version) }
        ensures answers { AnswersAt (at_hook hook self.old) context.now env.now env.processor result.r0 (at_hook hook self.new).maps result.steps scratch.new }
        ensures within { IfSome (at_hook hook self.old).policy (λ p. RunsWithin p result.steps scratch.new) }
        ensures shapes { IfSome (at_hook hook self.old).policy (λ p. HaveShapes p.shapes (at_hook hook self.new).maps) }
        ensures stays { self.new ≡ with_installed hook self.old (record (at_hook hook self.old) { maps = (at_hook hook self.new).maps }) }
        ensures board { Through B.leads board.old scratch.new board.new }
    {
        match hook {
            Hook::Place => self.place.ask(context, env, scratch, board),
            Hook::Preempt => self.preempt.ask(context, env, scratch, board),
            Hook::Pull => self.pull.ask(context, env, scratch, board),
        }
    }
}
