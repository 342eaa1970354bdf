//! What is installed at one hook.
ghost use Rattle.std.specs.Prelude.{◌≡◌, true, length, Some, None, IfErr, IfOk, IfSome, is_some};
ghost use Rattle.std.specs.Option.{option_map};
ghost use Rattle.bq_bpf.specs.Counters.{Through};
ghost use Rattle.bq_hooks.specs.Hooks.{context_length_of};
ghost use Rattle.bq_bpf.specs.Memory.{HaveShapes};
ghost use Rattle.bq_installed.specs.Answers.{Answers, RunsWithin, fresh_maps};
ghost use Rattle.bq_installed.specs.Standing.{IsEquipped, WasAnswered};
ghost use Rattle.bq_installed.specs.Installed.{AnswersAt, nothing_installed, policy_of, maps_of};

use crate::{Policy, Scratch};
use bq_bpf::{Board, Env, RunResult};
use bq_hooks::Version;
use bq_interp::run_into;
use bq_maps::Maps;
use std::alloc::{AllocError, Global};
use std::marker::Model;

/// A policy or none, its generation, and the policy's own maps. The generation is 0 if nothing has been installed yet. The
/// policy's last answer is kept too; contracts do not see it.
#[derive(Drop)]
pub struct Installed {
    equipped: Option<Equipped>,
    generation: u64,
    answered: Option<RunResult>,
}

impl Model for Installed {
    ghost use Rattle.bq_installed.specs.Installed.{InstalledFacts, policy_in, maps_in};
    ghost use Rattle.bq_installed.specs.Standing.{IsEquipped, WasAnswered};

    ghost Value = { InstalledFacts };

    ghost view = { λ i. record { policy = policy_in i.equipped; generation = i.generation; maps = maps_in i.equipped } };

    ghost invariant = { λ i. IsEquipped (policy_in i.equipped) (maps_in i.equipped) × WasAnswered (policy_in i.equipped) i.answered };
}

impl Installed {
    /// What a hook has before anything is installed: no policy, generation 0.
    pub fn nothing() -> Installed
        ensures { result ≡ nothing_installed }
    {
        Installed {
            equipped: None,
            generation: 0,
            answered: None,
        }
    }

    /// A policy or none, as this generation, with maps of zeros. The only error is that memory runs out for the maps, so
    /// without a policy the call does not fail.
    pub fn new(
        alloc: Global,
        policy: Option<Policy>,
        generation: u64,
    ) -> Result<Installed, AllocError>
        ensures installed { IfOk result (λ i. i ≡ record { policy = policy; generation = generation; maps = fresh_maps policy }) }
        ensures want { IfErr result (λ e. is_some policy ≡ true) }
    {
        let equipped = match policy {
            None => None,
            Some(policy) => Some(Equipped::new(alloc, policy)?),
        };
        Ok(Installed {
            equipped,
            generation,
            answered: None,
        })
    }

    /// Its generation.
    pub fn generation(&self) -> u64
        ensures value { result ≡ self.now.generation }
        ensures equipped { IsEquipped self.now.policy self.now.maps }
    {
        self.generation
    }

    /// Sets the generation. So the maps can be made before the number is drawn.
    pub fn set_generation(&mut self, generation: u64)
        ensures { self.new ≡ record self.old { generation = generation } }
    {
        self.generation = generation;
    }

    /// Replaces what is installed here.
    pub(crate) fn give_way_to(&mut self, installed: Installed)
        ensures { self.new ≡ installed }
    {
        *self = installed;
    }

    /// The policy, if there is one.
    pub fn policy(&self) -> Option<&Policy>
        ensures { option_map (λ p. p.now) result ≡ self.now.policy }
    {
        match &self.equipped {
            None => None,
            Some(equipped) => Some(equipped.policy()),
        }
    }

    /// The version of the policy's image; `None` if there is no policy.
    #[inline(always)]
    pub fn version(&self) -> Option<Version>
        ensures { result ≡ option_map (λ p. p.version) self.now.policy }
    {
        match &self.equipped {
            None => None,
            Some(equipped) => Some(equipped.version()),
        }
    }

    /// The policy's last answer, with its steps: some run of the policy on some context gives it. `None` if it has not been
    /// asked since it was installed.
    pub fn answered(&self) -> Option<RunResult>
        ensures { WasAnswered self.now.policy result }
    {
        self.answered
    }

    /// Asks the policy about a context: its answer, and the steps that it took. Afterwards its maps are as it left them, and
    /// the scratch space holds its calls of counters. It takes no memory, and ends within the policy's budget.
    pub fn ask<B: Board>(
        &mut self,
        context: &[u8],
        env: Env,
        scratch: &mut Scratch,
        board: &mut B,
    ) -> RunResult
        requires there { is_some self.old.policy ≡ true }
        requires context { IfSome self.old.policy (λ p. length context.now ≡ context_length_of p.hook p.version) }
        ensures answers { AnswersAt self.old context.now env.now env.processor result.r0 self.new.maps result.steps scratch.new }
        ensures within { IfSome self.old.policy (λ p. RunsWithin p result.steps scratch.new) }
        ensures shapes { IfSome self.old.policy (λ p. HaveShapes p.shapes self.new.maps) }
        ensures stays { self.new ≡ record self.old { maps = self.new.maps } }
        ensures board { Through B.leads board.old scratch.new board.new }
    {
        let Some(equipped) = &mut self.equipped else {
            unreachable!()
        };
        let done = equipped.ask(context, env, scratch, board);
        self.answered = Some(done);
        done
    }
}

/// A policy with maps of its own.
#[derive(Drop)]
pub struct Equipped {
    policy: Policy,
    maps: Maps,
}

impl Model for Equipped {
    ghost use Rattle.std.specs.Prelude.{◌≡◌};
    ghost use Rattle.bq_installed.specs.Installed.{EquippedFacts};

    ghost Value = { EquippedFacts };

    ghost view = { λ e. (e.policy, e.maps.bytes) };

    ghost invariant = { λ e. e.maps.shapes ≡ e.policy.shapes };
}

impl Equipped {
    /// The policy, with maps of zeros.
    fn new(alloc: Global, policy: Policy) -> Result<Equipped, AllocError>
        ensures policy { IfOk result (λ e. policy_of e ≡ policy) }
        ensures maps { IfOk result (λ e. maps_of e ≡ fresh_maps (Some policy)) }
        ensures equipped { IfOk result (λ e. IsEquipped (Some (policy_of e)) (maps_of e)) }
    {
        let maps = Maps::new(alloc, policy.program().shapes())?;
        let _sizes = maps.shapes();
        Ok(Equipped { policy, maps })
    }

    fn policy(&self) -> &Policy
        ensures { result.now ≡ policy_of self.now }
    {
        &self.policy
    }

    fn version(&self) -> Version
        ensures { result ≡ (policy_of self.now).version }
    {
        self.policy.version()
    }

    /// Asks the policy about a context.
    fn ask<B: Board>(
        &mut self,
        context: &[u8],
        env: Env,
        scratch: &mut Scratch,
        board: &mut B,
    ) -> RunResult
        requires context { length context.now ≡ context_length_of (policy_of self.old).hook (policy_of self.old).version }
        ensures answers { Answers (policy_of self.old) context.now (maps_of self.old) env.now env.processor result.r0 (maps_of self.new) result.steps scratch.new }
        ensures within { RunsWithin (policy_of self.old) result.steps scratch.new }
        ensures equipped { IsEquipped (Some (policy_of self.new)) (maps_of self.new) }
        ensures policy { policy_of self.new ≡ policy_of self.old }
        ensures board { Through B.leads board.old scratch.new board.new }
    {
        let done = run_into(
            self.policy.program(),
            context,
            &mut self.maps,
            &mut scratch.stack,
            env,
            board,
            &mut scratch.calls,
        );
        let _few = scratch.calls();
        let _sizes = self.maps.shapes();
        done
    }
}
