//! The limits that a keeper, the person who runs bqsim on a host, sets on the programs of others.
ghost use Rattle.std.specs.Prelude.{◌≡◌, ◌↔◌, IfSome, IsTrue, MatchOption, All, None, Some};
ghost use Rattle.bq_explain.specs.Verdicts.{AllowsHook, CallsNoOther, IsBeside, IsCalledAgainst, IsFirstExceeded, IsExceeded, IsWithinLimit, KeepsMeasures, most_of};
ghost use Rattle.bq_explain.specs.Measures.{measure_of};

use crate::measure::Measure;
use bq_hooks::Hook;
use bq_insn::Insn;
use bq_policy_file::PolicySource;

/// The limits that a program has to keep beside being safe.
#[derive(Drop)]
pub struct Limits {
    /// The most instructions of a run.
    pub steps: Option<u32>,
    /// The helpers that may be called.
    pub helpers: Option<Vec<i32>>,
    /// The hooks that a policy may be for.
    pub hooks: Option<Vec<Hook>>,
    /// The most maps.
    pub maps: Option<u32>,
    /// The most bytes that the values of all maps have.
    pub map_bytes: Option<u32>,
    /// The most instructions that call a counter.
    pub counters: Option<u32>,
}

/// A limit that a policy exceeds: the policy uses `used`, and `most` is allowed.
#[derive(Clone, Copy)]
pub struct ExceededLimit {
    pub measure: Measure,
    pub used: u64,
    pub most: u32,
}

impl Limits {
    ghost use Rattle.bq_explain.specs.Verdicts.{helpers_allowed};

    /// Returns limits that allow everything.
    pub fn none() -> Limits
        ensures steps { result.steps ≡ None }
        ensures helpers { result.helpers ≡ None }
        ensures hooks { result.hooks ≡ None }
        ensures maps { result.maps ≡ None }
        ensures map_bytes { result.map_bytes ≡ None }
        ensures counters { result.counters ≡ None }
    {
        Limits {
            steps: None,
            helpers: None,
            hooks: None,
            maps: None,
            map_bytes: None,
            counters: None,
        }
    }

    /// Whether a policy may be for that hook.
    pub(crate) fn allows(&self, hook: Hook) -> bool
        ensures { IsTrue result ↔ AllowsHook self.now hook }
    {
        match &self.hooks {
            None => true,
            Some(hooks) => hooks.contains(&hook),
        }
    }

    /// Finds the first limit that the policy exceeds, of those on maps, their bytes and counters.
    pub(crate) fn exceeded(&self, policy: &PolicySource) -> Option<ExceededLimit>
        ensures { MatchOption result (KeepsMeasures policy.now self.now) (IsFirstExceeded policy.now self.now) }
    {
        if let Some(over) = self.beyond(policy, Measure::Maps) {
            return Some(over);
        }
        if let Some(over) = self.beyond(policy, Measure::MapBytes) {
            return Some(over);
        }
        self.beyond(policy, Measure::Counters)
    }

    /// Finds the limit of that measure; None if the policy does not exceed it.
    fn beyond(&self, policy: &PolicySource, measure: Measure) -> Option<ExceededLimit>
        ensures over { MatchOption result (IsWithinLimit (measure_of policy.now measure) (most_of self.now measure)) (IsExceeded policy.now self.now) }
        ensures measure { IfSome result (λ over. over.measure ≡ measure) }
    {
        let most = self.most(measure)?;
        let used = measure.of(policy);
        if used <= u64::from(most) {
            return None;
        }
        Some(ExceededLimit {
            measure,
            used,
            most,
        })
    }

    /// Returns the most that is allowed of that measure; None if there is no limit.
    fn most(&self, measure: Measure) -> Option<u32>
        ensures { result ≡ most_of self.now measure }
    {
        match measure {
            Measure::Maps => self.maps,
            Measure::MapBytes => self.map_bytes,
            Measure::Counters => self.counters,
        }
    }

    /// Finds the first helper that is called and may not be called.
    pub(crate) fn forbidden(&self, insns: &[Insn]) -> Option<i32>
        ensures { MatchOption result (All (CallsNoOther (helpers_allowed self.now)) insns.now) (IsCalledAgainst (helpers_allowed self.now) insns.now) }
    {
        match &self.helpers {
            None => None,
            Some(helpers) => called_against(helpers.as_slice(), insns),
        }
    }
}

/// Finds the first helper that is called and is not one of these.
fn called_against(helpers: &[i32], insns: &[Insn]) -> Option<i32>
    ensures { MatchOption result (All (CallsNoOther (Some helpers.now)) insns.now) (IsCalledAgainst (Some helpers.now) insns.now) }
{
    for insn in insns {
        if let Some(helper) = called_beside(helpers, *insn) {
            return Some(helper);
        }
    }
    None
}

/// Returns the helper that the instruction calls; None if it is one of these, or the instruction calls none.
fn called_beside(helpers: &[i32], insn: Insn) -> Option<i32>
    ensures { MatchOption result (CallsNoOther (Some helpers.now) insn) (IsBeside helpers.now insn) }
{
    match insn {
        Insn::Call { helper } => {
            if helpers.contains(&helper) {
                None
            } else {
                Some(helper)
            }
        }
        _ => None,
    }
}
