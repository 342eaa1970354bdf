//! One charge, as the laws of fairness measure it.
ghost use Rattle.std.specs.Prelude.{◌≡◌, ◌-◌, ◌^◌, min};
ghost use Rattle.bq_weights.specs.VirtualTime.{IsWeight, vdelta_of};
ghost use Rattle.bq_bounds.specs.Charges.{measured_charge, charge_from};

use crate::running_task::RunningTask;
use bq_cfs::GRANULARITY;
use bq_weights::{GREATEST_V, NICE_0_WEIGHT};
use bq_words::DisciplineName;

/// How far the running task was beyond the base of its discipline when its time was charged, and how far it may be. Both in virtual
/// nanoseconds.
#[derive(Clone, Copy)]
pub struct Charge {
    pub difference: u64,
    pub bound: u64,
}

impl RunningTask {
    /// Measures the charge for a rise of the clock. `since` is how far the clock has risen since the discipline decided who runs; both
    /// are in nanoseconds. CFS measures from the least virtual runtime that waits: `None` if no task waits. EEVDF measures from the
    /// mean after the charge.
    pub fn charge(
        &self,
        discipline: DisciplineName,
        rise: u64,
        since: u64,
        mean: u64,
    ) -> Option<Charge>
        ensures { result ≡ measured_charge discipline self.now rise since mean }
    {
        match discipline {
            DisciplineName::Cfs => match self.least {
                Some(least) => Some(self.charge_from(least, GRANULARITY, rise, since)),
                None => None,
            },
            DisciplineName::Eevdf => Some(self.charge_from(mean, 0, rise, since)),
        }
    }

    /// Measures the charge from `base`. Its bound is `allowance` and the virtual time of the rise since the decision.
    fn charge_from(&self, base: u64, allowance: u64, rise: u64, since: u64) -> Charge
        ensures { result ≡ charge_from base allowance self.now.v self.now.weight rise since }
    {
        let come = virtual_time(rise, self.weight);
        let v = self.v.saturating_add(come).min(GREATEST_V);
        let most = virtual_time(since, self.weight);
        Charge {
            difference: v.saturating_sub(base),
            bound: allowance.saturating_add(most),
        }
    }
}

/// Converts nanoseconds to virtual nanoseconds at a weight. The result is at most the type's greatest number.
fn virtual_time(time: u64, weight: u32) -> u64
    requires { IsWeight weight }
    ensures { result ≡ min (vdelta_of time weight) (2 ^ 64 - 1) }
{
    let whole = u128::from(time) * u128::from(NICE_0_WEIGHT) / u128::from(weight);
    u64::try_from(whole).unwrap_or(u64::MAX)
}
