//! What an installation does to a processor.
ghost use Rattle.std.specs.Prelude.{◌≡◌};
ghost use Rattle.bq_installed.specs.Installed.{IsFor};
ghost use Rattle.bq_parts.specs.Refusals.{generation_refusal};
ghost use Rattle.bq_parts.specs.Shares.{Installs};

use crate::{Cpu, Refusal, Reply};
use bq_disc::RunQueue;
use bq_hooks::Hook;
use bq_installed::Installed;

impl<Q: RunQueue> Cpu<Q> {
    /// Replaces what is installed at a hook, if the new generation is above the one at the hook and has been drawn.
    pub fn replace(
        &mut self,
        hook: Hook,
        drawn: u64,
        installed: Installed,
    ) -> Result<Reply, Refusal>
        requires { IsFor hook installed.policy }
        ensures share { Installs hook drawn self.old installed result self.new }
    {
        let newest = self.generation(hook);
        if let Some(refusal) = generation_refusal(newest, drawn, installed.generation()) {
            return Err(refusal);
        }
        self.install(hook, installed);
        Ok(Reply::Installed)
    }
}

/// Returns why a generation is refused at a hook, if it is: `newest` is the one at the hook, and `drawn` numbers were drawn so far.
fn generation_refusal(newest: u64, drawn: u64, generation: u64) -> Option<Refusal>
    ensures { result ≡ generation_refusal newest drawn generation }
{
    if newest > 0 && generation <= newest {
        Some(Refusal::Older(newest))
    } else if generation == 0 || generation > drawn {
        Some(Refusal::NotDrawn)
    } else {
        None
    }
}
