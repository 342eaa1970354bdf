//! The events of the generations: a number is drawn, and a policy or none is installed under it.
ghost use Rattle.std.specs.Prelude.{◌≡◌, ◌<◌, [], None};
ghost use Rattle.bq_parts.specs.World.{count_in};
ghost use Rattle.bq_parts.specs.Choices.{by_programs};
ghost use Rattle.bq_parts.specs.Refusals.{argument_refusal};
ghost use Rattle.bq_parts.specs.Steps.{WorldStep};

use crate::world_parts::WorldParts;
use bq_disc::RunQueue;
use bq_hooks::Hook;
use bq_installed::{Installed, Policy};
use bq_parts::{Event, Refusal, Reply};
use std::alloc::Global;

impl<Q: RunQueue> WorldParts<Q> {
    /// Draws the next generation's number. After the greatest number, it draws that one again and again.
    pub(crate) fn draw(&mut self) -> Result<Reply, Refusal>
        ensures step { WorldStep (by_programs Q.R.discipline) self.old Event.Draw [] result self.new }
    {
        self.drawn = self.drawn.saturating_add(1);
        Ok(Reply::Drawn {
            generation: self.drawn,
        })
    }

    /// Installs a policy, or none, at a processor's hook, with maps of its own. It takes memory for the maps. The event is
    /// refused if the generation was not drawn, or is not above the one at the hook.
    #[inline(never)]
    pub(crate) fn install(
        &mut self,
        alloc: Global,
        processor: u8,
        hook: Hook,
        generation: u64,
        policy: Option<Policy>,
    ) -> Result<Reply, Refusal>
        requires fits { argument_refusal (count_in self.old) (Event.Install processor hook generation policy) ≡ None }
        ensures step { WorldStep (by_programs Q.R.discipline) self.old (Event.Install processor hook generation policy) [] result self.new }
    {
        let Ok(installed) = Installed::new(alloc, policy, generation) else {
            return Err(Refusal::OutOfMemory);
        };
        self.cpus[usize::from(processor)].replace(hook, self.drawn, installed)
    }
}
