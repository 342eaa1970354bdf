//! What the two halves of a wake do to the processor.
ghost use Rattle.std.specs.Prelude.{◌≡◌, ◌≤◌, ◌<◌, [], IfSome};
ghost use Rattle.bq_bpf.specs.Counters.{Through};
ghost use Rattle.bq_hooks.specs.OwnPlace.{HasPlace};
ghost use Rattle.bq_parts.specs.Choices.{by_programs};
ghost use Rattle.bq_parts.specs.Shares.{BeginsWake, Places};

use crate::{Carried, Cpu, Lobby, Refusal, Reply, Unlinked};
use bq_bpf::Board;
use bq_disc::RunQueue;
use bq_disc::limits::{PROCESSORS, TASKS};
use bq_hooks::{By, Loads};
use bq_installed::Scratch;

/// A task that left a hand, and the processor to which it goes. `by` says whose choice that is; `steps` is how many steps the
/// policy took, 0 if none was asked.
#[derive(Drop)]
pub struct Placement {
    pub task: Unlinked,
    pub to: u8,
    pub by: By,
    pub steps: u32,
}

impl<Q: RunQueue> Cpu<Q> {
    /// Takes a sleeping task from the lobby into the hand, with a copy of these loads. Refuses if there is no such task, if it does
    /// not sleep, or if the hand is full.
    pub fn begin_wake(
        &mut self,
        lobby: &mut Lobby,
        task: u16,
        loads: &Loads,
    ) -> Result<Reply, Refusal>
        requires below { task < TASKS }
        ensures share { BeginsWake task loads.now self.old lobby.old result self.new lobby.new }
    {
        self.begin_wake_with_loads(lobby, task, loads.copy())
    }

    /// Takes a sleeping task from the lobby into the hand, with loads that were counted only for this wake. Refuses as
    /// [`begin_wake`](Cpu::begin_wake) does.
    pub fn begin_wake_with_loads(
        &mut self,
        lobby: &mut Lobby,
        task: u16,
        loads: Loads,
    ) -> Result<Reply, Refusal>
        requires below { task < TASKS }
        ensures share { BeginsWake task loads self.old lobby.old result self.new lobby.new }
    {
        if lobby.is_absent(task) {
            return Err(Refusal::NoTask);
        }
        if lobby.is_away(task) {
            return Err(Refusal::NotBlocked);
        }
        if self.has_in_hand() {
            return Err(Refusal::InHand);
        }
        let carried = Carried {
            task: lobby.take_sleeper(task),
            loads: loads.copy(),
        };
        self.put_in_hand(carried);
        Ok(Reply::Begun { task, loads })
    }

    /// Takes the task out of the hand, and chooses a processor for it among the first `count`. Returns `None` if the hand is empty.
    pub fn end_wake<B: Board>(
        &mut self,
        processor: u8,
        count: usize,
        now: u64,
        scratch: &mut Scratch,
        board: &mut B,
    ) -> Option<Placement>
        requires few { count ≤ PROCESSORS }
        requires usable { IfSome self.old.hand (λ c. HasPlace count c.task) }
        requires no_calls { scratch.old ≡ [] }
        ensures share { Places (by_programs Q.R.discipline) count processor now self.old scratch.new result self.new }
        ensures below { IfSome result (λ x. x.to < count) }
        ensures board { Through B.leads board.old scratch.new board.new }
    {
        let Some(carried) = self.release() else {
            return None;
        };
        self.charge(now);
        let placed = self.choose_place(processor, count, &carried, scratch, board);
        let Carried { task, loads: _ } = carried;
        Some(Placement {
            task,
            to: placed.choice,
            by: placed.by,
            steps: placed.steps,
        })
    }
}
