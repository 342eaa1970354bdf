//! A load: an image is verified once, a generation is drawn, and the image's policy is installed at each processor.
ghost use Rattle.std.specs.Prelude.{◌≡◌, ◌∷◌, ◌++◌, ◌<◌, ◌≤◌, ◌+◌, [], true, None, Ok, IfOk, IfErr, OnErr, All, vec_len, vec_capacity};
ghost use Rattle.std.specs.Option.{option_map};
ghost use Rattle.bq_history.specs.Callers.{with_receipt, with_receipts};
ghost use Rattle.bq_shared.specs.Calls.{AccountMatchesReceipts};
ghost use Rattle.bq_parts.specs.Refusals.{is_for};
ghost use Rattle.bq_parts.specs.declared.reply.Reply.TheVariants.{Drawn};
ghost use Rattle.bq_shared.specs.Parts.{reported_calls};
ghost use Rattle.bq_machine.specs.Calls.{AreInstalls};
ghost use Rattle.bq_machine.specs.Loading.{IsPolicyOfImage, IsLoad, IsLoadRefused};

use crate::clock::Clock;
use crate::machine::Machine;
use crate::prepared_install::{PreparedInstall, prepare_installs};
use crate::records::{Records, answer_twice, no_calls};
use bq_disc::RunQueue;
use bq_history::{Naming, Receipt, Room};
use bq_hooks::Hook;
use bq_installed::Policy;
use bq_load::{LoadFault, load};
use bq_parts::{Event, Refusal, Reply};
use bq_recording::{MachineSeat, WorkingSeat};
use bq_shared::{Counting, Record, record_room};
use std::alloc::Global;
use std::sync::Wait;
use thiserror::Error;

/// Why nothing was loaded, and nothing recorded.
#[derive(Clone, Copy, Debug, Error)]
pub enum LoadRefused {
    /// The bytes are no image of a program that is accepted.
    #[error("{0}")]
    Fault(LoadFault),
    /// The image is for another hook, or memory ran out.
    #[error("{0}")]
    Refusal(Refusal),
}

/// The receipts of a load: that a generation was drawn, and the answer at each processor, by rising number.
#[derive(Drop)]
pub struct LoadReceipts {
    pub draw: Receipt<Record>,
    pub installs: Vec<Receipt<Record>>,
}

/// What a load installs at each processor.
#[derive(Clone, Copy)]
struct Loading<'a> {
    /// The hook at which it is installed.
    hook: Hook,
    /// The generation that was drawn for it.
    generation: u64,
    /// What is installed: a policy, or none.
    policy: &'a Option<Policy>,
}

/// Makes the policy of an image, or None if there is no image. Refuses an image that does not load or is for another hook, and
/// for lack of memory.
fn policy_of(alloc: Global, hook: Hook, image: Option<&[u8]>) -> Result<Option<Policy>, LoadRefused>
    ensures policy { IfOk result (λ p. IsPolicyOfImage (option_map (λ b. b.now) image.entry) p) }
    ensures hook { IfOk result (λ p. is_for hook p ≡ true) }
    ensures refused { IfErr result (IsLoadRefused hook (option_map (λ b. b.now) image.entry)) }
{
    let Some(bytes) = image else {
        return Ok(None);
    };
    let verified = match load(alloc, bytes) {
        Ok(verified) => verified,
        Err(fault) => return Err(LoadRefused::Fault(fault)),
    };
    if verified.hook() != hook {
        return Err(LoadRefused::Refusal(Refusal::WrongHook));
    }
    match Policy::new(alloc, verified) {
        Ok(policy) => Ok(Some(policy)),
        Err(_) => Err(LoadRefused::Refusal(Refusal::OutOfMemory)),
    }
}

/// Makes the event that installs a policy, or that removes the installed one if there is none.
fn install_event(processor: u8, hook: Hook, generation: u64, policy: Option<Policy>) -> Event
    ensures { result ≡ Event.Install processor hook generation policy }
{
    Event::Install {
        processor,
        hook,
        generation,
        policy,
    }
}

/// Adds a receipt to a list with room for it.
fn push_receipt(installs: &mut Vec<Receipt<Record>>, receipt: Receipt<Record>)
    requires room { vec_len installs.old < vec_capacity installs.old }
    ensures items { installs.new.items ≡ installs.old.items ++ receipt ∷ [] }
    ensures len { vec_len installs.new ≡ vec_len installs.old + 1 }
    ensures capacity { vec_capacity installs.old ≤ vec_capacity installs.new }
{
    if installs.push(receipt).is_err() {
        unreachable!()
    }
}

impl<Q: RunQueue + Drop, K: Clock + Drop, N: Naming + Counting, const P: usize> Machine<
    Q,
    K,
    N,
    P,
> {
    /// Loads an image, and installs its policy at this hook of each processor, under one generation, drawn for it. If there
    /// is no image, the policies there are removed. If a newer generation is installed at a processor, that is the recorded
    /// answer there, and the load goes on. It takes memory for the policy, its maps and all records.
    ///
    /// If the image does not load, is for another hook, or memory runs out, nothing is recorded; the fault of the image comes
    /// first.
    pub fn load_all<R: Wait>(
        &self,
        rt: &R,
        alloc: Global,
        seat: &mut MachineSeat<N>,
        hook: Hook,
        image: Option<&[u8]>,
    ) -> Result<LoadReceipts, LoadRefused>
        ensures receipts { IfOk result (λ l. seat.new ≡ with_receipts l.installs.items (with_receipt l.draw seat.old)) }
        ensures load { IfOk result (IsLoad P hook (option_map (λ b. b.now) image.entry)) }
        ensures refused { IfErr result (IsLoadRefused hook (option_map (λ b. b.now) image.entry)) }
        ensures err { OnErr result (seat.new ≡ seat.old) }
    {
        let policy = policy_of(alloc, hook, image)?;
        let count = self.cpus.len();
        let (Ok(()), Ok(prepared_installs), Ok(mut installs)) = (
            record_room(alloc, &mut seat.record_room),
            prepare_installs(alloc, &policy, count),
            Vec::with_capacity(alloc, count),
        ) else {
            return Err(LoadRefused::Refusal(Refusal::OutOfMemory));
        };
        let (draw, generation) = self.draw(rt, &mut seat.working, &mut seat.record_room);
        let loading = Loading {
            hook,
            generation,
            policy: &policy,
        };
        self.install_all(
            rt,
            &mut seat.working,
            loading,
            prepared_installs,
            &mut installs,
        );
        Ok(LoadReceipts { draw, installs })
    }

    /// Draws a generation.
    fn draw<R: Wait>(
        &self,
        rt: &R,
        working: &mut WorkingSeat<N>,
        room: &mut Room<Record>,
    ) -> (Receipt<Record>, u64)
        requires ready { room.old ≡ true }
        requires account { AccountMatchesReceipts reported_calls working.old }
        ensures caller { working.new.caller ≡ with_receipt result.0 working.old.caller }
        ensures account { AccountMatchesReceipts reported_calls working.new }
        ensures event { result.0.entry.event ≡ Event.Draw }
        ensures reply { result.0.entry.reply ≡ Ok (Drawn result.1) }
    {
        let mut guard = self.recorder.lock_journal(rt);
        let journal = &mut *guard;
        let mut kept = journal.kept().copy();
        let generation = kept.drawn.saturating_add(1);
        kept.drawn = generation;
        let reply = Ok(Reply::Drawn { generation });
        let draft = Records::without_calls(Event::Draw, &reply).draft(room, Some(kept));
        let receipt = working.commit(&self.recorder.history, journal, draft);
        (receipt, generation)
    }

    /// Installs at each processor, by rising number. The list of receipts must have room for them.
    fn install_all<R: Wait>(
        &self,
        rt: &R,
        working: &mut WorkingSeat<N>,
        loading: Loading<'_>,
        mut prepared_installs: Vec<PreparedInstall>,
        installs: &mut Vec<Receipt<Record>>,
    )
        requires account { AccountMatchesReceipts reported_calls working.old }
        requires hook { is_for loading.hook loading.policy.now ≡ true }
        requires many { vec_len prepared_installs ≡ P }
        requires same { All (λ s. s.installed.policy ≡ loading.policy.now) prepared_installs.items }
        requires none { installs.old.items ≡ [] }
        requires room { P ≤ vec_capacity installs.old }
        ensures caller { working.new.caller ≡ with_receipts installs.new.items working.old.caller }
        ensures account { AccountMatchesReceipts reported_calls working.new }
        ensures installs { AreInstalls 0 P loading.entry.hook loading.entry.generation loading.entry.policy.now installs.new.items }
    {
        'installs: for number in 0..self.cpus.len() {
            let Some(prepared) = prepared_installs.pop() else {
                unreachable!()
            };
            let receipt = self.install(
                rt,
                working,
                number as u8,
                loading.hook,
                loading.generation,
                prepared,
            );
            push_receipt(installs, receipt);
        }
    }

    /// Installs at one processor.
    fn install<R: Wait>(
        &self,
        rt: &R,
        working: &mut WorkingSeat<N>,
        processor: u8,
        hook: Hook,
        generation: u64,
        prepared: PreparedInstall,
    ) -> Receipt<Record>
        requires account { AccountMatchesReceipts reported_calls working.old }
        requires inside { processor < P }
        requires hook { is_for hook prepared.installed.policy ≡ true }
        ensures caller { working.new.caller ≡ with_receipt result working.old.caller }
        ensures account { AccountMatchesReceipts reported_calls working.new }
        ensures event { result.entry.event ≡ Event.Install processor hook generation prepared.installed.policy }
    {
        let PreparedInstall {
            mut installed,
            for_history,
            for_receipt,
            mut room,
        } = prepared;
        installed.set_generation(generation);
        let mut guard = self.lock_processor(rt, processor);
        let cpu = &mut *guard;
        let mut journal_guard = self.recorder.lock_journal(rt);
        let journal = &mut *journal_guard;
        let drawn = journal.kept().drawn;
        let reply = cpu.cell.content.state.replace(hook, drawn, installed);
        let events = (
            install_event(processor, hook, generation, for_history),
            install_event(processor, hook, generation, for_receipt),
        );
        let draft = Records::new(events, answer_twice(&reply), no_calls()).draft(&mut room, None);
        working.commit_one(&self.recorder.history, journal, &mut cpu.cell, draft)
    }
}
