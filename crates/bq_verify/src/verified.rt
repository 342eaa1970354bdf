//! Programs that were accepted.

use crate::pass::judge;
use crate::policy_form::PolicyForm;
use crate::refused::Refused;
use crate::subject::SubjectView;
use bq_bpf::{MapShape, Packed, pack_all};
use bq_hooks::{Hook, Version};
use bq_insn::Insn;
use std::alloc::Global;
use std::marker::Model;

/// A program that is safe within its budget.
#[derive(Drop)]
pub struct Verified {
    slots: Vec<Option<Insn>>,
    code: Vec<Packed>,
    form: PolicyForm,
    budget: u32,
}

impl Model for Verified {
    ghost use Rattle.bq_bpf.specs.Packing.{Stands};
    ghost use Rattle.bq_verify.specs.Accepted.{Accepted, IsAccepted};
    ghost use Rattle.bq_verify.specs.Subjects.{context_size_of};

    ghost Value = { Accepted };

    ghost view = { λ v. record { slots = v.slots.items; shapes = v.form.shapes.items; hook = v.form.hook; version = v.form.version; budget = v.budget } };

    ghost invariant = { λ v. Stands v.code.items v.slots.items × IsAccepted v.slots.items v.form.shapes.items (context_size_of v.form) v.budget };
}

impl Verified {
    ghost use Rattle.std.specs.Prelude.{◌≡◌, ◌<◌, ℕ, IfErr, IfOk, length, slice_index};
    ghost use Rattle.bq_bpf.specs.Packing.{Stands};
    ghost use Rattle.bq_verify.specs.Accepted.{IsAccepted};
    ghost use Rattle.bq_hooks.specs.Hooks.{context_length_of};
    ghost use Rattle.bq_verify.specs.Control.{AreHeights, BoundsCalls, CanBePassed};
    ghost use Rattle.bq_verify.specs.Subjects.{subject_of_slots};
    ghost use Rattle.bq_verify.specs.Refusals.{IsOutOfMemory, IsStopped};
    ghost use Rattle.bq_verify.specs.Straight.{IsStraightProgram};
    ghost use Rattle.bq_bpf.specs.Steps.{instruction_at};
    ghost use Rattle.std.specs.Option.{option_copied};

    /// The instruction of each slot.
    pub fn slots(&self) -> &[Option<Insn>]
        ensures slots { result.now ≡ self.now.slots }
        ensures accepted { IsAccepted self.now.slots self.now.shapes (context_length_of self.now.hook self.now.version) self.now.budget }
    {
        &self.slots
    }

    /// The instruction of each slot in its flat form.
    pub fn code(&self) -> &[Packed]
        ensures { Stands result.now self.now.slots }
    {
        &self.code
    }

    /// The instruction that begins at a slot, if one does.
    pub fn at(&self, slot: usize) -> Option<&Insn>
        ensures { option_copied result ≡ instruction_at self.now.slots slot }
    {
        if slot >= self.slots.len() {
            return None;
        }
        self.slots[slot].as_ref()
    }

    /// The shapes of the program's maps.
    pub fn shapes(&self) -> &[MapShape]
        ensures { result.now ≡ self.now.shapes }
    {
        &self.form.shapes
    }

    /// The hook that the program is for.
    pub fn hook(&self) -> Hook
        ensures { result ≡ self.now.hook }
    {
        self.form.hook
    }

    /// The version of the program's image.
    pub fn version(&self) -> Version
        ensures { result ≡ self.now.version }
    {
        self.form.version
    }

    /// How many instructions a run executes at most: those on the longest path to an EXIT.
    pub fn budget(&self) -> u32
        ensures { result ≡ self.now.budget }
    {
        self.budget
    }

    /// The program, if it is safe. `heights` fall along each edge and are at least 1 at each instruction (`AreHeights`), as the lengths
    /// of the longest paths do.
    pub(crate) fn new(
        alloc: Global,
        slots: Vec<Option<Insn>>,
        form: PolicyForm,
        heights: &[u32],
    ) -> Result<Verified, Refused>
        requires passable { CanBePassed (subject_of_slots slots.items form) }
        requires heights { AreHeights slots.items heights.now }
        requires made { (made : ℕ → ℕ) × BoundsCalls slots.items made }
        requires as_many { length heights.now ≡ length slots.items }
        requires some { 0 < length slots.items }
        ensures slots { IfOk result (λ v. v.slots ≡ slots.items) }
        ensures shapes { IfOk result (λ v. v.shapes ≡ form.shapes.items) }
        ensures hook { IfOk result (λ v. v.hook ≡ form.hook) }
        ensures version { IfOk result (λ v. v.version ≡ form.version) }
        ensures budget { IfOk result (λ v. v.budget ≡ slice_index heights.now 0) }
        ensures accepted { IfOk result (λ v. IsAccepted v.slots v.shapes (context_length_of v.hook v.version) v.budget) }
        ensures stopped { IfErr result (IsStopped (subject_of_slots slots.items form)) }
        ensures total_on_straight { IsStraightProgram (subject_of_slots slots.items form) → IfErr result IsOutOfMemory }
    {
        let subject = SubjectView {
            slots: slots.as_slice(),
            shapes: form.shapes.as_slice(),
            context: form.context_length(),
        };
        judge(alloc, &subject, heights)?;
        let code = pack_all(alloc, slots.as_slice())?;
        let budget = heights[0];
        Ok(Verified {
            slots,
            code,
            form,
            budget,
        })
    }
}
