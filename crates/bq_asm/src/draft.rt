//! What is known of the lines that have been read: labels, instructions, and jumps that wait for their labels.
ghost use Rattle.std.specs.Prelude.{◌≡◌, ◌≤◌, ◌<◌, ◌+◌, [], Some, option_map, IfOk, IfErr, OnOk, List};
ghost use Rattle.bq_asm.specs.Lines.{Line, label_set, line_of_words, parsed_line, Instruction, Label};
ghost use Rattle.bq_asm.specs.Operands.{word_texts};

use crate::fault::{AsmFault, AssemblyCause, refusal};
use crate::instruction::instruction_of;
use crate::jump::{Jump, push_jump, set_jumps, target_of};
use crate::line::{is_label, without_comment, words};
use bq_insn::{Insn, SLOTS};
use indexmap::IndexMap;
use std::alloc::Global;

/// What is known of the lines that have been read.
#[derive(Drop)]
pub struct Draft<'a> {
    /// The labels that are set, each with its slot.
    pub labels: IndexMap<&'a [u8], usize>,
    /// The instructions. A jump to a label has the distance 0.
    pub insns: Vec<Insn>,
    /// How many slots the instructions take.
    pub slots: usize,
    /// The jumps to labels.
    pub jumps: Vec<Jump<'a>>,
    ghost few: { slots ≤ 4096 },
}

impl<'a> Draft<'a> {
    ghost use Rattle.bq_asm.specs.Draft.{IsDraftOf, TakesLine, RefusesLine, FinishesDraft, Fails};

    /// Returns the draft of no lines.
    pub fn new(alloc: Global) -> Self
        ensures { IsDraftOf [] result }
    {
        Draft {
            labels: IndexMap::new(alloc),
            insns: Vec::new(alloc),
            slots: 0,
            jumps: Vec::new(alloc),
        }
    }

    /// Takes the line of this number into the draft, or returns its fault with the least cause.
    pub fn take_line(&mut self, number: usize, line: &'a [u8]) -> Result<(), AsmFault>
        ensures ok { OnOk result (TakesLine self.old self.new number (parsed_line line.entry.now)) }
        ensures fault { IfErr result (RefusesLine self.old number (parsed_line line.entry.now)) }
    {
        let Some(words) = words(without_comment(line)) else {
            return Err(refusal(number, AssemblyCause::Word));
        };
        self.take_words(number, words.as_slice())
    }

    /// Returns the instructions, with the distance of each jump to a label set. The error names a fault of the text as
    /// a whole: no instruction, or a jump to a label that is set nowhere.
    pub fn finish(self) -> Result<Vec<Insn>, AsmFault>
        requires { (lines : List Line) × IsDraftOf lines self }
        ensures ok { IfOk result (λ insns. FinishesDraft self.entry insns.items) }
        ensures fault { IfErr result (Fails self.entry) }
    {
        if self.slots == 0 {
            return Err(refusal(0, AssemblyCause::Slots));
        }
        let Draft {
            labels,
            mut insns,
            slots: _,
            jumps,
        } = self;
        match set_jumps(&labels, jumps.as_slice(), insns.as_mut_slice()) {
            Ok(()) => Ok(insns),
            Err(line) => Err(refusal(line, AssemblyCause::LabelMissing)),
        }
    }

    /// Takes the words of a line into the draft, or returns the fault of the line.
    fn take_words(&mut self, number: usize, words: &[&'a [u8]]) -> Result<(), AsmFault>
        ensures ok { OnOk result (TakesLine self.old self.new number (line_of_words (word_texts words.entry.now))) }
        ensures fault { IfErr result (RefusesLine self.old number (line_of_words (word_texts words.entry.now))) }
    {
        let [first, operands @ ..] = words else {
            return Ok(());
        };
        match label_set(first, operands) {
            Some(name) => self.set_label(number, name),
            None => self.take_instruction(number, first, operands),
        }
    }

    /// Sets a label at the next slot; refuses a word that is no name of a label (A1), and a label that is set already (A3).
    fn set_label(&mut self, number: usize, name: &'a [u8]) -> Result<(), AsmFault>
        ensures ok { OnOk result (TakesLine self.old self.new number (Label name.entry.now)) }
        ensures fault { IfErr result (RefusesLine self.old number (Label name.entry.now)) }
    {
        if !is_label(name) {
            return Err(refusal(number, AssemblyCause::Word));
        }
        if self.labels.insert(name, self.slots)?.is_some() {
            return Err(refusal(number, AssemblyCause::LabelTwice));
        }
        Ok(())
    }

    /// Appends the instruction that the words of a line say; refuses words that say none (A1, A2), and an instruction past slot 4096 (A5).
    fn take_instruction(
        &mut self,
        number: usize,
        first: &[u8],
        operands: &[&'a [u8]],
    ) -> Result<(), AsmFault>
        ensures ok { OnOk result (TakesLine self.old self.new number (Instruction first.now (word_texts operands.entry.now))) }
        ensures fault { IfErr result (RefusesLine self.old number (Instruction first.now (word_texts operands.entry.now))) }
    {
        let insn = match instruction_of(first, operands) {
            Ok(insn) => insn,
            Err(cause) => return Err(refusal(number, cause)),
        };
        let next = self.slots + insn.slots();
        if next > SLOTS {
            return Err(refusal(number, AssemblyCause::Slots));
        }
        let index = self.insns.len();
        push_jump(
            &mut self.jumps,
            index,
            next,
            number,
            target_of(insn, operands),
        )?;
        self.insns.push(insn)?;
        self.slots = next;
        Ok(())
    }
}

/// Returns the label that a line of these words sets, if it sets one.
pub fn label_set<'a>(first: &'a [u8], operands: &[&'a [u8]]) -> Option<&'a [u8]>
    ensures { option_map (λ name. name.now) result ≡ label_set first.entry.now (word_texts operands.entry.now) }
{
    if operands.is_empty() {
        return first.strip_suffix(b":");
    }
    None
}
