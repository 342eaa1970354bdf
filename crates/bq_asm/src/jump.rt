//! Jumps to labels: which instructions they are, and how their distances are set once all labels are known.
ghost use Rattle.std.specs.Prelude.{◌≡◌, ◌≤◌, ◌<◌, ◌+◌, pos, length, map, option_map, OnOk, IfErr, ◌++◌, Ok, Err, All, IfSome, ◌-ℤ◌};
ghost use Rattle.std.specs.Map.{lookup};
ghost use Rattle.std.specs.Str.{bytes_eq};
ghost use Rattle.bq_asm.specs.Operands.{word_texts};
ghost use Rattle.bq_asm.specs.Jumps.{is_jump, target_of, jump_aimed, awaited_by, awaited_at, with_jumps, places_of};

use crate::fault::AsmFault;
use crate::line::is_label;
use bq_insn::{Insn, SLOTS};
use indexmap::IndexMap;

/// A jump to a label, which a later line may set.
#[derive(Clone, Copy)]
pub struct Jump<'a> {
    /// The place of the jump among the instructions.
    pub index: usize,
    /// The slot after the jump.
    pub next: usize,
    /// The line of the jump, counted from 1.
    pub line: usize,
    pub label: &'a [u8],
}

/// Returns the label that a jump names as its target, if it names one.
pub fn target_of<'a>(insn: Insn, operands: &[&'a [u8]]) -> Option<&'a [u8]>
    ensures { option_map (λ word. word.now) result ≡ target_of insn (word_texts operands.entry.now) }
{
    if !is_jump(insn) {
        return None;
    }
    let word = *operands.last()?;
    if is_label(word) { Some(word) } else { None }
}

/// Appends the jump to the label, if there is a label; fails only if memory runs out.
pub fn push_jump<'a>(
    jumps: &mut Vec<Jump<'a>>,
    index: usize,
    next: usize,
    line: usize,
    label: Option<&'a [u8]>,
) -> Result<(), AsmFault>
    ensures ok { OnOk result (map awaited_by jumps.new.items ≡ map awaited_by jumps.old.items
        ++ awaited_at index next line (option_map (λ name. name.now) label.entry)) }
    ensures memory { IfErr result (λ e. e ≡ AsmFault.OutOfMemory) }
{
    if let Some(label) = label {
        jumps.push(Jump {
            index,
            next,
            line,
            label,
        })?;
    }
    Ok(())
}

/// Sets the distance of each jump, or returns the line of the first jump whose label is set nowhere.
pub fn set_jumps<'a>(
    labels: &IndexMap<&'a [u8], usize>,
    jumps: &[Jump<'a>],
    insns: &mut [Insn],
) -> Result<(), usize>
    requires labels { All (λ e. e.1 ≤ SLOTS) labels.now.entries }
    requires jumps { All (λ j. (j.next ≤ SLOTS) × (j.index < length insns.old)) jumps.now }
    ensures ok { OnOk result (with_jumps (places_of labels.now) (map awaited_by jumps.now) insns.old ≡ Ok insns.new) }
    ensures missing { IfErr result (λ line. with_jumps (places_of labels.now) (map awaited_by jumps.now) insns.old ≡ Err line) }
{
    for jump in jumps {
        let Some(slot) = slot_of(labels, jump.label) else {
            return Err(jump.line);
        };
        let distance = distance_between(jump.next, slot);
        insns[jump.index] = aimed(insns[jump.index], distance);
    }
    Ok(())
}

/// Returns the slot at which a label is set; `None` if it is set nowhere.
fn slot_of<'a>(labels: &IndexMap<&'a [u8], usize>, label: &'a [u8]) -> Option<usize>
    requires { All (λ e. e.1 ≤ SLOTS) labels.now.entries }
    ensures found { result ≡ lookup (bytes_eq label.entry.now) (places_of labels.now) }
    ensures near { IfSome result (λ slot. slot ≤ SLOTS) }
{
    labels.get(&label).copied()
}

/// Returns the distance from one slot to another, in slots.
fn distance_between(from: usize, to: usize) -> i16
    requires from { from ≤ SLOTS }
    requires to { to ≤ SLOTS }
    ensures { result ≡ pos to -ℤ pos from }
{
    (to as i16) - (from as i16)
}

/// Tells whether the instruction is a jump or a branch.
fn is_jump(insn: Insn) -> bool
    ensures { result ≡ is_jump insn }
{
    match insn {
        Insn::Goto { .. } | Insn::Goto32 { .. } | Insn::Branch { .. } => true,
        _ => false,
    }
}

/// Returns the jump with this distance, from the slot after the jump to its target; any other instruction stays.
fn aimed(insn: Insn, distance: i16) -> Insn
    ensures { result ≡ jump_aimed insn distance }
{
    match insn {
        Insn::Goto { .. } => Insn::Goto { off: distance },
        Insn::Goto32 { .. } => Insn::Goto32 {
            imm: i32::from(distance),
        },
        Insn::Branch {
            width,
            cond,
            dst,
            src,
            ..
        } => Insn::Branch {
            width,
            cond,
            dst,
            src,
            off: distance,
        },
        _ => insn,
    }
}
