//! What is known of a machine state when control reaches a slot.

use crate::relations::{RELATIONS, Related};
use bq_insn::{REGISTERS, Size};
use bq_ranges::Range;

/// How many slots of eight bytes the stack has.
pub const STACK_SLOTS: usize = 64;

/// How many places can hold a word: the registers, and after them the slots of eight bytes of the stack.
pub const PLACES: usize = 75;

/// What a word counts from.
#[derive(Clone, Copy, PartialEq, Eq)]
pub enum ValueKind {
    /// Nothing: the word is a number.
    Number,
    /// The start of the context.
    Context,
    /// The lowest byte of the stack.
    Stack,
    /// The start of an entry of the map with this number, or of a map of its shape.
    Entry(u8),
    /// The answer of a look-up in the map with this number or one of its shape, before its test: the start of an entry, or 0.
    EntryOrNull(u8),
    /// The reference of the map with this number, or of a map of its shape.
    Map(u8),
}

/// What is known of a word: the base from which it counts, and how far above the base it is.
#[derive(Clone, Copy)]
pub struct AbstractValue {
    pub kind: ValueKind,
    /// How far above the base the word is; for a pointer in bytes.
    pub offset: Range,
}

/// Some bytes of the stack, and a range for the number that they spell, the low byte first.
#[derive(Clone, Copy)]
pub struct StackPart {
    /// The first byte, counted from the lowest byte of the stack.
    pub first: u16,
    /// How many bytes there are.
    pub size: Size,
    pub range: Range,
}

/// What is known of registers and stack. Nothing is known of the rest of the state.
#[derive(Clone, Copy)]
pub struct AbstractState {
    /// The word in each register that is known to be set.
    pub registers: [Option<AbstractValue>; REGISTERS],
    /// Which bytes of the stack are set.
    pub set: [bool; 512],
    /// What is known of the word that was stored whole in each slot of eight bytes of the stack, if anything is.
    pub kept: [Option<AbstractValue>; STACK_SLOTS],
    /// Numbers that were stored in a few bytes. A number stored at byte `n` is kept at place `n / 4 % 4`, until another
    /// one replaces it.
    pub parts: [Option<StackPart>; 4],
    /// The class of each place: the registers, and then the slots of eight bytes. Places of one class other than 0 hold
    /// the same word.
    pub classes: [u8; PLACES],
    /// Known relations between the words of two classes. A class may have lost its places since a relation was learnt.
    pub related: [Option<Related>; RELATIONS],
}
