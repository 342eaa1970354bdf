//! Places that are known to hold the same word: the registers, and after them the slots of eight bytes of the stack.

ghost use Rattle.std.specs.Prelude.{◌≡◌, ◌≢◌, ◌+◌, ◌<◌, ◌≤◌, ℕ, length, slice_index};
ghost use Rattle.bq_bpf.specs.Memory.{stack_size};
ghost use Rattle.bq_states.specs.Copies.{GivesClass, LinksPlaces, KeepsClasses, ForgetsFirstClasses, ForgetsSlotClasses};

use crate::abstract_state::PLACES;
use crate::relations::{Related, unrelate};
use bq_insn::REGISTERS;

/// Registers 0 to 5 are written: they lose their classes.
pub fn forget_first_classes(classes: &mut [u8])
    requires { length classes.old ≡ PLACES }
    ensures { ForgetsFirstClasses classes.old classes.new }
{
    for register in 0..6 {
        classes[register] = 0;
    }
}

/// These bytes of the stack are written: slots that have one of them lose their classes.
pub fn forget_slot_classes(classes: &mut [u8], from: usize, to: usize)
    requires room { length classes.old ≡ PLACES }
    requires order { from ≤ to }
    requires inside { to ≤ stack_size }
    ensures { ForgetsSlotClasses classes.old classes.new from to }
{
    for slot in from / 8..(to + 7) / 8 {
        classes[REGISTERS + slot] = 0;
    }
}

/// Place `to` holds the word of place `from` from now on.
pub fn link(classes: &mut [u8], related: &mut [Option<Related>], to: usize, from: usize)
    requires to { to < length classes.old }
    requires from { from < PLACES }
    requires room { length classes.old ≡ PLACES }
    ensures { LinksPlaces classes.old related.old classes.new related.new to from }
{
    let class = class_of(classes, related, from, 0);
    classes[to] = class;
}

/// The class of a place. A place without a class gets one of its own, and never `beside`: the caller still needs the word of
/// that class. With `beside` 0 no class is spared.
pub fn class_of(classes: &mut [u8], related: &mut [Option<Related>], place: usize, beside: u8) -> u8
    requires place { place < PLACES }
    requires room { length classes.old ≡ PLACES }
    ensures some { result ≢ 0 }
    ensures long { length classes.new ≡ PLACES }
    ensures room { length related.new ≡ length related.old }
    ensures word { GivesClass classes.old related.old classes.new related.new place beside result }
{
    let class = classes[place];
    if class != 0 {
        return class;
    }
    let own = own_class(place, beside);
    retire(classes, own);
    unrelate(related, own);
    classes[place] = own;
    own
}

/// A class for a place; it is never `beside`.
fn own_class(place: usize, beside: u8) -> u8
    requires { place < PLACES }
    ensures some { result ≢ 0 }
    ensures other { result ≢ beside }
{
    let own = place as u8 + 1;
    if own == beside {
        own + PLACES as u8
    } else {
        own
    }
}

/// Takes the class from all places that have it.
fn retire(classes: &mut [u8], class: u8)
    ensures keeps { KeepsClasses classes.old classes.new }
    ensures gone { class ≢ 0 → (p : ℕ) → slice_index classes.new p ≢ class }
{
    for place in 0..classes.len() {
        if classes[place] == class {
            classes[place] = 0;
        }
    }
}

/// Keeps the classes that both lists give to the same place.
pub fn keep_same(into: &mut [u8], other: &[u8])
    requires { length into.old ≡ length other.now }
    ensures left { KeepsClasses into.old into.new }
    ensures right { KeepsClasses other.now into.new }
{
    for place in 0..into.len() {
        into[place] = same(into[place], other[place]);
    }
}

/// The class, if both are the same; else 0, which is no class.
#[inline(always)]
fn same(a: u8, b: u8) -> u8
    ensures left { result ≢ 0 → result ≡ a }
    ensures right { result ≢ 0 → result ≡ b }
{
    if a == b { a } else { 0 }
}
