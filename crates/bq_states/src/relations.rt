//! How the words of two classes of places are related: by a sum, or by a comparison.

ghost use Rattle.std.specs.Prelude.{◌≡◌, ◌≢◌, ◌<◌, ℕ, Some, length};
ghost use Rattle.bq_ranges.specs.Within.{Within, NarrowsTo};
ghost use Rattle.bq_states.specs.Relations.{AreRelated, IsRelatedBy, Relates};

use bq_insn::{Condition, Width};
use bq_ranges::narrowing::{narrow, narrow_right};
use bq_ranges::{Range, arithmetic};

/// How one word is related to another.
#[derive(Clone, Copy, PartialEq, Eq)]
pub enum Relation {
    /// The first word is the second one plus this number, modulo 2^64.
    Sum(u64),
    /// The comparison of the first word with the second comes out as `goes` says.
    Compared {
        width: Width,
        cond: Condition,
        goes: bool,
    },
}

/// Two classes of places, and the relation between their words.
#[derive(Clone, Copy, PartialEq, Eq)]
pub struct Related {
    pub left: u8,
    pub right: u8,
    pub relation: Relation,
}

/// The greatest number of relations that are known at once.
pub const RELATIONS: usize = 8;

impl Relation {
    /// A range for the left word, if both words are in these ranges; `None` only if there are no such two words.
    pub fn left(self, left: Range, right: Range) -> Option<Range>
        ensures { (a b : ℕ) → Relates self a b → Within left a → Within right b → NarrowsTo result a }
    {
        match self {
            Relation::Sum(more) => { Some(arithmetic::add(Width::W64, right, Range::single(more))) }
            Relation::Compared { width, cond, goes } => narrow(cond, width, left, right, goes),
        }
    }

    /// A range for the right word, if both words are in these ranges.
    pub fn right(self, left: Range, right: Range) -> Range
        ensures { (a b : ℕ) → Relates self a b → Within left a → Within right b → Within result b }
    {
        match self {
            Relation::Sum(more) => arithmetic::sub(Width::W64, left, Range::single(more)),
            Relation::Compared { width, cond, goes } => {
                narrow_right(cond, width, left, right, goes)
            }
        }
    }
}

/// Learns one more relation. An older relation may be forgotten for it.
pub fn relate(related: &mut [Option<Related>], more: Related)
    requires { length related.old ≡ RELATIONS }
    ensures { (word : ℕ → ℕ) → AreRelated word related.old → IsRelatedBy word (Some more) → AreRelated word related.new }
{
    related[usize::from(more.left) % RELATIONS] = Some(more);
}

/// Forgets the relations of this class.
pub fn unrelate(related: &mut [Option<Related>], class: u8)
    ensures { (word other : ℕ → ℕ) → ((k : ℕ) → k ≢ class → other k ≡ word k) → AreRelated word related.old → AreRelated other related.new }
{
    for i in 0..related.len() {
        related[i] = without(related[i], class);
    }
}

/// The relation, if it is not of this class.
fn without(related: Option<Related>, class: u8) -> Option<Related>
    ensures { (word other : ℕ → ℕ) → ((k : ℕ) → k ≢ class → other k ≡ word k) → IsRelatedBy word related → IsRelatedBy other result }
{
    let Some(known) = related else {
        return None;
    };
    if known.left == class || known.right == class {
        return None;
    }
    Some(known)
}

/// Keeps the relations that both lists have at the same place.
pub fn keep_related(into: &mut [Option<Related>], other: &[Option<Related>])
    requires { length into.old ≡ length other.now }
    ensures left { (word : ℕ → ℕ) → AreRelated word into.old → AreRelated word into.new }
    ensures right { (word : ℕ → ℕ) → AreRelated word other.now → AreRelated word into.new }
{
    for i in 0..into.len() {
        into[i] = same(into[i], other[i]);
    }
}

/// The relation, if both are the same.
fn same(a: Option<Related>, b: Option<Related>) -> Option<Related>
    ensures left { (word : ℕ → ℕ) → IsRelatedBy word a → IsRelatedBy word result }
    ensures right { (word : ℕ → ℕ) → IsRelatedBy word b → IsRelatedBy word result }
{
    if a == b { a } else { None }
}
