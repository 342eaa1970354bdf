//! What the pass judges.

use bq_bpf::MapShape;
use bq_insn::Insn;

/// What is verified: the slots of a program, the shapes of its maps, and the length of its context.
#[derive(Clone, Copy)]
pub(crate) struct SubjectView<'a> {
    pub slots: &'a [Option<Insn>],
    pub shapes: &'a [MapShape],
    pub context: usize,
}
