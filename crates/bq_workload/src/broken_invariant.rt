//! The fault of a caller that lost count.

/// A number that names no task or processor, a time that does not fit, or a phase that ended too early or too late: the caller
/// lost count. The contract of each call says which of these it may find.
#[derive(Clone, Copy, Drop)]
pub struct BrokenInvariant;
