//! Where the memory of a policy begins, and the references of its maps.

/// The first address of the context.
pub const CONTEXT_BASE: u64 = 0x1_0000_0000;

/// The first address of the stack.
pub const STACK_BASE: u64 = 0x2_0000_0000;

/// The number of bytes of the stack.
pub const STACK_SIZE: u64 = 512;

/// A text with the size of the stack, in bytes, in it.
#[macro_export]
macro_rules! with_stack_size {
    ($before:literal, $behind:literal) => {
        concat!($before, "512", $behind)
    };
}

/// The first address of the values of map 0.
pub const VALUES_BASE: u64 = 0x10_0000_0000;

/// The number of addresses in a page. The context, the stack and the values of each map have a page each.
pub const PAGE: u64 = 0x1_0000_0000;

/// The reference of map 0; each next map has a reference one greater.
pub const REFERENCE: u64 = 0x4000_0000_0000;
