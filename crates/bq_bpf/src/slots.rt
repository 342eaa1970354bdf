//! How long a program may be, in words.

/// A text with the numbers of slots in it that a program may have.
#[macro_export]
macro_rules! with_slots {
    ($before:literal, $behind:literal) => {
        concat!($before, "1 to 4096", $behind)
    };
}

/// A text with the numbers of bytes in it that a program may have, eight for each slot.
#[macro_export]
macro_rules! with_program_bytes {
    ($before:literal, $behind:literal) => {
        concat!($before, "8 to 32768", $behind)
    };
}
