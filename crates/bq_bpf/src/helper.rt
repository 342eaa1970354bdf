//! The helpers that a policy may call.

/// The number of `Helper::Lookup`.
pub const LOOKUP: i32 = 1;
/// The number of `Helper::Update`.
pub const UPDATE: i32 = 2;
/// The number of `Helper::Now`.
pub const NOW: i32 = 5;
/// The number of `Helper::Processor`.
pub const PROCESSOR: i32 = 8;
/// The number of `Helper::AddCounter`.
pub const ADD_COUNTER: i32 = 100;
/// The number of `Helper::ReadCounter`.
pub const READ_COUNTER: i32 = 101;

/// A text with the number of a helper in it. The first argument names the helper by its constant.
#[macro_export]
macro_rules! with_helper {
    (LOOKUP, $before:literal, $behind:literal) => {
        concat!($before, "1", $behind)
    };
    (NOW, $before:literal, $behind:literal) => {
        concat!($before, "5", $behind)
    };
    (PROCESSOR, $before:literal, $behind:literal) => {
        concat!($before, "8", $behind)
    };
}

/// A text that ends with the numbers of the helpers.
#[macro_export]
macro_rules! with_helper_numbers {
    ($before:literal) => {
        concat!($before, "1, 2, 5, 8, 100 and 101")
    };
}

/// A text that ends with what the helpers do, by their numbers.
#[macro_export]
macro_rules! with_helpers {
    ($before:literal) => {
        concat!(
            $before,
            "1 looks an entry up, 2 writes one, 5 is the time, 8 the processor, 100 adds to a counter, 101 reads one"
        )
    };
}

/// What a call asks of the machine (RFC 9669 section 4.3.1). The arguments are in registers 1 to 5, and register 0 gets
/// the answer.
#[derive(Clone, Copy)]
pub enum Helper {
    /// Returns the address of an entry of a map, or 0 if there is no such entry.
    Lookup,
    /// Writes a value into an entry; returns 0, or 2^64 - 1 if there is no such entry.
    Update,
    /// Returns the time, in nanoseconds.
    Now,
    /// Returns the number of the processor.
    Processor,
    /// Adds to a counter that all processors share, and returns what the counter was before.
    AddCounter,
    /// Returns the value of a counter that all processors share.
    ReadCounter,
}

impl Helper {
    ghost use Rattle.std.specs.Prelude.{◌≡◌, ◌≢◌, MatchOption};
    ghost use Rattle.bq_bpf.specs.declared.helper.Helper.{Helper};
    ghost use Rattle.bq_bpf.specs.Helpers.{number_of_helper};

    /// The helper of a number; `None` if no helper has it.
    pub fn of(number: i32) -> Option<Helper>
        ensures { MatchOption result ((h : Helper) → number_of_helper h ≢ number) (λ h. number_of_helper h ≡ number) }
    {
        match number {
            LOOKUP => Some(Helper::Lookup),
            UPDATE => Some(Helper::Update),
            NOW => Some(Helper::Now),
            PROCESSOR => Some(Helper::Processor),
            ADD_COUNTER => Some(Helper::AddCounter),
            READ_COUNTER => Some(Helper::ReadCounter),
            _ => None,
        }
    }

    /// The number by which a program calls the helper.
    pub fn number(self) -> i32
        ensures { result ≡ number_of_helper self }
    {
        match self {
            Helper::Lookup => LOOKUP,
            Helper::Update => UPDATE,
            Helper::Now => NOW,
            Helper::Processor => PROCESSOR,
            Helper::AddCounter => ADD_COUNTER,
            Helper::ReadCounter => READ_COUNTER,
        }
    }
}
