//! The numbers of processors.
ghost use Rattle.std.specs.Prelude.{◌≡◌};
ghost use Rattle.bq_words.specs.Sizes.{processors_in, size_numbered};

/// How many processors there are: a power of 2 up to 64.
#[derive(Clone, Copy, PartialEq, Eq)]
pub enum ProcessorCount {
    One,
    Two,
    Four,
    Eight,
    Sixteen,
    ThirtyTwo,
    SixtyFour,
}

/// `before`, the possible numbers of processors, and `behind` as one text.
#[macro_export]
macro_rules! with_sizes {
    ($before:literal) => {
        with_sizes!($before, "")
    };
    ($before:literal, $behind:literal) => {
        concat!($before, "1, 2, 4, 8, 16, 32 or 64", $behind)
    };
}

impl ProcessorCount {
    /// The size with this many processors, if there is one.
    pub fn of_number(processors: u8) -> Option<ProcessorCount>
        ensures { result ≡ size_numbered processors }
    {
        match processors {
            1 => Some(ProcessorCount::One),
            2 => Some(ProcessorCount::Two),
            4 => Some(ProcessorCount::Four),
            8 => Some(ProcessorCount::Eight),
            16 => Some(ProcessorCount::Sixteen),
            32 => Some(ProcessorCount::ThirtyTwo),
            64 => Some(ProcessorCount::SixtyFour),
            _ => None,
        }
    }

    /// How many processors a size has.
    pub fn processors(self) -> u8
        ensures { result ≡ processors_in self }
    {
        match self {
            ProcessorCount::One => 1,
            ProcessorCount::Two => 2,
            ProcessorCount::Four => 4,
            ProcessorCount::Eight => 8,
            ProcessorCount::Sixteen => 16,
            ProcessorCount::ThirtyTwo => 32,
            ProcessorCount::SixtyFour => 64,
        }
    }
}
