//! Units of time as words.
ghost use Rattle.std.specs.Prelude.{◌≡◌};
ghost use Rattle.bq_words.specs.Units.{unit_of};

/// `before`, the units of time, and `behind` as one text.
#[macro_export]
macro_rules! with_units {
    ($before:literal, $behind:literal) => {
        concat!($before, "ns, us, ms or s", $behind)
    };
}

/// How many nanoseconds a unit has: `ns`, `us`, `ms` or `s`. `None` if the word is no unit.
pub fn nanoseconds(unit: &[u8]) -> Option<u64>
    ensures { result ≡ unit_of unit.now }
{
    match unit {
        b"ns" => Some(1),
        b"us" => Some(1000),
        b"ms" => Some(1_000_000),
        b"s" => Some(1_000_000_000),
        _ => None,
    }
}
