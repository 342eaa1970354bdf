//! The shape of a map.
ghost use Rattle.std.specs.Prelude.{◌≡◌, ◌≤◌, ◌%◌, ◌↔◌, IsTrue};

/// How many maps a program has at most.
pub const MAPS: usize = 8;

/// The least number of bytes of a value. The number of bytes of each value is a multiple of it.
pub const LEAST_SIZE: u16 = 8;

/// The greatest number of bytes of a value.
pub const GREATEST_SIZE: u16 = 256;

/// The greatest number of entries of a map.
pub const ENTRIES: u16 = 256;

/// Which sizes a value may have, in words.
pub const SIZE_WORDS: &str = "8 to 256, a multiple of 8";

/// How many entries there may be, in words.
pub const ENTRIES_WORDS: &str = "1 to 256";

/// A text with the limits of sizes, entries and maps in it.
#[macro_export]
macro_rules! with_map_limits {
    ($size:literal, $entries:literal, $maps:literal, $behind:literal) => {
        concat!(
            $size,
            "8 to 256, a multiple of 8",
            $entries,
            "1 to 256",
            $maps,
            "8",
            $behind
        )
    };
}

/// The shape of a map: how many bytes a value has, and how many entries there are.
///
/// A value has 8 to 256 bytes, in eights, and there are 1 to 256 entries.
#[derive(Clone, Copy, PartialEq, Eq)]
pub struct MapShape {
    /// The bytes of one value.
    pub value_size: u16,
    /// The number of entries; their numbers begin at 0.
    pub entries: u16,
    ghost least_size: { 8 ≤ value_size },
    ghost greatest_size: { value_size ≤ 256 },
    ghost eights: { value_size % 8 ≡ 0 },
    ghost least_entries: { 1 ≤ entries },
    ghost greatest_entries: { entries ≤ 256 },
}

impl MapShape {
    ghost use Rattle.std.specs.Prelude.{IfSome, IfNone};
    ghost use Rattle.bq_bpf.specs.Limits.{IsShape};

    /// The shape with these numbers; `None` if one of them is not within its limits.
    pub fn new(value_size: u16, entries: u16) -> Option<MapShape>
        ensures size { IfSome result (λ s. s.value_size ≡ value_size) }
        ensures entries { IfSome result (λ s. s.entries ≡ entries) }
        ensures none { IfNone result (IsShape value_size entries → ⊥) }
    {
        if value_size < LEAST_SIZE || value_size > GREATEST_SIZE || value_size % LEAST_SIZE != 0 {
            return None;
        }
        if entries < 1 || entries > ENTRIES {
            return None;
        }
        Some(MapShape {
            value_size,
            entries,
        })
    }
}

/// Whether both lists have the same shapes.
pub fn same_shapes(shapes: &[MapShape], other: &[MapShape]) -> bool
    ensures { IsTrue result ↔ (shapes.now ≡ other.now) }
{
    if shapes.len() != other.len() {
        return false;
    }
    for at in 0..shapes.len() {
        if !same_shape(&shapes[at], &other[at]) {
            return false;
        }
    }
    true
}

fn same_shape(shape: &MapShape, other: &MapShape) -> bool
    ensures { IsTrue result ↔ (shape.now ≡ other.now) }
{
    shape == other
}
