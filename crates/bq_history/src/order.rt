//! Items that know their places are sorted in place, without memory.
ghost use Rattle.std.specs.Prelude.{◌≡◌, ◌≤◌, ◌<◌, ℕ, length};
ghost use Rattle.bq_history.specs.Places.{IsAt, times, ArePlaced, AreFrom};
ghost use Rattle.bq_history.specs.Whole.{Each};

/// Something that knows its place.
pub trait Placed {
    ghost place: { Self → ℕ };

    /// Its place, counted from 0.
    fn place(&self) -> u64
        ensures { result ≡ Self.place self.now };
}

/// Brings each item to its place. Each place must be below the number of items, and no two items may have one place.
pub fn in_order<T: Placed>(items: &mut [T])
    requires below { Each (λ x. T.place x < length items.old) items.old }
    requires few { (s : ℕ) → times T.place s items.old ≤ 1 }
    ensures len { length items.new ≡ length items.old }
    ensures placed { ArePlaced T.place (length items.new) items.new }
    ensures from { AreFrom items.old items.new }
{
    for k in 0..items.len() {
        let at = find(items, k);
        items.swap(k, at);
    }
}

/// The index of the item with place `from`. It is not before that index.
fn find<T: Placed>(items: &[T], from: usize) -> usize
    requires there { (j : ℕ) × (from ≤ j) × IsAt T.place items.now from j }
    ensures after { from ≤ result }
    ensures found { IsAt T.place items.now from result }
{
    for i in from..items.len() {
        if items[i].place() == from as u64 {
            return i;
        }
    }
    unreachable!()
}
