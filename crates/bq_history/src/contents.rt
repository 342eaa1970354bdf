//! Takes the contents out of items, in the order of the items' places.
ghost use Rattle.std.specs.Prelude.{◌≡◌, ◌≤◌, ◌<◌, ℕ, List, map, length, vec_len, vec_capacity};
ghost use Rattle.bq_history.specs.Whole.{Each};
ghost use Rattle.bq_history.specs.Places.{times, IsAtItsPlace};

use crate::order::{Placed, in_order};

/// Something that has content and a place.
pub trait HasContent<C> {
    ghost content: { Self → C };

    /// The content.
    fn into_content(self) -> C
        ensures { result ≡ Self.content self };
}

/// The contents of items in the order of their places. Each place must be below the number of items, and no two items may
/// have one place. So the result has each item's content at the item's place. The contents go into `room`, which must be
/// empty and large enough; no memory is taken.
pub fn contents_in_order<C: Drop, T: Placed + HasContent<C> + Drop>(
    items: Vec<T>,
    room: Vec<C>,
) -> Vec<C>
    requires below { Each (λ x. T.place x < length items.items) items.items }
    requires few { (s : ℕ) → times T.place s items.items ≤ 1 }
    requires room { (vec_len room ≡ 0) × (vec_len items ≤ vec_capacity room) }
    ensures { (list : List C) (d : C) → length list ≡ length items.items → Each (IsAtItsPlace T.place T.content d list) items.items → result.items ≡ list }
{
    let mut items = items;
    in_order(&mut items);
    contents(items, room)
}

/// The contents of items, in their order.
fn contents<C: Drop, T: HasContent<C> + Drop>(items: Vec<T>, room: Vec<C>) -> Vec<C>
    requires { (vec_len room ≡ 0) × (vec_len items ≤ vec_capacity room) }
    ensures { result.items ≡ map T.content items.items }
{
    let mut contents = room;
    for item in items {
        contents.push_reserved(item.into_content());
    }
    contents
}
