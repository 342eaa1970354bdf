//! Contents taken out of their locks, at the end.
ghost use Rattle.std.specs.Prelude.{◌≡◌, ◌≤◌, ◌++◌, map, length, vec_len, vec_capacity};
ghost use Rattle.bq_history.specs.Items.{part_item};

use crate::Naming;
use crate::cell::AsPart;
use crate::commits::{History, HolderOf, LockedOf};
use crate::shared_state::World;
use std::sync::Mutex;

/// Takes the contents out of their locks into a vector, in any order. The vector must be empty and have room for them. One
/// holder gets their parts, in the order of the result. It takes no memory.
pub fn gather<A: AsPart<M::Part> + Drop, M: World, N: Naming>(
    history: &History<M, N>,
    all: &mut HolderOf<M, N>,
    locks: Vec<Mutex<LockedOf<A, M, N>>>,
    room: Vec<A>,
) -> Vec<A>
    requires room { (vec_len room ≡ 0) × (vec_len locks ≤ vec_capacity room) }
    ensures len { length result.items ≡ vec_len locks }
    ensures parts { all.new ≡ all.old ++ map (λ a. part_item (A.part a)) result.items }
{
    let mut locks = locks;
    let mut contents = room;
    while let Some(lock) = locks.pop() {
        let content = lock.into_inner().close(history, all);
        contents.push_reserved(content);
    }
    contents
}
