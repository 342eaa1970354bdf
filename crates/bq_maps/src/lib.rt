//! Array maps: the bytes of the values of each map of a program, read and written entry by entry.
//!
//! It uses `bq_bpf`, which says what the shape of a map is and which helpers reach a map.
#![tactic(auto)]

pub mod maps;

pub use bq_bpf::{Board, MapShape};
pub use maps::Maps;
