//! What a place policy is shown.
ghost use Rattle.std.specs.Prelude.{◌≡◌, ◌≤◌, ◌<◌, ◌+◌, ◌*◌, min, length, take, Option};
ghost use Rattle.bq_hooks.specs.Contexts.{place_header, place_bytes_below, place_bytes_first, place_bytes_second, if_shown, if_any_shown};

use crate::Loads;
use crate::fields::{NOBODY, put_four, put_u32, put_u64};
use bq_disc::Entity;
use bq_disc::limits::PROCESSORS;
use bq_disc::mask::low_bits;
use std::marker::Model;

/// The length of the place context of an image of version 1, in bytes.
pub const PLACE_LENGTH: usize = 104;

/// The length of the place context of an image of version 2, in bytes.
pub const WIDE_PLACE_LENGTH: usize = 296;

/// The position of the task's mask in a place context.
pub const MASK_AT: usize = 8;

/// The position of the waking processor, the first of four numbers.
const WAKING_AT: usize = 24;

/// The position of the number of processors that the context shows.
pub const PROCESSORS_AT: usize = WAKING_AT + 8;

/// A woken task, the processor that wakes it, how many processors there are, the discipline's own choice, and the
/// processors' loads.
#[derive(Drop)]
pub struct Place<'a> {
    pub task: &'a Entity,
    pub waking: u8,
    pub processors: usize,
    pub own: u8,
    pub loads: &'a Loads,
}

impl<'a> Model for Place<'a> {
    ghost use Rattle.bq_hooks.specs.Contexts.{PlaceFacts};

    ghost Value = { PlaceFacts };

    ghost view = { λ p. record { task = p.task.now; waking = p.waking; processors = p.processors; own = p.own; loads = p.loads.now } };
}

/// Fills the place context of an image of version 1, which shows the first 16 processors. It takes no memory.
pub fn place_ctx(facts: &Place, context: &mut [u8; PLACE_LENGTH])
    ensures bytes { context.new ≡ place_bytes_first facts.now }
{
    fill(facts, 16, context);
}

/// Fills the place context of an image of version 2, which shows 64 processors. It takes no memory.
pub fn wide_place_ctx(facts: &Place, context: &mut [u8; WIDE_PLACE_LENGTH])
    ensures bytes { context.new ≡ place_bytes_second facts.now }
{
    fill(facts, 64, context);
}

/// Fills a context that shows the processors below a limit.
fn fill(facts: &Place, limit: usize, context: &mut [u8])
    requires high { limit ≤ PROCESSORS }
    requires room { length context.old ≡ 40 + 4 * limit }
    ensures bytes { context.new ≡ place_bytes_below limit facts.now }
{
    put_header(facts, limit, context);
    for processor in 0..limit {
        put_u32(
            context,
            40 + 4 * processor,
            u32::from(facts.loads.get(processor)),
        );
    }
}

/// Fills the first 40 bytes of a context.
fn put_header(facts: &Place, limit: usize, context: &mut [u8])
    requires high { limit ≤ PROCESSORS }
    requires room { 40 ≤ length context.old }
    ensures filled { take 40 context.new ≡ place_header limit facts.now }
{
    let task = facts.task;
    let shown = facts.processors.min(limit);
    put_u32(context, 0, u32::from(task.id()));
    put_u32(context, 4, task.weight());
    put_u64(context, MASK_AT, low_bits(task.mask(), shown));
    put_u64(context, 16, task.slice());
    put_four(
        context,
        WAKING_AT,
        if_shown(limit, facts.waking),
        if_any_shown(limit, task.prev()),
        shown as u32,
        if_shown(limit, facts.own),
    );
}

/// A processor's number if it is below the limit, else `NOBODY`.
fn if_shown(limit: usize, processor: u8) -> u32
    ensures { result ≡ if_shown limit processor }
{
    if usize::from(processor) < limit {
        u32::from(processor)
    } else {
        NOBODY
    }
}

/// A processor's number if there is one and it is below the limit, else `NOBODY`.
fn if_any_shown(limit: usize, processor: Option<u8>) -> u32
    ensures { result ≡ if_any_shown limit processor }
{
    match processor {
        None => NOBODY,
        Some(processor) => if_shown(limit, processor),
    }
}
