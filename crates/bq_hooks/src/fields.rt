//! Numbers written at their places in a context, which is filled from its beginning.
ghost use Rattle.std.specs.Prelude.{◌≡◌, ◌≤◌, ◌+◌, ◌++◌, length, take};
ghost use Rattle.std.specs.Option.{option_map};
ghost use Rattle.bq_disc.specs.Chains.{task_of};
ghost use Rattle.bq_hooks.specs.Contexts.{u32_bytes, u64_bytes, four_bytes, task_bytes};

use bq_disc::Node;
use byteorder::{ByteOrder, LittleEndian};

/// What a context has in place of a missing task or processor: all 32 bits.
pub const NOBODY: u32 = 0xffff_ffff;

/// Writes a number of 32 bits; what precedes it does not change.
#[inline(always)]
pub fn put_u32(context: &mut [u8], at: usize, number: u32)
    requires room { at + 4 ≤ length context.old }
    ensures filled { take (at + 4) context.new ≡ take at context.old ++ u32_bytes number }
{
    LittleEndian::write_u32(&mut context[at..], number);
}

/// Writes a number of 64 bits; what precedes it does not change.
#[inline(always)]
pub fn put_u64(context: &mut [u8], at: usize, number: u64)
    requires room { at + 8 ≤ length context.old }
    ensures filled { take (at + 8) context.new ≡ take at context.old ++ u64_bytes number }
{
    LittleEndian::write_u64(&mut context[at..], number);
}

/// Writes four numbers of 32 bits, one after another.
#[inline(always)]
pub fn put_four(context: &mut [u8], at: usize, first: u32, second: u32, third: u32, fourth: u32)
    requires room { at + 16 ≤ length context.old }
    ensures filled { take (at + 16) context.new ≡ take at context.old ++ four_bytes first second third fourth }
{
    put_u32(context, at, first);
    put_u32(context, at + 4, second);
    put_u32(context, at + 8, third);
    put_u32(context, at + 12, fourth);
}

/// Writes a task's id, weight and v; if there is no task, writes `absent` and zeros.
#[inline(always)]
pub fn put_task(context: &mut [u8], at: usize, absent: u32, task: Option<&Node>)
    requires room { at + 16 ≤ length context.old }
    ensures filled { take (at + 16) context.new ≡ take at context.old ++ task_bytes absent (option_map (λ n. task_of n.now) task.entry) }
{
    match task {
        None => put_figures(context, at, absent, 0, 0),
        Some(node) => {
            let task = &node.entity;
            put_figures(context, at, u32::from(task.id()), task.weight(), task.v());
        }
    }
}

/// Writes an id, a weight and a v.
#[inline(always)]
fn put_figures(context: &mut [u8], at: usize, id: u32, weight: u32, v: u64)
    requires room { at + 16 ≤ length context.old }
    ensures filled { take (at + 16) context.new ≡ take at context.old ++ (u32_bytes id ++ u32_bytes weight ++ u64_bytes v) }
{
    put_u32(context, at, id);
    put_u32(context, at + 4, weight);
    put_u64(context, at + 8, v);
}
