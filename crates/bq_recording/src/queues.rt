//! Queues at the start.
ghost use Rattle.std.specs.Prelude.{◌≡◌, IfOk, vec_len};
ghost use Rattle.bq_recording.specs.Queues.{AreFresh};

use bq_disc::RunQueue;
use std::alloc::{AllocError, Global};

/// Makes `count` queues without tasks, each at the first mark. It takes memory for the list.
pub fn empty_queues<Q: RunQueue + Drop>(alloc: Global, count: usize) -> Result<Vec<Q>, AllocError>
    ensures many { IfOk result (λ v. vec_len v ≡ count) }
    ensures empty { IfOk result (λ v. AreFresh Q.members Q.last_mark v.items) }
{
    let mut queues = Vec::with_capacity(alloc, count)?;
    'queues: for _ in 0..count {
        queues.push(Q::empty())?;
    }
    Ok(queues)
}
