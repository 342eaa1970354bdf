//! What an install hands over. A load makes it before any lock is taken.
ghost use Rattle.std.specs.Prelude.{◌≡◌, true, IfOk, All, vec_len};
ghost use Rattle.bq_installed.specs.Answers.{fresh_maps};

use bq_history::Room;
use bq_installed::{Installed, Policy};
use bq_shared::{Record, copy_policy};
use std::alloc::{AllocError, Global};

/// What an install hands over: the policy with its maps, and a copy of the policy for the history and for the receipt.
#[derive(Drop)]
pub(crate) struct PreparedInstall {
    pub installed: Installed,
    pub for_history: Option<Policy>,
    pub for_receipt: Option<Policy>,
    pub room: Room<Record>,
    pub ghost ready: { room ≡ true },
    pub ghost history_is: { for_history ≡ installed.policy },
    pub ghost receipt_is: { for_receipt ≡ installed.policy },
    pub ghost fresh: { installed.maps ≡ fresh_maps installed.policy },
}

/// Makes what one install hands over. It takes memory for the maps of the policy, and for the record.
fn prepare_install(alloc: Global, policy: &Option<Policy>) -> Result<PreparedInstall, AllocError>
    ensures { IfOk result (λ s. s.installed.policy ≡ policy.now) }
{
    let installed = Installed::new(alloc, copy_policy(policy)?, 0)?;
    let for_history = copy_policy(policy)?;
    let for_receipt = copy_policy(policy)?;
    let mut room = Room::new();
    room.prepare(alloc)?;
    Ok(PreparedInstall {
        installed,
        for_history,
        for_receipt,
        room,
    })
}

/// Makes what each of this many installs hands over. It takes memory for all of them.
pub(crate) fn prepare_installs(
    alloc: Global,
    policy: &Option<Policy>,
    count: usize,
) -> Result<Vec<PreparedInstall>, AllocError>
    ensures many { IfOk result (λ v. vec_len v ≡ count) }
    ensures policy { IfOk result (λ v. All (λ s. s.installed.policy ≡ policy.now) v.items) }
{
    let mut prepared = Vec::with_capacity(alloc, count)?;
    'prepared: for _ in 0..count {
        prepared.push(prepare_install(alloc, policy)?)?;
    }
    Ok(prepared)
}
