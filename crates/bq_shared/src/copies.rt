//! Copies of events and of their policies. Copying takes no memory.
ghost use Rattle.std.specs.Prelude.{◌≡◌, IfOk, OnErr, IsTrue, is_some};
ghost use Rattle.bq_shared.specs.Events.{CarriesPolicy};

use bq_installed::Policy;
use bq_parts::Event;
use std::alloc::AllocError;

/// Copies an event. Fails only if the reference count of its policy would overflow.
#[inline(always)]
pub fn copy_event(event: &Event) -> Result<Event, AllocError>
    ensures same { IfOk result (λ again. again ≡ event.now) }
    ensures counted { OnErr result (CarriesPolicy event.now) }
{
    let policy = match event {
        Event::Install { policy, .. } => copy_policy(policy)?,
        _ => None,
    };
    Ok(event.with_policy(policy))
}

/// Copies a policy; None if there is no policy. Fails only if the reference count of the policy would overflow.
#[inline(always)]
pub fn copy_policy(policy: &Option<Policy>) -> Result<Option<Policy>, AllocError>
    ensures same { IfOk result (λ again. again ≡ policy.now) }
    ensures counted { OnErr result (IsTrue (is_some policy.now)) }
{
    match policy {
        None => Ok(None),
        Some(policy) => Ok(Some(policy.clone()?)),
    }
}
