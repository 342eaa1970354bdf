//! The image of a policy that `check` accepts.
ghost use Rattle.std.specs.Prelude.{IfOk, MatchOption};
ghost use Rattle.bq_policy_check.specs.Accepting.{IsImageAsAsked, IsFoundUnder, IsNoImage};

use crate::checking::{Terms, terms_of};
use crate::words::CheckWords;
use bq_console::WordsFault;
use bq_explain::judge;
use bq_policy_file::{PolicyFault, read_policy};
use std::alloc::{AllocError, Global};

/// Returns the bytes of the image of the policy whose file has these bytes, if `check` with these words accepts it; None otherwise.
pub fn accepted_image(
    alloc: Global,
    words: &CheckWords,
    bytes: &[u8],
) -> Result<Option<Vec<u8>>, AllocError>
    ensures { IfOk result (λ found. MatchOption found (IsNoImage words.now bytes.now) (λ image. IsImageAsAsked words.now bytes.now image.items)) }
{
    match terms_of(alloc, words) {
        Ok(terms) => image_under(alloc, &terms, bytes),
        Err(WordsFault::Words(_)) => Ok(None),
        Err(WordsFault::OutOfMemory) => Err(AllocError),
    }
}

/// Returns the bytes of the image of the policy in these bytes, if it is accepted under the terms: what the words say beside the
/// file, and their limits. None if it is not.
fn image_under(alloc: Global, terms: &Terms, bytes: &[u8]) -> Result<Option<Vec<u8>>, AllocError>
    ensures { IfOk result (IsFoundUnder bytes.now terms.now.head terms.now.limits) }
{
    let policy = match read_policy(alloc, bytes, &terms.head) {
        Ok(policy) => policy,
        Err(PolicyFault::OutOfMemory) => return Err(AllocError),
        Err(_) => return Ok(None),
    };
    let verdict = judge(alloc, &policy, &terms.limits)?;
    if !verdict.is_accepted() {
        return Ok(None);
    }
    Ok(Some(policy.image(alloc)?))
}
