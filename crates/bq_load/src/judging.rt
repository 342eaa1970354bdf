//! Judges a piece of an image before any memory is asked for.
ghost use Rattle.std.specs.Prelude.{◌≡◌, ◌+◌, ◌-◌, ◌<◌, ◌≤◌, ◌^◌, ◌++◌, ℕ, List, length, take, IfOk, IfErr};
ghost use Rattle.bq_load.specs.Feeding.{Holds, IsFinal, HasFailed};
ghost use Rattle.bq_load.specs.Laws.{AreBytes};
ghost use Rattle.bq_load.specs.declared.fault.LoadFault.{LoadFault as LoadFaultValue};

use crate::fault::LoadFault;
use crate::header::read_header;
use crate::image::LONGEST_IMAGE;
use arrayvec::ArrayVec;
use bq_insn::SLOTS;

/// How many bytes of the piece the reader must keep after the bytes that it holds; it only counts the others.
/// The error is the fault that the piece completes.
pub fn judge(held: &[u8], past: usize, piece: &[u8]) -> Result<usize, LoadFault>
    ensures within { IfOk result (λ kept. kept ≤ length piece.now) }
    ensures counts { IfOk result (λ kept. past + (length piece.now - kept) < 2 ^ 64) }
    ensures bounded { IfOk result (λ kept. length held.now ≤ LONGEST_IMAGE → length held.now + kept ≤ LONGEST_IMAGE) }
    ensures stands { IfOk result (λ kept. (bytes : List ℕ) → Holds held.now past bytes
        → Holds (held.now ++ take kept piece.now) (past + (length piece.now - kept)) (bytes ++ piece.now)) }
    ensures going { IfOk result (λ _. (bytes : List ℕ) (fault : LoadFaultValue) → Holds held.now past bytes → AreBytes (bytes ++ piece.now)
        → HasFailed (bytes ++ piece.now) fault → ⊥) }
    ensures stays { IfErr result IsFinal }
    ensures failed { IfErr result (λ fault. (bytes : List ℕ) → Holds held.now past bytes → HasFailed (bytes ++ piece.now) fault) }
{
    let front = front_of(held, piece);
    let (header, rest) = match read_header(front.as_slice()) {
        Ok(read) => read,
        Err(fault) => match fault {
            // the header is not whole yet
            LoadFault::Cut => return Ok(piece.len()),
            _ => return Err(fault),
        },
    };
    let begin = front.len() - rest.len();
    let length = held.len().saturating_add(past).saturating_add(piece.len());
    if length > begin + 8 * header.slots as usize {
        return Err(LoadFault::Rest);
    }
    if header.slots as usize > SLOTS {
        return Ok(begin.saturating_sub(held.len()));
    }
    Ok(piece.len())
}

/// The first 44 bytes of the held bytes and the piece together: the longest header has 44.
fn front_of(held: &[u8], piece: &[u8]) -> ArrayVec<u8, 44>
    ensures { result.items ≡ take 44 (held.now ++ piece.now) }
{
    let mut front = ArrayVec::new();
    let old = held.len().min(44);
    front.try_extend_from_slice(&held[..old]).unwrap();
    let new = piece.len().min(44 - old);
    front.try_extend_from_slice(&piece[..new]).unwrap();
    front
}
