//! Images that come in pieces.
ghost use Rattle.std.specs.Prelude.{◌≡◌, ◌≢◌, ◌<◌, ◌≤◌, ◌++◌, ℕ, List, length, OnOk, IfOk, IfErr, IfSome, IfNone, Some, None, Err};
ghost use Rattle.bq_load.specs.Answers.{SpellsImage, IsUnread, Loads, IsUnloaded};
ghost use Rattle.bq_load.specs.Faults.{IsLoadFault};
ghost use Rattle.bq_load.specs.Feeding.{Holds, HasFailed, StandsFor, FeedsPiece, unfed};
ghost use Rattle.bq_load.specs.Laws.{AreBytes};
ghost use Rattle.bq_load.specs.Straight.{HasStraightProgram};
ghost use Rattle.bq_load.specs.declared.fault.LoadFault.{LoadFault as LoadFaultValue};
ghost use Rattle.bq_load.specs.declared.fault.LoadFault.TheVariants.{OutOfMemory};

use crate::fault::LoadFault;
use crate::header::read_header;
use crate::image::{Image, LONGEST_IMAGE, read_image};
use crate::judging::judge;
use crate::loading::load;
use bq_insn::fault::DecodeCause;
use bq_verify::Verified;
use std::alloc::Global;
use std::marker::Model;

/// Reads an image that comes in pieces. Contracts see the bytes that the reader holds, how many bytes came after them,
/// and the fault that it has answered. The reader never holds more than 32,812 bytes: if a program has more than 4096
/// slots, it counts the bytes of the program and does not keep them.
///
/// # Example
///
/// ```
/// let mut reader = ImageReader::new(alloc);
/// reader.feed(&[0x42, 0x51, 0x50, 0x49, 1, 1, 0, 0])?; // BQPI, version 1, preempt, no maps
/// reader.feed(&[2, 0, 0, 0, 0xb7, 0, 0, 0, 1, 0, 0, 0])?; // 2 slots, mov64 r0, 1
/// reader.feed(&[0x95, 0, 0, 0, 0, 0, 0, 0])?; // exit
/// let verified = reader.finish_load()?;
/// assert_eq!(rt; verified.budget(), 2);
/// ```
#[derive(Drop)]
pub struct ImageReader {
    alloc: Global,
    bytes: Vec<u8>,
    past: usize,
    failed: Option<LoadFault>,
}

impl Model for ImageReader {
    ghost use Rattle.std.specs.Prelude.{◌≤◌, length};
    ghost use Rattle.bq_load.specs.Feeding.{Fed};
    ghost use Rattle.bq_load.specs.declared.image.TheConstants.{LONGEST_IMAGE};

    ghost Value = { Fed };

    ghost view = { λ r. record { held = r.bytes.items; past = r.past; failed = r.failed } };

    ghost invariant = { λ r. length r.bytes.items ≤ LONGEST_IMAGE };
}

impl ImageReader {
    /// A reader to which no byte has come. It takes its memory from `alloc`.
    pub fn new(alloc: Global) -> ImageReader
        ensures { result ≡ unfed }
    {
        ImageReader {
            alloc,
            bytes: Vec::new(alloc),
            past: 0,
            failed: None,
        }
    }

    /// Takes the next piece. The call that completes a bad field answers the fault of the field. The call that brings a
    /// byte past the end answers `Rest`. Every later call answers the same fault again. These faults are found before
    /// any memory is asked for. After `OutOfMemory` the reader is as it was before the piece, and you may feed the
    /// piece again.
    pub fn feed(&mut self, piece: &[u8]) -> Result<(), LoadFault>
        ensures ok { OnOk result ((self.new.failed ≡ None) × FeedsPiece self.old piece.now self.new) }
        ensures failed { IfErr result (λ fault. fault ≢ OutOfMemory → (self.new.failed ≡ Some fault) × FeedsPiece self.old piece.now self.new) }
        ensures exact { (bytes : List ℕ) (fault : LoadFaultValue) → StandsFor self.old bytes → AreBytes (bytes ++ piece.now)
            → HasFailed (bytes ++ piece.now) fault → result ≡ Err fault }
        ensures sticky { (fault : LoadFaultValue) → self.old.failed ≡ Some fault → (result ≡ Err fault) × (self.new ≡ self.old) }
        ensures memory { result ≡ Err OutOfMemory → self.new ≡ self.old }
        ensures bounded { length self.new.held ≤ LONGEST_IMAGE }
    {
        if let Some(fault) = self.failed {
            return Err(fault);
        }
        match judge(self.bytes.as_slice(), self.past, piece) {
            Ok(kept) => {
                self.bytes.extend_from_slice(&piece[..kept])?;
                self.past += piece.len() - kept;
                Ok(())
            }
            Err(fault) => {
                self.failed = Some(fault);
                Err(fault)
            }
        }
    }

    /// What `read_image` answers for all bytes fed, however they were cut.
    pub fn finish(self) -> Result<Image, LoadFault>
        ensures image { IfOk result (λ image. (bytes : List ℕ) → StandsFor self bytes → SpellsImage bytes image) }
        ensures unread { IfErr result (λ fault. (bytes : List ℕ) → StandsFor self bytes → IsUnread bytes fault) }
    {
        if let Some(fault) = self.known() {
            return Err(fault);
        }
        read_image(self.alloc, self.bytes.as_slice())
    }

    /// What `load` answers for all bytes fed, however they were cut.
    pub fn finish_load(self) -> Result<Verified, LoadFault>
        ensures loaded { IfOk result (λ v. (bytes : List ℕ) → StandsFor self bytes → Loads bytes v) }
        ensures unloaded { IfErr result (λ fault. (bytes : List ℕ) → StandsFor self bytes → IsUnloaded bytes fault) }
        ensures accepts { (bytes : List ℕ) → StandsFor self bytes → AreBytes bytes → HasStraightProgram bytes → IfErr result (λ e. e ≡ OutOfMemory) }
    {
        if let Some(fault) = self.known() {
            return Err(fault);
        }
        load(self.alloc, self.bytes.as_slice())
    }

    /// The fault of the bytes fed, if a fault was answered or not all bytes are held; `None` if the reader holds all of
    /// them.
    fn known(&self) -> Option<LoadFault>
        ensures fault { IfSome result (λ fault. (bytes : List ℕ) → StandsFor self.now bytes → IsLoadFault bytes fault) }
        ensures none { IfNone result ((bytes : List ℕ) → StandsFor self.now bytes → bytes ≡ self.now.held) }
    {
        if let Some(fault) = self.failed {
            return Some(fault);
        }
        if self.past == 0 {
            return None;
        }
        Some(fault_past(self.bytes.as_slice(), self.past))
    }
}

/// The fault of an image whose program is too long, after this many bytes of the program were only counted.
fn fault_past(held: &[u8], past: usize) -> LoadFault
    requires { 0 < past }
    ensures { (bytes : List ℕ) → Holds held.now past bytes → IsLoadFault bytes result }
{
    let (header, part) = match read_header(held) {
        Ok(read) => read,
        Err(fault) => return fault,
    };
    let length = part.len().saturating_add(past);
    let wanted = 8 * header.slots as usize;
    if length < wanted {
        return LoadFault::Cut;
    }
    if length > wanted {
        return LoadFault::Rest;
    }
    LoadFault::Decode {
        slot: 0,
        cause: DecodeCause::Length,
    }
}
