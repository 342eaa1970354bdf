//! The head of an object file, which says where its section headers are.
ghost use Rattle.std.specs.Prelude.{IfOk, IfErr};
ghost use Rattle.bq_object.specs.Objects.{HasHeaders};
ghost use Rattle.bq_object.specs.Faults.{IsHeaderFault};

use crate::fault::{MOST_SECTIONS, ObjectFault, Piece};
use crate::numbers::{half, part, wide};
use crate::section::HEADER_LENGTH;

/// The length of the head of an ELF64 file (System V ABI, "Object Files").
pub(crate) const HEAD_LENGTH: usize = 64;
/// Where the head tells its class: `EI_CLASS`.
const CLASS: usize = 4;
/// The class of files of 64 bits: `ELFCLASS64`.
const CLASS_64: u8 = 2;
/// Where the head tells the order of the bytes in its numbers: `EI_DATA`.
const BYTE_ORDER: usize = 5;
/// The order that begins with the least byte: `ELFDATA2LSB`.
const LITTLE_ENDIAN: u8 = 1;
/// Where the head tells its machine: `e_machine`.
const MACHINE: usize = 18;
/// The machine BPF.
const BPF: u16 = 247;
/// Where the head tells at which byte of the file the section headers begin: `e_shoff`.
const HEADERS: usize = 40;
/// Where the head tells the length of a section header: `e_shentsize`.
const HEADER_SIZE: usize = 58;
/// Where the head tells how many section headers there are: `e_shnum`.
const HEADER_COUNT: usize = 60;
/// Where the head tells the number of the section that has the names of the sections: `e_shstrndx`.
pub(crate) const NAMES: usize = 62;

/// The section headers, 64 bytes each.
pub fn headers_of(file: &[u8]) -> Result<&[u8], ObjectFault>
    ensures ok { IfOk result (λ headers. HasHeaders file.now headers.now) }
    ensures err { IfErr result (IsHeaderFault file.now) }
{
    if file.len() < HEAD_LENGTH {
        return Err(ObjectFault::Cut(Piece::Header));
    }
    if file[CLASS] != CLASS_64 || file[BYTE_ORDER] != LITTLE_ENDIAN {
        return Err(ObjectFault::Class);
    }
    if half(file, MACHINE) != BPF {
        return Err(ObjectFault::Machine);
    }
    if u64::from(half(file, HEADER_SIZE)) != HEADER_LENGTH {
        return Err(ObjectFault::HeaderSize);
    }
    let count = half(file, HEADER_COUNT);
    if count > MOST_SECTIONS {
        return Err(ObjectFault::Sections);
    }
    let long = HEADER_LENGTH * u64::from(count);
    match part(file, wide(file, HEADERS), long) {
        Some(headers) => Ok(headers),
        None => Err(ObjectFault::Cut(Piece::Headers)),
    }
}
