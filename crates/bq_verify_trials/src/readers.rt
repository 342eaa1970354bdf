//! Images in pieces: what a reader answers to each of them, and in the end; when memory runs out, that is answered, and nothing changes.

use crate::asserting::{is_number, is_true};
use crate::images::{COUNTING, Moves, ZERO, ZERO_CUT, budget, bytes_of};
use bq_insn::fault::DecodeCause;
use bq_load::{ImageReader, LoadFault, read_image};
use std::alloc::Global;
use std::process::Abort;

/// The budget of the program that a reader was fed.
fn budget_of(reader: ImageReader) -> Result<u32, LoadFault> {
    let verified = reader.finish_load()?;
    Ok(verified.budget())
}

/// The reader answers so to the piece.
fn answers(rt: &impl Abort, reader: &mut ImageReader, piece: &[u8], answer: Result<(), LoadFault>) {
    is_true(rt, reader.feed(piece) == answer);
}

/// A reader that took the image in pieces of that size, which is not 0.
fn fed(rt: &impl Abort, alloc: Global, image: &[u8], size: usize) -> ImageReader {
    let mut reader = ImageReader::new(alloc);
    for piece in image.chunks(size.max(1)) {
        answers(rt, &mut reader, piece, Ok(()));
    }
    reader
}

/// What a reader answers in the end.
fn ends(rt: &impl Abort, answer: Result<u32, LoadFault>, expected: Result<u32, LoadFault>) {
    is_true(rt, answer == expected);
}

/// Sizes of pieces, from one byte to the whole image.
static SIZES: [usize; 6] = [1, 3, 7, 16, 40, 136];

/// An image that comes in pieces of any size is loaded as the whole is.
#[test]
fn pieces_are_one_image(rt: HostRuntime) {
    for size in &SIZES {
        let reader = fed(&rt, rt.alloc(), &COUNTING, *size);
        ends(&rt, budget_of(reader), Ok(12));
    }
}

/// Reading ends by that fault.
fn ends_by(rt: &impl Abort, reader: ImageReader, fault: LoadFault) {
    is_true(rt, reader.finish().err() == Some(fault));
}

/// Pieces, and what a reader answers to each.
type Pieces = &'static [(&'static [u8], Result<(), LoadFault>)];

/// A reader answers each piece, and ends by that fault.
fn pieces_end_by(rt: &impl Abort, alloc: Global, pieces: Pieces, fault: LoadFault) {
    let mut reader = ImageReader::new(alloc);
    for (piece, answer) in pieces {
        answers(rt, &mut reader, piece, *answer);
    }
    ends_by(rt, reader, fault);
}

/// Pieces, with the fault by which reading then ends.
static ENDS: [(Pieces, LoadFault); 4] = [
    (
        &[
            (&[0x00], Ok(())),
            (&[0x51], Ok(())),
            (&[0x50], Ok(())),
            (&[0x49], Err(LoadFault::Magic)),
            (&[0x42], Err(LoadFault::Magic)),
        ],
        LoadFault::Magic,
    ),
    (
        &[
            (&ZERO, Ok(())),
            (&[], Ok(())),
            (&[0], Err(LoadFault::Rest)),
            (&[], Err(LoadFault::Rest)),
        ],
        LoadFault::Rest,
    ),
    (&[(&ZERO_CUT, Ok(()))], LoadFault::Cut),
    (&[], LoadFault::Cut),
];

/// A fault is answered to the piece that has its byte, and to each piece behind it.
#[test]
fn faults_come_with_the_byte_that_makes_them(rt: HostRuntime) {
    for (pieces, fault) in &ENDS {
        pieces_end_by(&rt, rt.alloc(), pieces, *fault);
    }
}

/// A byte behind the image is answered, and the load is refused for it.
#[test]
fn a_load_past_the_end_is_refused(rt: HostRuntime) {
    let mut past = ImageReader::new(rt.alloc());
    answers(&rt, &mut past, &ZERO, Ok(()));
    answers(&rt, &mut past, &[0], Err(LoadFault::Rest));
    ends(&rt, budget_of(past), Err(LoadFault::Rest));
}

/// The bytes of a program that is too long are read to the end before it is refused.
#[test]
fn a_program_that_is_too_long_is_counted(rt: HostRuntime) {
    let moves = Moves {
        version: 1,
        hook: 1,
        slots: 5000,
        count: 5000,
        rest: &[],
    };
    let image = bytes_of(rt.alloc(), &moves).expect(&rt, "memory");
    is_too_long(&rt, rt.alloc(), image.as_slice());
}

/// An image is too long, in pieces of any size; a byte behind it is one too many all the same.
fn is_too_long(rt: &impl Abort, alloc: Global, image: &[u8]) {
    let fault = LoadFault::Decode {
        slot: 0,
        cause: DecodeCause::Length,
    };
    for size in &[1000, 4096, 40012] {
        ends_by(rt, fed(rt, alloc, image, *size), fault);
    }
    let mut reader = ImageReader::new(alloc);
    answers(rt, &mut reader, image, Ok(()));
    answers(rt, &mut reader, &[0], Err(LoadFault::Rest));
}

/// The fault is that memory ran out.
fn is_want_of_memory(rt: &impl Abort, fault: LoadFault) {
    is_true(rt, fault == LoadFault::OutOfMemory);
}

/// The counting program loads; if memory ran out, it does so at the next call.
fn loads_at_last(rt: &impl Abort, alloc: Global) {
    let mut answer = budget(alloc, &COUNTING);
    if let Err(fault) = answer {
        is_want_of_memory(rt, fault);
        answer = budget(alloc, &COUNTING);
    }
    ends(rt, answer, Ok(12));
}

/// The reader takes the piece; if memory ran out, it does so at the next call.
fn takes_at_last(rt: &impl Abort, reader: &mut ImageReader, piece: &[u8]) {
    if let Err(fault) = reader.feed(piece) {
        is_want_of_memory(rt, fault);
        answers(rt, reader, piece, Ok(()));
    }
}

/// The counting program is read, or memory ran out.
fn is_read(rt: &impl Abort, alloc: Global) {
    match length_read(alloc) {
        Ok(length) => is_number(rt, length as u64, 120),
        Err(fault) => is_want_of_memory(rt, fault),
    }
}

/// How many bytes the counting program is read to have.
fn length_read(alloc: Global) -> Result<usize, LoadFault> {
    let image = read_image(alloc, &COUNTING)?;
    Ok(image.program.len())
}

/// If no allocation is refused, all is as above. `rt try --test --fail-alloc N`, which is run manually, refuses the Nth: then the answer
/// is that memory ran out, nothing has changed, and the same call gives the answer.
#[test]
fn the_same_calls_give_the_answer_in_the_end(rt: HostRuntime) {
    let alloc = rt.alloc();
    loads_at_last(&rt, alloc);
    ends(&rt, budget(alloc, &COUNTING[..135]), Err(LoadFault::Cut));

    let mut reader = ImageReader::new(alloc);
    takes_at_last(&rt, &mut reader, &COUNTING[..70]);
    takes_at_last(&rt, &mut reader, &COUNTING[70..]);
    takes_at_last(&rt, &mut reader, &[]);
    if let Err(fault) = budget_of(reader) {
        is_want_of_memory(&rt, fault);
        return;
    }
    is_read(&rt, alloc);
}
