//! Images by their bytes: what is loaded, with its budget, and what is refused, with slot and cause.
//! The images and their answers are worked on paper from the format and the rules of the verifier.

use crate::asserting::{are_bytes, is_number, is_true, is_true_in_row};
use bq_hooks::{Hook, Version};
use bq_insn::fault::DecodeCause;
use bq_load::{Image, LoadFault, load, read_image, write_image};
use bq_transfer::obligation::Obligation;
use bq_verify::{Cause, GraphCause};
use std::alloc::{AllocError, Global};
use std::process::Abort;

/// Preempt, no maps: mov64 r0, 0; exit.
pub const ZERO: [u8; 28] = [
    0x42, 0x51, 0x50, 0x49, 1, 1, 0, 0, 2, 0, 0, 0, //
    0xb7, 0, 0, 0, 0, 0, 0, 0, 0x95, 0, 0, 0, 0, 0, 0, 0,
];

/// It without its last byte.
pub const ZERO_CUT: [u8; 27] = [
    0x42, 0x51, 0x50, 0x49, 1, 1, 0, 0, 2, 0, 0, 0, //
    0xb7, 0, 0, 0, 0, 0, 0, 0, 0x95, 0, 0, 0, 0, 0, 0,
];

/// It and one byte more.
const ZERO_AND_MORE: [u8; 29] = [
    0x42, 0x51, 0x50, 0x49, 1, 1, 0, 0, 2, 0, 0, 0, //
    0xb7, 0, 0, 0, 0, 0, 0, 0, 0x95, 0, 0, 0, 0, 0, 0, 0, 0,
];

/// Preempt, one map of 8 bytes and 1 entry: answers the old value of its entry and adds one to it, or answers 2.
pub const COUNTING: [u8; 136] = [
    0x42, 0x51, 0x50, 0x49, 1, 1, 1, 0, 8, 0, 1, 0, 15, 0, 0, 0, //
    0x62, 0x0a, 0xfc, 0xff, 0, 0, 0, 0, // stw [r10-4], 0
    0x18, 0x51, 0, 0, 0, 0, 0, 0, // ldmap r1, 0
    0, 0, 0, 0, 0, 0, 0, 0, //
    0xbf, 0xa2, 0, 0, 0, 0, 0, 0, // mov64 r2, r10
    0x07, 0x02, 0, 0, 0xfc, 0xff, 0xff, 0xff, // add64 r2, -4
    0x85, 0, 0, 0, 1, 0, 0, 0, // call 1
    0x55, 0, 2, 0, 0, 0, 0, 0, // jne64 r0, 0, +2
    0xb7, 0, 0, 0, 2, 0, 0, 0, // mov64 r0, 2
    0x95, 0, 0, 0, 0, 0, 0, 0, // exit
    0x79, 0x03, 0, 0, 0, 0, 0, 0, // ldxdw r3, [r0+0]
    0xbf, 0x34, 0, 0, 0, 0, 0, 0, // mov64 r4, r3
    0x07, 0x04, 0, 0, 1, 0, 0, 0, // add64 r4, 1
    0x7b, 0x40, 0, 0, 0, 0, 0, 0, // stxdw [r0+0], r4
    0xbf, 0x30, 0, 0, 0, 0, 0, 0, // mov64 r0, r3
    0x95, 0, 0, 0, 0, 0, 0, 0, // exit
];

/// Preempt, no maps: adds 5 to counter 3, and answers 0.
const ADDING: [u8; 52] = [
    0x42, 0x51, 0x50, 0x49, 1, 1, 0, 0, 5, 0, 0, 0, //
    0xb7, 0x01, 0, 0, 3, 0, 0, 0, // mov64 r1, 3
    0xb7, 0x02, 0, 0, 5, 0, 0, 0, // mov64 r2, 5
    0x85, 0, 0, 0, 100, 0, 0, 0, // call 100
    0xb7, 0, 0, 0, 0, 0, 0, 0, // mov64 r0, 0
    0x95, 0, 0, 0, 0, 0, 0, 0, // exit
];

/// The budget of the program that is loaded.
pub fn budget(alloc: Global, bytes: &[u8]) -> Result<u32, LoadFault> {
    let verified = load(alloc, bytes)?;
    Ok(verified.budget())
}

/// What is answered to an image: the budget of its program, or a fault.
type Answer = Result<u32, LoadFault>;

/// The code of an instruction is no instruction.
macro_rules! decode {
    ($slot:expr, $cause:ident) => {
        Err(LoadFault::Decode {
            slot: $slot,
            cause: DecodeCause::$cause,
        })
    };
}

/// The program is refused for its graph.
macro_rules! graph {
    ($slot:expr, $cause:ident) => {
        Err(LoadFault::Refused {
            slot: $slot,
            cause: Cause::Graph(GraphCause::$cause),
        })
    };
}

/// The program is refused for what an instruction needs of the state before it.
macro_rules! state {
    ($slot:expr, $need:ident) => {
        Err(LoadFault::Refused {
            slot: $slot,
            cause: Cause::State(Obligation::$need),
        })
    };
}

/// The image has that answer; the row says where it stands among its like.
fn loads(rt: &impl Abort, alloc: Global, image: &[u8], answer: Answer, row: usize) {
    is_true_in_row(rt, budget(alloc, image) == answer, row);
}

/// A place in an image, a byte that is put there, and the answer then.
type Change = (usize, u8, Answer);

/// The image with one of its bytes changed has its answer.
fn is_changed(rt: &impl Abort, alloc: Global, image: &[u8], change: &Change) {
    let (at, byte, answer) = *change;
    let mut changed = Vec::from_slice(alloc, image).expect(rt, "memory");
    if let Some(place) = changed.get_mut(at) {
        *place = byte;
    }
    loads(rt, alloc, changed.as_slice(), answer, at);
}

/// The image with each of these bytes changed has its answer.
fn are_changed(rt: &impl Abort, alloc: Global, image: &[u8], changes: &[Change]) {
    for change in changes {
        is_changed(rt, alloc, image, change);
    }
}

/// An image without maps: what its header tells, how many slots of mov64 r0, 0 stand behind it, and what behind these.
#[derive(Clone, Copy)]
pub struct Moves<'a> {
    pub version: u8,
    pub hook: u8,
    pub slots: u16,
    pub count: u16,
    pub rest: &'a [u8],
}

/// The bytes of such an image.
pub fn bytes_of(alloc: Global, moves: &Moves<'_>) -> Result<Vec<u8>, AllocError> {
    let [low, high] = moves.slots.to_le_bytes();
    let header = [
        0x42,
        0x51,
        0x50,
        0x49,
        moves.version,
        moves.hook,
        0,
        0,
        low,
        high,
        0,
        0,
    ];
    let mut image = Vec::from_slice(alloc, &header)?;
    for _ in 0..moves.count {
        image.extend_from_slice(&[0xb7, 0, 0, 0, 0, 0, 0, 0])?;
    }
    image.extend_from_slice(moves.rest)?;
    Ok(image)
}

/// Such an image has its answer.
fn moves_load(rt: &impl Abort, alloc: Global, moves: &Moves<'_>, answer: Answer, row: usize) {
    let image = bytes_of(alloc, moves).expect(rt, "memory");
    loads(rt, alloc, image.as_slice(), answer, row);
}

/// Each such image has its answer.
fn all_load(rt: &impl Abort, alloc: Global, rows: &[(Moves<'_>, Answer)]) {
    for (row, (moves, answer)) in rows.iter().enumerate() {
        moves_load(rt, alloc, moves, *answer, row);
    }
}

static IMAGES: [(&[u8], Answer); 6] = [
    (&ZERO, Ok(2)),
    (&COUNTING, Ok(12)),
    (&ADDING, Ok(5)),
    (&ZERO_CUT, Err(LoadFault::Cut)),
    (&[], Err(LoadFault::Cut)),
    (&ZERO_AND_MORE, Err(LoadFault::Rest)),
];

/// A counter that is out of range.
static CHANGES_OF_ADDING: [Change; 1] = [(16, 64, state!(2, Argument))];

/// Each whole image has its answer.
fn images_load(rt: &impl Abort, alloc: Global) {
    for (number, (image, answer)) in IMAGES.iter().enumerate() {
        loads(rt, alloc, image, *answer, number);
    }
}

/// Images load with their budgets, or are refused for their ends, or for what the program does.
#[test]
fn images_load_or_are_refused(rt: HostRuntime) {
    images_load(&rt, rt.alloc());
    are_changed(&rt, rt.alloc(), &ADDING, &CHANGES_OF_ADDING);
}

static CHANGES_OF_A_HEADER: [Change; 14] = [
    (0, 0, Err(LoadFault::Magic)),
    (4, 0, Err(LoadFault::Version)),
    (4, 2, Ok(2)),
    (4, 3, Err(LoadFault::Version)),
    (5, 0, Ok(2)),
    (5, 2, Ok(2)),
    (5, 3, Err(LoadFault::Hook)),
    (6, 9, Err(LoadFault::Shape)),
    (7, 1, Err(LoadFault::Shape)),
    // a map of 2 bytes and no entries, read from the number of slots
    (6, 1, Err(LoadFault::Shape)),
    (8, 1, Err(LoadFault::Rest)),
    (8, 3, Err(LoadFault::Cut)),
    (24, 1, decode!(1, Field)),
    (20, 0, decode!(1, Opcode)),
];

/// Each field of the header has its own fault.
#[test]
fn changes_of_a_header_are_refused(rt: HostRuntime) {
    are_changed(&rt, rt.alloc(), &ZERO, &CHANGES_OF_A_HEADER);
}

static CHANGES_OF_A_PROGRAM: [Change; 9] = [
    (28, 0x01, state!(1, Argument)),
    (52, 0xf8, state!(5, Argument)),
    (66, 0x01, graph!(9, Unreached)),
    (90, 0x01, state!(9, Access)),
    (97, 0x3a, graph!(10, Frame)),
    (121, 0xa0, state!(14, Answer)),
    // the shape of the map: 12 bytes, no entries, 257 entries
    (8, 12, Err(LoadFault::Shape)),
    (10, 0, Err(LoadFault::Shape)),
    (11, 1, Err(LoadFault::Shape)),
];

/// An image that ends at any byte before its last is cut.
fn each_beginning_is_cut(rt: &impl Abort, alloc: Global) {
    for end in 0..136 {
        loads(rt, alloc, &COUNTING[..end], Err(LoadFault::Cut), end);
    }
}

/// A program that is cut, or has one other byte, is refused with the slot and the cause.
#[test]
fn changes_of_a_program_are_refused(rt: HostRuntime) {
    each_beginning_is_cut(&rt, rt.alloc());
    are_changed(&rt, rt.alloc(), &COUNTING, &CHANGES_OF_A_PROGRAM);
}

const EXIT: [u8; 8] = [0x95, 0, 0, 0, 0, 0, 0, 0];

/// An image for the hook preempt: slots that the header tells, moves that there are, and what stands behind them.
macro_rules! moves {
    ($slots:expr, $count:expr, $rest:expr) => {
        Moves {
            version: 1,
            hook: 1,
            slots: $slots,
            count: $count,
            rest: $rest,
        }
    };
}

static LENGTHS: [(Moves<'static>, Answer); 6] = [
    (moves!(0, 0, &[]), decode!(0, Length)),
    (moves!(5000, 0, &[]), Err(LoadFault::Cut)),
    (moves!(5000, 5000, &[]), decode!(0, Length)),
    (moves!(5000, 5000, &[0]), Err(LoadFault::Rest)),
    (moves!(4096, 4095, &EXIT), Ok(4096)),
    (moves!(4097, 4096, &EXIT), decode!(0, Length)),
];

/// A program's length is judged once the image has ended where its header says.
#[test]
fn lengths_are_judged_after_the_end(rt: HostRuntime) {
    all_load(&rt, rt.alloc(), &LENGTHS);
}

/// jeq64 r0, 0, +1; add64 r0, 1.
const BRANCH: [u8; 16] = [
    0x15, 0, 1, 0, 0, 0, 0, 0, //
    0x07, 0, 0, 0, 1, 0, 0, 0,
];

/// That number of branches, and an exit behind them.
fn branches(alloc: Global, times: u32) -> Result<Vec<u8>, AllocError> {
    let mut all = Vec::new(alloc);
    for _ in 0..times {
        all.extend_from_slice(&BRANCH)?;
    }
    all.extend_from_slice(&EXIT)?;
    Ok(all)
}

/// mov64 r0, 0; 2,047 times a branch; exit.
fn many_branches_load(rt: &impl Abort, alloc: Global) {
    let rest = branches(alloc, 2047).expect(rt, "memory");
    let moves = moves!(4096, 1, rest.as_slice());
    moves_load(rt, alloc, &moves, Ok(4096), 0);
}

/// A program of many paths takes no more time than one of as many slots.
#[test]
fn each_slot_is_visited_once(rt: HostRuntime) {
    many_branches_load(&rt, rt.alloc());
}

/// An image of a version and a hook: ldxw r0, [r1+offset]; exit.
macro_rules! context_load {
    ($version:expr, $hook:expr, $offset:expr) => {
        Moves {
            version: $version,
            hook: $hook,
            slots: 2,
            count: 0,
            rest: &[
                0x61,
                0x10,
                ($offset % 256) as u8,
                ($offset / 256) as u8,
                0,
                0,
                0,
                0,
                0x95,
                0,
                0,
                0,
                0,
                0,
                0,
                0,
            ],
        }
    };
}

/// The contexts of the hooks place, preempt and pull have 296, 56 and 160 bytes in version 2, and that of place has 104 in version 1.
static OFFSETS: [(Moves<'static>, Answer); 9] = [
    (context_load!(1, 0, 100), Ok(2)),
    (context_load!(1, 0, 104), state!(0, Access)),
    (context_load!(2, 0, 104), Ok(2)),
    (context_load!(2, 0, 292), Ok(2)),
    (context_load!(2, 0, 293), state!(0, Access)),
    (context_load!(2, 1, 52), Ok(2)),
    (context_load!(2, 1, 53), state!(0, Access)),
    (context_load!(2, 2, 156), Ok(2)),
    (context_load!(2, 2, 157), state!(0, Access)),
];

/// Up to its last byte a context may be loaded, and no further.
#[test]
fn the_version_states_how_long_the_context_is(rt: HostRuntime) {
    all_load(&rt, rt.alloc(), &OFFSETS);
}

/// The image is that of the counting program: for the hook preempt, in the first version, with one map of one entry of 8 bytes.
fn is_counting(rt: &impl Abort, image: &Image) {
    is_true(rt, image.form.version == Version::First);
    is_true(rt, image.form.hook == Hook::Preempt);
    is_number(rt, image.form.shapes.len() as u64, 1);
    for shape in &image.form.shapes {
        is_number(rt, u64::from(shape.value_size), 8);
        is_number(rt, u64::from(shape.entries), 1);
    }
    are_bytes(rt, image.program.as_slice(), &COUNTING[16..]);
}

/// The image written behind one byte, if it has a program of whole slots.
fn written(alloc: Global, image: &Image) -> Result<Option<Vec<u8>>, AllocError> {
    let length = image.program.len();
    if length % 8 != 0 || length < 1 || length > 32768 {
        return Ok(None);
    }
    let mut out = Vec::from_slice(alloc, &COUNTING[..1])?;
    write_image(image, &mut out)?;
    Ok(Some(out))
}

/// The image is written as one byte, and the image of the counting program.
fn is_written(rt: &impl Abort, alloc: Global, image: &Image) {
    let out = written(alloc, image).expect(rt, "memory");
    let out = out.expect(rt, "no whole program");
    is_number(rt, out.len() as u64, 137);
    are_bytes(rt, out.get(1..).expect(rt, "no image"), &COUNTING);
}

/// An image is read into its parts, and these are written to the same bytes.
#[test]
fn an_image_is_read_and_written(rt: HostRuntime) {
    let image = read_image(rt.alloc(), &COUNTING).expect(&rt, "an image");
    is_counting(&rt, &image);
    is_written(&rt, rt.alloc(), &image);
}
