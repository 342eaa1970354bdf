//! Laws of the format. Each law is a theorem over its definitions; the function of a law does nothing.
ghost use Rattle.bq_load.specs.Laws.{OneImage, NoImageIsFaulty, ImageHasOneFault, EachIsAnswered, OneAnswer, OneLoaded, PiecesJoin};

/// Bytes are at most one image, so writing an image and reading the bytes gives the image back.
pub fn one_image()
    ensures { OneImage }
{}

/// An image is never refused for a fault of its bytes.
pub fn no_image_is_faulty()
    ensures { NoImageIsFaulty }
{}

/// Bytes have at most one first fault.
pub fn one_fault()
    ensures { ImageHasOneFault }
{}

/// Bytes are an image or have a first fault.
pub fn each_is_answered()
    ensures { EachIsAnswered }
{}

/// Bytes with a fault of their own, of their program or of its control graph have no other answer, unless memory runs
/// out: no other fault is named, and no program loads from them.
pub fn one_answer()
    ensures { OneAnswer }
{}

/// At most one program loads from bytes, with one budget.
pub fn one_loaded()
    ensures { OneLoaded }
{}

/// A reader that took pieces stands for all of them joined, however they were cut.
pub fn pieces_join()
    ensures { PiecesJoin }
{}
