//! The shapes of maps as a text.
ghost use Rattle.std.specs.Prelude.{◌≡◌, ◌∷◌, IfOk, IfSome, IfNone, MatchOption};
ghost use Rattle.bq_bpf.specs.declared.shape.MapShape.{MapShape as MapShapeValue};
ghost use Rattle.bq_words.specs.Words.{parts};
ghost use Rattle.bq_policy_file.specs.ShapesText.{IsPartLen, NamesNoShapes, NamesShapes, shape_number, numbers_in, numbers_of, parts_after};

use bq_bpf::shape::MAPS;
use bq_bpf::{MapShape, with_map_limits};
use std::alloc::{AllocError, Global};

/// What a text of shapes is, in words.
pub const SHAPES_FORM: &str = with_map_limits!(
    "a map is the size of a value, ",
    ", a colon and the number of entries, ",
    ", as 8:2; a program has at most ",
    ", with commas between and no blanks"
);

/// The shapes that the text names, as `8:2,16:4` does: the size of a value and the number of entries. None if it names
/// more than 8, or one that is not within its limits, or is of another form.
pub fn shapes_of(alloc: Global, text: &[u8]) -> Result<Option<Vec<MapShape>>, AllocError>
    ensures { IfOk result (λ named. MatchOption named (NamesNoShapes text.now) (λ shapes. NamesShapes text.now shapes.items)) }
{
    let mut shapes = Vec::new(alloc);
    let mut rest = text;
    for _ in 0..MAPS {
        let (part, after) = cut(rest, b',');
        let Some(shape) = shape_of(part) else {
            return Ok(None);
        };
        shapes.push(shape)?;
        match after {
            None => return Ok(Some(shapes)),
            Some(after) => rest = after,
        }
    }
    Ok(None)
}

/// The shape that the text names by two numbers and a colon between them.
fn shape_of(text: &[u8]) -> Option<MapShape>
    ensures some { IfSome result (λ shape. numbers_in text.now ≡ numbers_of shape) }
    ensures none { IfNone result ((shape : MapShapeValue) → numbers_in text.now ≡ numbers_of shape → ⊥) }
{
    let (size, after) = cut(text, b':');
    let (entries, after) = cut(after?, b':');
    if after.is_some() {
        return None;
    }
    MapShape::new(number(size)?, number(entries)?)
}

/// The part before the first such byte, and the text after that byte, if there is one.
fn cut(text: &[u8], mark: u8) -> (&[u8], Option<&[u8]>)
    ensures { parts mark text.now ≡ result.0.now ∷ parts_after mark result.1 }
{
    let len = part_len(text, mark);
    if len == text.len() {
        return (text, None);
    }
    (&text[..len], Some(&text[len + 1..]))
}

/// How many bytes come before the first such byte, or before the end.
fn part_len(text: &[u8], mark: u8) -> usize
    ensures { IsPartLen mark text.now result }
{
    for at in 0..text.len() {
        if text[at] == mark {
            return at;
        }
    }
    text.len()
}

/// The number that the word writes in decimal, if it fits.
fn number(word: &[u8]) -> Option<u16>
    ensures { result ≡ shape_number word.now }
{
    u16::try_from(bq_words::number(word, 10)?).ok()
}
