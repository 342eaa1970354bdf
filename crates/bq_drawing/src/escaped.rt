//! Text within XML.
ghost use Rattle.std.specs.Prelude.{◌≡◌, ◌++◌, OnOk, option_map, string_bytes};
ghost use Rattle.bq_drawing.specs.Escapes.{escaped, in_place_of, xml_letter};

use std::alloc::AllocError;

/// Adds a text as XML writes it, cut after this many characters. A character that XML cannot hold is shown as `?`.
///
/// `a<b` is `a&lt;b`.
pub fn write_escaped(given: &str, most: usize, text: &mut String) -> Result<(), AllocError>
    ensures { OnOk result (string_bytes text.new ≡ string_bytes text.old ++ escaped most given.now) }
{
    for letter in given.chars().take(most) {
        write_letter(letter, text)?;
    }
    Ok(())
}

/// Adds a character as XML writes it.
fn write_letter(letter: char, text: &mut String) -> Result<(), AllocError>
    ensures { OnOk result (string_bytes text.new ≡ string_bytes text.old ++ xml_letter letter) }
{
    match in_place_of(letter) {
        Some(place) => text.push_str(place),
        None => text.push(letter),
    }
}

/// Returns what replaces a character that XML does not take as it is. `None` if XML takes it.
fn in_place_of(c: char) -> Option<&'static str>
    ensures { option_map (λ place. place.now) result ≡ in_place_of c }
{
    match c {
        '&' => Some("&amp;"),
        '<' => Some("&lt;"),
        '>' => Some("&gt;"),
        '"' => Some("&quot;"),
        '\u{0}'..='\u{1f}' | '\u{7f}'..='\u{9f}' | '\u{fffe}' | '\u{ffff}' => Some("?"),
        _ => None,
    }
}
