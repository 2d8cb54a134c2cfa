// Whether a text is that of entries.
ghost use Rattle.std.specs.Prelude.{◌≡◌, ◌&&◌, length, Decides};
ghost use Rattle.octets.specs.Hex.{is_hex, unhex};
ghost use Rattle.store.specs.Meanings.{is_name, is_body};
ghost use Rattle.line_store.specs.Texts.{Told};
ghost use Rattle.line_store.specs.Opening.{open_number};

use crate::lines::{Line, find, next_line};
use octets::hex;
use store::limits;
use store::limits::{BODY_MAX, NAME_MAX};

// Why a text is not opened.
#[derive(Clone, Copy, PartialEq, Eq, Debug)]
pub enum OpenRefusal {
    // the used length is past the buffer's end
    PastEnd = 1,
    // a line is malformed, breaks a limit or repeats a name
    Malformed = 12,
}

impl From<OpenRefusal> for u8 {
    ghost from_gives = { λ refusal number. number ≡ open_number refusal };

    fn from(refusal: OpenRefusal) -> u8 {
        refusal as u8
    }
}

// Whether the digits are those of a name.
fn is_hex_name(digits: &[u8]) -> bool
    ensures { result ≡ (is_hex digits.now && is_name (unhex digits.now)) }
{
    if !hex::is_hex(digits) || digits.len() > 2 * NAME_MAX {
        return false;
    }
    let mut name = [0; NAME_MAX];
    hex::read(&mut name, digits);
    limits::is_name(&name[..digits.len() / 2])
}

// Whether the digits are those of a body.
fn is_hex_body(digits: &[u8]) -> bool
    ensures { result ≡ (is_hex digits.now && is_body (unhex digits.now)) }
{
    hex::is_hex(digits) && digits.len() <= 2 * BODY_MAX
}

impl Line<'_> {
    fn is_entry(&self) -> bool
        ensures { result ≡ ((is_hex self.now.name.now && is_name (unhex self.now.name.now)) && (is_hex self.now.body.now && is_body (unhex self.now.body.now))) }
    {
        is_hex_name(self.name) && is_hex_body(self.body)
    }
}

// Whether the text is that of entries within the limits, no name twice.
pub(crate) fn is_text(text: &[u8]) -> bool
    ensures { Decides result (Told text.now) }
{
    let mut rest = text;
    while let Some((line, after)) = next_line(rest) {
        // a name is looked for in the lines before its own, so that a fault ends the search
        let before = &text[..text.len() - rest.len()];
        if !line.is_entry() || find(before, line.name).is_some() {
            return false;
        }
        rest = after;
    }
    rest.is_empty()
}
