// The limits of names and bodies, and the checks that every store makes first.
ghost use Rattle.std.specs.Prelude.{◌≡◌, true, false, length};
ghost use Rattle.std.specs.Result.{result_err};
ghost use Rattle.store.specs.Meanings.{is_name, is_body};
ghost use Rattle.store.specs.Answers.{get_refusal, file_refusal};

use crate::refusal::{FileRefusal, GetRefusal};

// The most bytes of a name.
pub const NAME_MAX: usize = 96;

// The most bytes of a body, and the fewest of a buffer that `get` writes to.
pub const BODY_MAX: usize = 32_768;

// Whether the bytes are a name: 1 to 96 of them, from 0x21 to 0x7E.
pub fn is_name(bytes: &[u8]) -> bool
    ensures { result ≡ is_name bytes.now }
{
    (1..=NAME_MAX).contains(&bytes.len()) && bytes.iter().all(|b| b.is_ascii_graphic())
}

// Whether the bytes are few enough for a body.
pub fn is_body(bytes: &[u8]) -> bool
    ensures { result ≡ is_body bytes.now }
{
    bytes.len() <= BODY_MAX
}

// What `get` refuses before it looks for the name.
pub fn check_get(name: &[u8], space: usize) -> Result<(), GetRefusal>
    ensures { result_err result ≡ get_refusal space name.now true }
{
    if space < BODY_MAX {
        return Err(GetRefusal::ShortBuffer);
    }
    if !is_name(name) {
        return Err(GetRefusal::NotAName);
    }
    Ok(())
}

// What `file` refuses before it looks for the name.
pub fn check_file(name: &[u8], body: &[u8]) -> Result<(), FileRefusal>
    ensures { result_err result ≡ file_refusal name.now body.now false true }
{
    if !is_name(name) || !is_body(body) {
        return Err(FileRefusal::NotAnEntry);
    }
    Ok(())
}
