// Looking for a byte.
ghost use Rattle.std.specs.Prelude.{◌≡◌, ◌+◌, ◌<◌, ◌≤◌, length, take, drop, MatchOption, ◌==◌};
ghost use Rattle.std.specs.List.{position};
ghost use Rattle.octets.specs.Search.{up_to};

use memchr::memchr;

// Most names and words are shorter than this.
const SHORT: usize = 16;

// The place of the first `c`, looked for byte by byte.
#[inline]
fn first_near(text: &[u8], c: u8) -> Option<usize>
    ensures { result ≡ position (λ b. b == c) text.now }
{
    text.iter().position(|b| *b == c)
}

// The same, many bytes at a time.
#[inline(never)]
fn first_far(text: &[u8], c: u8) -> Option<usize>
    ensures { result ≡ position (λ b. b == c) text.now }
{
    memchr(c, text)
}

// The same. To look at many bytes at a time takes longer to begin, so a few are looked at first.
#[inline]
fn first(text: &[u8], c: u8) -> Option<usize>
    ensures { result ≡ position (λ b. b == c) text.now }
{
    let (near, far) = text.split_at(text.len().min(SHORT));
    match first_near(near, c) {
        Some(at) => Some(at),
        None => Some(near.len() + first_far(far, c)?),
    }
}

// The place of the first `c` from `from` on, or the text's end; `from` itself where that lies past the end.
pub fn seek(text: &[u8], from: usize, c: u8) -> usize
    ensures is { result ≡ from + up_to c (drop from text.now) }
    ensures within { (from ≤ result) × (from ≤ length text.now → result ≤ length text.now) }
{
    let Some(rest) = text.get(from..) else {
        return from;
    };
    match first(rest, c) {
        Some(at) => from + at,
        None => text.len(),
    }
}

// What stands before the first `c`, and what stands behind it.
#[inline]
pub fn split_once(text: &[u8], c: u8) -> Option<(&[u8], &[u8])>
    ensures { MatchOption result (up_to c text.now ≡ length text.now) (λ p. (up_to c text.now < length text.now) × (p.0.now ≡ take (up_to c text.now) text.now) × (p.1.now ≡ drop (up_to c text.now + 1) text.now)) }
{
    let at = first(text, c)?;
    Some((&text[..at], &text[at + 1..]))
}
