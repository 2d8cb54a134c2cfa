// Lines, read where they lie.
ghost use Rattle.std.specs.Prelude.{◌≡◌, ℕ, ◌<◌, ◌≤◌, List, ◌∷◌, ◌++◌, length, IfSome, MatchOption};
ghost use Rattle.std.specs.Option.{option_copied, option_map};
ghost use Rattle.octets.specs.Hex.{hex as hex_of};
ghost use Rattle.store.specs.Entries.{Entry, look_up, name_at};
ghost use Rattle.line_store.specs.Texts.{line_then, text_of};

use octets::search::split_once;

// A line of an entry: the digits of its name and of its body.
#[derive(Clone, Copy)]
pub(crate) struct Line<'t> {
    pub name: &'t [u8],
    pub body: &'t [u8],
}

// The first line of a text, and what follows it.
pub(crate) fn next_line(text: &[u8]) -> Option<(Line<'_>, &[u8])>
    ensures cut { IfSome result (λ p. text.now ≡ p.0.name.now ++ 0x20 ∷ (p.0.body.now ++ 0x0a ∷ p.1.now)) }
    ensures shorter { IfSome result (λ p. length p.1.now < length text.now) }
    ensures reads { (e : Entry) (rest : List ℕ) → text.now ≡ line_then e rest → MatchOption result ⊥ (λ p. (p.0.name.now ≡ hex_of e.0) × (p.0.body.now ≡ hex_of e.1) × (p.1.now ≡ rest)) }
{
    let (name, rest) = split_once(text, b' ')?;
    let (body, rest) = split_once(rest, b'\n')?;
    Some((Line { name, body }, rest))
}

// The digits of the body whose name has these digits.
pub(crate) fn find<'t>(text: &'t [u8], key: &[u8]) -> Option<&'t [u8]>
    ensures { (es : List Entry) (n : List ℕ) → text_of es ≡ text.now → hex_of n ≡ key.now → option_copied result ≡ option_map hex_of (look_up es n) }
{
    let mut rest = text;
    while let Some((line, after)) = next_line(rest) {
        if line.name == key {
            return Some(line.body);
        }
        rest = after;
    }
    None
}

// The digits of the name of the entry at an index.
pub(crate) fn name_at(text: &[u8], index: usize) -> Option<&[u8]>
    ensures { (es : List Entry) → text_of es ≡ text.now → MatchOption result (length es ≤ index) (λ name. (index < length es) × (name.now ≡ hex_of (name_at es index))) }
{
    let mut rest = text;
    for _ in 0..index {
        let (_, after) = next_line(rest)?;
        rest = after;
    }
    // the body, which may be long, is not looked at
    let (name, _) = split_once(rest, b' ')?;
    Some(name)
}
