// The names of the calls, and of the kinds of stores.
ghost use Rattle.std.specs.Prelude.{◌≡◌, find};
ghost use Rattle.std.specs.Str.{bytes_eq};
ghost use Rattle.language.specs.Names.{name_of, kind_name, VerbNamed, KindNamed};

use crate::mistake::Mistake;

#[derive(Clone, Copy, Debug, PartialEq, Eq)]
pub enum Verb {
    Open,
    File,
    Get,
    Has,
    Fits,
    Entries,
    Text,
    Hash,
    Key,
    Sign,
    Check,
}

impl Verb {
    fn name(self) -> &'static [u8]
        ensures { result.now ≡ name_of self }
    {
        match self {
            Verb::Open => b"open",
            Verb::File => b"file",
            Verb::Get => b"get",
            Verb::Has => b"has",
            Verb::Fits => b"fits",
            Verb::Entries => b"entries",
            Verb::Text => b"text",
            Verb::Hash => b"hash",
            Verb::Key => b"key",
            Verb::Sign => b"sign",
            Verb::Check => b"check",
        }
    }
}

const VERBS: [Verb; 11] = [
    Verb::Open,
    Verb::File,
    Verb::Get,
    Verb::Has,
    Verb::Fits,
    Verb::Entries,
    Verb::Text,
    Verb::Hash,
    Verb::Key,
    Verb::Sign,
    Verb::Check,
];

// The call of this name.
impl TryFrom<&[u8]> for Verb {
    type Error = Mistake;

    ghost try_from_gives = { λ word r. VerbNamed word.now r };

    fn try_from(word: &[u8]) -> Result<Verb, Mistake> {
        named(&VERBS, word).ok_or(Mistake::UnknownCall)
    }
}

// The first of the calls that has this name.
fn named(verbs: &[Verb], word: &[u8]) -> Option<Verb>
    ensures { result ≡ find (λ v. bytes_eq (name_of v) word.now) verbs.now }
{
    verbs.iter().copied().find(|verb| verb.name() == word)
}

// What `open` can open.
#[derive(Clone, Copy, Debug, PartialEq, Eq)]
pub enum Kind {
    Line,
    Table,
}

// The kind of this name.
impl TryFrom<&[u8]> for Kind {
    type Error = Mistake;

    ghost try_from_gives = { λ word r. KindNamed word.now r };

    fn try_from(word: &[u8]) -> Result<Kind, Mistake> {
        match word {
            b"line" => Ok(Kind::Line),
            b"table" => Ok(Kind::Table),
            _ => Err(Mistake::UnknownStore),
        }
    }
}
