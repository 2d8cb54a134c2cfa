// What keeps a line of a script from being answered.
ghost use Rattle.std.specs.Prelude.{◌≡◌, Some, alloc_error};
ghost use Rattle.language.specs.Messages.{message_of};
ghost use Rattle.language.specs.declared.mistake.Trouble.TheVariants.{Script, Memory};

use std::alloc::{AllocError, AllocFailed};
use std::error::Error;
use std::fmt;

// Why a line is no call that can be made.
#[derive(Clone, Copy, Debug, PartialEq, Eq)]
pub enum Mistake {
    UnknownCall,
    MissingWord,
    ExtraWord,
    EmptyWord,
    NotANumber,
    NotHexadecimal,
    UnknownStore,
    NoStore,
    NoText,
    UnknownKey,
    UnknownKeytype,
    NotAKey,
}

impl Mistake {
    pub fn message(self) -> &'static str
        ensures { result.now ≡ message_of self }
    {
        match self {
            Mistake::UnknownCall => "there is no such call",
            Mistake::MissingWord => "a word is missing",
            Mistake::ExtraWord => "there is a word too many",
            Mistake::EmptyWord => "words have one space between them",
            Mistake::NotANumber => "a number is wanted, below 2^64 and in decimal",
            Mistake::NotHexadecimal =>
                "after x: an even number of lowercase hexadecimal digits is wanted",
            Mistake::UnknownStore => "a store is a line or a table",
            Mistake::NoStore => "no store is open",
            Mistake::NoText => "only a line store has a text",
            Mistake::UnknownKey => "there is no key of that ID",
            Mistake::UnknownKeytype => "a key is lmots of type 4, or lms of type 5 or 6",
            Mistake::NotAKey => "an identifier has 16 bytes, and a seed 32",
        }
    }
}

impl fmt::Display for Mistake {
    ghost output = { λ m. Some (message_of m) };

    fn fmt<W: fmt::Write>(&self, f: &mut fmt::Formatter<W>) -> fmt::Result {
        f.write_str(self.message())
    }
}

impl Error for Mistake {}

// A mistake in the script, or want of memory.
#[derive(Clone, Copy, Debug, PartialEq, Eq)]
pub enum Trouble {
    Script(Mistake),
    Memory(AllocError),
}

impl From<Mistake> for Trouble {
    ghost from_gives = { λ m t. t ≡ Script m };

    fn from(mistake: Mistake) -> Trouble {
        Trouble::Script(mistake)
    }
}

impl From<AllocError> for Trouble {
    ghost from_gives = { λ e t. t ≡ Memory e };

    fn from(error: AllocError) -> Trouble {
        Trouble::Memory(error)
    }
}

impl<T: Drop> From<AllocFailed<T>> for Trouble {
    ghost from_gives = { λ _ t. t ≡ Memory alloc_error };

    fn from(failed: AllocFailed<T>) -> Trouble {
        Trouble::Memory(failed.into())
    }
}
