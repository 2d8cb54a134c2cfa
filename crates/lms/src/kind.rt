// The types of trees, and what follows from them.
ghost use Rattle.std.specs.Prelude.{◌≡◌, ◌+◌, ◌*◌, ◌^◌, ◌≤◌, false, MatchResult};
ghost use Rattle.lms.specs.Kinds.{type_number};
ghost use Rattle.lms.specs.Lms.{known, height as height_of};

use crate::signing::PATH_AT;

// By the names of RFC 8554, which end in the tree's height.
#[derive(Clone, Copy, PartialEq, Eq, Debug)]
pub enum LmsType {
    Sha256M32H5 = 5,
    Sha256M32H10 = 6,
}

// A number that no type has.
#[derive(Clone, Copy, PartialEq, Eq, Debug)]
pub struct UnknownType(pub u32);

impl From<LmsType> for u32 {
    ghost from_gives = { λ kind number. number ≡ type_number kind };

    fn from(kind: LmsType) -> u32 {
        kind as u32
    }
}

impl TryFrom<u32> for LmsType {
    type Error = UnknownType;

    ghost try_from_gives = { λ number result. MatchResult result (λ kind. type_number kind ≡ number) (λ unknown. (unknown.0 ≡ number) × (known number ≡ false)) };

    fn try_from(number: u32) -> Result<LmsType, UnknownType> {
        match number {
            5 => Ok(LmsType::Sha256M32H5),
            6 => Ok(LmsType::Sha256M32H10),
            _ => Err(UnknownType(number)),
        }
    }
}

impl LmsType {
    pub fn height(self) -> usize
        ensures is { result ≡ height_of (type_number self) }
        ensures small { result ≤ 10 }
    {
        match self {
            LmsType::Sha256M32H5 => 5,
            LmsType::Sha256M32H10 => 10,
        }
    }

    // How many leaves there are.
    pub fn leaves(self) -> u32
        ensures is { result ≡ 2 ^ height_of (type_number self) }
        ensures bounds { (32 ≤ result) × (result ≤ 1024) }
    {
        1 << self.height()
    }

    // How many bytes a signature has: the leaf's number, the one-time signature, the type, and a sibling a level.
    pub fn signature_len(self) -> usize
        ensures { result ≡ 1132 + 32 * height_of (type_number self) }
    {
        PATH_AT + 32 * self.height()
    }
}
