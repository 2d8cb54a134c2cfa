// Why a store refuses a call, with the number of each reason.
ghost use Rattle.std.specs.Prelude.{◌≡◌};
ghost use Rattle.store.specs.Answers.{get_number, file_number};

// Why `get` refuses.
#[derive(Clone, Copy, PartialEq, Eq, Debug)]
pub enum GetRefusal {
    // the buffer has fewer bytes than a body may have
    ShortBuffer = 1,
    NotAName = 9,
    Absent = 23,
}

// Why `file` refuses.
#[derive(Clone, Copy, PartialEq, Eq, Debug)]
pub enum FileRefusal {
    // the name is no name, or the body is too long
    NotAnEntry = 9,
    Taken = 21,
    Full = 22,
}

impl From<GetRefusal> for u8 {
    ghost from_gives = { λ refusal number. number ≡ get_number refusal };

    fn from(refusal: GetRefusal) -> u8 {
        refusal as u8
    }
}

impl From<FileRefusal> for u8 {
    ghost from_gives = { λ refusal number. number ≡ file_number refusal };

    fn from(refusal: FileRefusal) -> u8 {
        refusal as u8
    }
}
