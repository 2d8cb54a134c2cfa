// Why a signer refuses, with the number of each reason.
ghost use Rattle.std.specs.Prelude.{◌≡◌, ◌<◌, ◌≤◌, OnOk};
ghost use Rattle.std.specs.Result.{result_err};
ghost use Rattle.scheme.specs.Answers.{sign_number, sign_refusal};

// Why `sign` refuses.
#[derive(Clone, Copy, PartialEq, Eq, Debug)]
pub enum SignRefusal {
    // the buffer has fewer bytes than the signature
    ShortBuffer = 1,
    // the key has no such leaf
    UsedUp = 31,
}

impl From<SignRefusal> for u8 {
    ghost from_gives = { λ refusal number. number ≡ sign_number refusal };

    fn from(refusal: SignRefusal) -> u8 {
        refusal as u8
    }
}

// Whether a buffer of `space` bytes and a key of `leaves` leaves can take a signature of `len` bytes by a leaf.
pub fn admit(space: usize, len: usize, leaf: u32, leaves: u32) -> Result<(), SignRefusal>
    ensures refusal { result_err result ≡ sign_refusal space len leaf leaves }
    ensures room { OnOk result ((len ≤ space) × (leaf < leaves)) }
{
    if space < len {
        Err(SignRefusal::ShortBuffer)
    } else if leaf >= leaves {
        Err(SignRefusal::UsedUp)
    } else {
        Ok(())
    }
}
