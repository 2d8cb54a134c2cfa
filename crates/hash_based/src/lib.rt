// The hash-based schemes as one: LM-OTS and LMS, told apart by the keytype.
#![tactic(auto)]

ghost use Rattle.std.specs.Prelude.{◌≡◌};
ghost use Rattle.hash_based.specs.Joined.{is_formed, size_of, is_held, word_of, public_of, leaves_of, signed_by};
ghost use Rattle.hash_based.specs.JoinedLemmas.{formed_bounded, formed_short, held_exact, secret_formed, secret_limited, secret_held};

pub mod secret;

use lmots::one_time::LmOts;
use lms::many_time::Lms;
use scheme::Scheme;
use scheme::refusal::SignRefusal;
use secret::HashBasedSecret;

// The scheme.
#[derive(Clone, Copy)]
pub struct HashBased;

impl Scheme for HashBased {
    type Secret = HashBasedSecret;

    ghost formed = { is_formed };

    ghost size = { size_of };

    ghost holds = { is_held };

    ghost keytype_of = { word_of };

    ghost public_key = { public_of };

    ghost capacity = { leaves_of };

    ghost signed = { signed_by };

    ghost bounded = { formed_bounded };

    ghost short = { formed_short };

    ghost exact = { held_exact };

    ghost own = { secret_formed };

    ghost limited = { secret_limited };

    ghost complete = { secret_held };

    fn is_well_formed(&self, keytype: &[u8], key: &[u8]) -> bool {
        LmOts.is_well_formed(keytype, key) || Lms.is_well_formed(keytype, key)
    }

    fn check(&self, keytype: &[u8], key: &[u8], message: &[u8], signature: &[u8]) -> bool {
        LmOts.check(keytype, key, message, signature) || Lms.check(keytype, key, message, signature)
    }

    fn keytype_of<'a>(&self, secret: &'a HashBasedSecret) -> &'a [u8] {
        match secret {
            HashBasedSecret::OneTime(secret) => LmOts.keytype_of(secret),
            HashBasedSecret::Tree(secret) => Lms.keytype_of(secret),
        }
    }

    fn public_key<'a>(&self, secret: &'a HashBasedSecret) -> &'a [u8] {
        match secret {
            HashBasedSecret::OneTime(secret) => LmOts.public_key(secret),
            HashBasedSecret::Tree(secret) => Lms.public_key(secret),
        }
    }

    fn leaves(&self, secret: &HashBasedSecret) -> u32 {
        match secret {
            HashBasedSecret::OneTime(secret) => LmOts.leaves(secret),
            HashBasedSecret::Tree(secret) => Lms.leaves(secret),
        }
    }

    fn signature_len(&self, secret: &HashBasedSecret) -> usize {
        match secret {
            HashBasedSecret::OneTime(secret) => LmOts.signature_len(secret),
            HashBasedSecret::Tree(secret) => Lms.signature_len(secret),
        }
    }

    fn sign(
        &self,
        secret: &HashBasedSecret,
        leaf: u32,
        message: &[u8],
        out: &mut [u8],
    ) -> Result<usize, SignRefusal> {
        match secret {
            HashBasedSecret::OneTime(secret) => LmOts.sign(secret, leaf, message, out),
            HashBasedSecret::Tree(secret) => Lms.sign(secret, leaf, message, out),
        }
    }
}
