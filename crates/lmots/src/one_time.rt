// LM-OTS as a signature scheme, with the keytype `lmots`: a key has one leaf, number 0.
ghost use Rattle.std.specs.Prelude.{◌≡◌};
ghost use Rattle.std.specs.Str.{bytes_eq};
ghost use Rattle.sha256.specs.Sha256.{bytes};
ghost use Rattle.lmots.specs.Keyed.{word, is_formed, is_held, public_of, signed_by};
ghost use Rattle.lmots.specs.KeyedLemmas.{formed_bounded, formed_short, held_exact, secret_formed, secret_limited, secret_held};

use crate::checking;
use crate::material::KeyMaterial;
use crate::secret::OneTimeSecret;
use crate::signing::SIGNATURE_LEN;
use octets::buffer::put;
use scheme::Scheme;
use scheme::refusal::{SignRefusal, admit};

// The keytype.
pub const KEYTYPE: &[u8] = b"lmots";

// How many leaves a key has.
const LEAVES: u32 = 1;

impl OneTimeSecret {
    // The secret of an identifier and a seed.
    pub fn new(id: &[u8; 16], seed: &[u8; 32]) -> OneTimeSecret
        ensures { (bytes result.material.id ≡ id.now) × (bytes result.material.seed ≡ seed.now) }
    {
        let material = KeyMaterial::new(id, seed);
        let public = material.public_key(0);
        OneTimeSecret { material, public }
    }
}

// The scheme. LMS implements the trait much alike: one block for both would need a second trait that states again what
// `Scheme` states, with its laws, for what lies below the keytype.
#[derive(Clone, Copy)]
pub struct LmOts;

impl Scheme for LmOts {
    type Secret = OneTimeSecret;

    ghost formed = { is_formed };

    ghost size = { λ _ _. 1124 };

    ghost holds = { is_held };

    ghost keytype_of = { λ _. word };

    ghost public_key = { public_of };

    ghost capacity = { λ _. 1 };

    ghost signed = { signed_by };

    ghost bounded = { formed_bounded };

    ghost short = { formed_short };

    ghost exact = { held_exact };

    ghost own = { secret_formed };

    ghost limited = { secret_limited };

    ghost complete = { secret_held };

    fn is_well_formed(&self, keytype: &[u8], key: &[u8]) -> bool {
        keytype == KEYTYPE && checking::is_well_formed(key)
    }

    fn check(&self, keytype: &[u8], key: &[u8], message: &[u8], signature: &[u8]) -> bool {
        keytype == KEYTYPE && checking::holds(key, message, signature)
    }

    fn keytype_of<'a>(&self, _secret: &'a OneTimeSecret) -> &'a [u8] {
        KEYTYPE
    }

    fn public_key<'a>(&self, secret: &'a OneTimeSecret) -> &'a [u8] {
        &secret.public
    }

    fn leaves(&self, _secret: &OneTimeSecret) -> u32 {
        LEAVES
    }

    fn signature_len(&self, _secret: &OneTimeSecret) -> usize {
        SIGNATURE_LEN
    }

    fn sign(
        &self,
        secret: &OneTimeSecret,
        leaf: u32,
        message: &[u8],
        out: &mut [u8],
    ) -> Result<usize, SignRefusal> {
        admit(out.len(), SIGNATURE_LEN, leaf, LEAVES)?;
        let signature = secret.material.sign(leaf, message);
        put(out, 0, &signature);
        Ok(SIGNATURE_LEN)
    }
}
