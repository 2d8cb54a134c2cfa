// LMS as a signature scheme, with the keytype `lms`: a key has a leaf for each leaf of its tree.
ghost use Rattle.std.specs.Prelude.{◌≡◌};
ghost use Rattle.std.specs.Str.{bytes_eq};
ghost use Rattle.sha256.specs.Sha256.{bytes};
ghost use Rattle.lms.specs.Keyed.{word, is_formed, is_held, public_of, leaves_of, signed_by};
ghost use Rattle.lms.specs.Lms.{signature_size};
ghost use Rattle.lms.specs.KeyedLemmas.{formed_bounded, formed_short, held_exact, secret_formed, secret_limited, secret_held};

use crate::checking;
use crate::kind::LmsType;
use crate::secret::TreeSecret;
use crate::signing::public_key;
use crate::tree::grow;
use lmots::material::KeyMaterial;
use scheme::Scheme;
use scheme::refusal::{SignRefusal, admit};

// The keytype.
pub const KEYTYPE: &[u8] = b"lms";

impl TreeSecret {
    // The secret of a type, an identifier and a seed: all nodes of the tree are worked out.
    pub fn new(kind: LmsType, id: &[u8; 16], seed: &[u8; 32]) -> TreeSecret
        ensures { (result.kind ≡ kind) × (bytes result.material.id ≡ id.now) × (bytes result.material.seed ≡ seed.now) }
    {
        let material = KeyMaterial::new(id, seed);
        let nodes = grow(material, kind);
        let public = public_key(material.id, kind, &nodes);
        TreeSecret {
            material,
            kind,
            public,
            nodes,
        }
    }
}

// The scheme.
#[derive(Clone, Copy)]
pub struct Lms;

impl Scheme for Lms {
    type Secret = TreeSecret;

    ghost formed = { is_formed };

    ghost size = { λ _ key. signature_size key };

    ghost holds = { is_held };

    ghost keytype_of = { λ _. word };

    ghost public_key = { public_of };

    ghost capacity = { leaves_of };

    ghost signed = { signed_by };

    ghost bounded = { formed_bounded };

    ghost short = { formed_short };

    ghost exact = { held_exact };

    ghost own = { secret_formed };

    ghost limited = { secret_limited };

    ghost complete = { secret_held };

    fn is_well_formed(&self, keytype: &[u8], key: &[u8]) -> bool {
        keytype == KEYTYPE && checking::is_well_formed(key)
    }

    fn check(&self, keytype: &[u8], key: &[u8], message: &[u8], signature: &[u8]) -> bool {
        keytype == KEYTYPE && checking::holds(key, message, signature)
    }

    fn keytype_of<'a>(&self, _secret: &'a TreeSecret) -> &'a [u8] {
        KEYTYPE
    }

    fn public_key<'a>(&self, secret: &'a TreeSecret) -> &'a [u8] {
        &secret.public
    }

    fn leaves(&self, secret: &TreeSecret) -> u32 {
        secret.kind.leaves()
    }

    fn signature_len(&self, secret: &TreeSecret) -> usize {
        secret.kind.signature_len()
    }

    fn sign(
        &self,
        secret: &TreeSecret,
        leaf: u32,
        message: &[u8],
        out: &mut [u8],
    ) -> Result<usize, SignRefusal> {
        let len = self.signature_len(secret);
        admit(out.len(), len, leaf, secret.kind.leaves())?;
        secret.write(leaf, message, out);
        Ok(len)
    }
}
