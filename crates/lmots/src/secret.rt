// The secret of a one-time key.
ghost use Rattle.std.specs.Prelude.{◌≡◌};
ghost use Rattle.sha256.specs.Sha256.{bytes, sha256};
ghost use Rattle.lmots.specs.LmOts.{public_key};

use crate::material::KeyMaterial;

// What the key is made from, and the public key that leaf 0 has by it.
#[derive(Drop)]
pub struct OneTimeSecret {
    pub(crate) material: KeyMaterial,
    pub(crate) public: [u8; 56],
    ghost keyed: { public ≡ public_key sha256 (bytes material.id) 0 (bytes material.seed) },
}
