// What a key is made from.
ghost use Rattle.std.specs.Prelude.{◌≡◌, length};
ghost use Rattle.sha256.specs.Sha256.{bytes};

use crate::leaf::Leaf;
use crate::words::{id_words, seed_words};

// A key's identifier and its seed, in words. What the type says of the identifier's length is a field too, so that laws
// over keys have it.
#[derive(Clone, Copy)]
pub struct KeyMaterial {
    pub id: [u32; 4],
    pub seed: [u32; 8],
    ghost whole: { length id ≡ 4 },
}

impl KeyMaterial {
    pub fn new(id: &[u8; 16], seed: &[u8; 32]) -> KeyMaterial
        ensures { (bytes result.id ≡ id.now) × (bytes result.seed ≡ seed.now) }
    {
        KeyMaterial {
            id: id_words(id),
            seed: seed_words(seed),
        }
    }

    // The leaf of a number.
    pub fn leaf(self, number: u32) -> Leaf
        ensures { (result.id ≡ self.id) × (result.number ≡ number) }
    {
        let id = self.id;
        Leaf { id, number }
    }
}
