// The longer hashes of a leaf.
ghost use Rattle.std.specs.Prelude.{◌≡◌, ℕ, ◌<◌, List, [], ◌∷◌, ◌++◌, slice_index_or};
ghost use Rattle.sha256.specs.Sha256.{bytes, sha256};
ghost use Rattle.sha256.specs.Hashed.{Hashes};
ghost use Rattle.octets.specs.Numbers.{u32 as four};
ghost use Rattle.lmots.specs.LmOts.{Q as hash_of, gathered};

use crate::leaf::Leaf;
use crate::rows::Values;
use crate::words::id_bytes;
use sha256::hasher::Hasher;

// A hasher that was given an identifier, a number and a tag of two equal bytes.
pub fn tagged(id: [u32; 4], number: u32, tag: u8) -> Hasher
    ensures { Hashes result (bytes id ++ (four number ++ (tag ∷ tag ∷ []))) }
{
    let mut hasher = Hasher::new();
    hasher.update(&id_bytes(id));
    hasher.update(&number.to_be_bytes());
    hasher.update(&[tag, tag]);
    hasher
}

impl Leaf {
    // Q: the hash of the randomizer and the message.
    pub(crate) fn message_hash(self, randomizer: &[u8], message: &[u8]) -> [u8; 32]
        ensures { result ≡ hash_of sha256 (bytes self.id) self.number randomizer.now message.now }
    {
        let mut hasher = tagged(self.id, self.number, 0x81);
        hasher.update(randomizer);
        hasher.update(message);
        hasher.finish()
    }

    // What the ends of the chains come to.
    pub(crate) fn gather(self, ends: &Values) -> [u8; 32]
        ensures { (end : ℕ → List ℕ) → ((i : ℕ) → i < 34 → slice_index_or ends.now i [] ≡ end i) → result ≡ gathered sha256 (bytes self.id) self.number end }
    {
        let mut hasher = tagged(self.id, self.number, 0x80);
        hasher.update(ends.as_flattened());
        hasher.finish()
    }
}
