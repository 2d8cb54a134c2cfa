// Keys and signatures of a leaf.
ghost use Rattle.std.specs.Prelude.{◌≡◌};
ghost use Rattle.sha256.specs.Sha256.{bytes, sha256};
ghost use Rattle.lmots.specs.LmOts.{K as key_of, public_key, signature as signature_of};

use crate::digits::digits;
use crate::material::KeyMaterial;
use crate::rows::CHAINS;
use crate::words::id_bytes;
use octets::buffer::put;
use sha256::block::state_bytes;

// The number of the type of keys and signatures, LMOTS_SHA256_N32_W8.
pub const TYPE: u32 = 4;

// How many bytes a public key has: the type, the identifier, the leaf's number and K.
pub const PUBLIC_KEY_LEN: usize = 56;

// How many bytes a signature has: the type, the randomizer and a value for each chain.
pub const SIGNATURE_LEN: usize = 1124;

// The chain whose beginning is the randomizer.
const RANDOMIZER: u32 = 0xFFFD;

impl KeyMaterial {
    // K of a leaf: the hash of the ends of its chains.
    pub fn leaf_key(self, number: u32) -> [u8; 32]
        ensures { result ≡ key_of sha256 (bytes self.id) number (bytes self.seed) }
    {
        let leaf = self.leaf(number);
        let begun = leaf.starts(self.seed);
        let ended = leaf.advance(&[0; CHAINS], &[255; CHAINS], &begun);
        leaf.gather(&ended)
    }

    // The public key of a leaf.
    pub fn public_key(self, number: u32) -> [u8; PUBLIC_KEY_LEN]
        ensures { result ≡ public_key sha256 (bytes self.id) number (bytes self.seed) }
    {
        let mut key = [0; PUBLIC_KEY_LEN];
        put(&mut key, 0, &TYPE.to_be_bytes());
        put(&mut key, 4, &id_bytes(self.id));
        put(&mut key, 20, &number.to_be_bytes());
        put(&mut key, 24, &self.leaf_key(number));
        key
    }

    // The signature of a leaf over a message.
    pub fn sign(self, number: u32, message: &[u8]) -> [u8; SIGNATURE_LEN]
        ensures { result ≡ signature_of sha256 (bytes self.id) number (bytes self.seed) message.now }
    {
        let leaf = self.leaf(number);
        let randomizer = state_bytes(leaf.start(self.seed, RANDOMIZER));
        let ends = digits(leaf.message_hash(&randomizer, message));
        let begun = leaf.starts(self.seed);
        let values = leaf.advance(&[0; CHAINS], &ends, &begun);
        let mut signature = [0; SIGNATURE_LEN];
        put(&mut signature, 0, &TYPE.to_be_bytes());
        put(&mut signature, 4, &randomizer);
        put(&mut signature, 36, values.as_flattened());
        signature
    }
}
