// Checking signatures.
ghost use Rattle.std.specs.Prelude.{◌≡◌, ℕ, ◌&&◌, length, MatchOption, ◌==◌, ◌≢◌};
ghost use Rattle.sha256.specs.Sha256.{bytes, sha256};
ghost use Rattle.lmots.specs.LmOts.{well_formed, yielded, agrees, holds as holding};

use crate::digits::digits;
use crate::leaf::Leaf;
use crate::rows::CHAINS;
use crate::signing::{PUBLIC_KEY_LEN, TYPE};
use crate::words::id_words;
use octets::numbers::leading_number;

// How many bytes follow a signature's type: the randomizer and a value for each chain.
pub const PARTS_LEN: usize = 1120;

impl Leaf {
    // The key that what follows a signature's type yields for a message; none where that is not as long as it should
    // be.
    pub fn candidate(self, message: &[u8], parts: &[u8]) -> Option<[u8; 32]>
        ensures { MatchOption result (length parts.now ≢ 1120) (λ k. (length parts.now ≡ 1120) × (k ≡ yielded sha256 (bytes self.id) self.number message.now parts.now)) }
    {
        if parts.len() != PARTS_LEN {
            return None;
        }
        let (randomizer, rest) = parts.split_at(32);
        let begins = digits(self.message_hash(randomizer, message));
        let mut values = [[0; 32]; CHAINS];
        values.copy_from_slice(rest.as_chunks::<32>().0);
        let ended = self.advance(&begins, &[255; CHAINS], &values);
        Some(self.gather(&ended))
    }
}

// Whether a public key has the type, and is as long as it should be.
pub fn is_well_formed(key: &[u8]) -> bool
    ensures { result ≡ well_formed key.now }
{
    leading_number(key) == TYPE && key.len() == PUBLIC_KEY_LEN
}

// Whether a signature holds for a message under a public key. Each is four type bytes and then the rest.
pub fn holds(key: &[u8], message: &[u8], signature: &[u8]) -> bool
    ensures { result ≡ holding sha256 key.now message.now signature.now }
{
    let [k0, k1, k2, k3, rest @ ..] = key else {
        return false;
    };
    let [s0, s1, s2, s3, parts @ ..] = signature else {
        return false;
    };
    let key_type = u32::from_be_bytes([*k0, *k1, *k2, *k3]);
    let signature_type = u32::from_be_bytes([*s0, *s1, *s2, *s3]);
    if key_type != TYPE || signature_type != key_type {
        return false;
    }
    yields(rest, message, parts)
}

// Whether what follows a signature's type yields the K in what follows a key's.
fn yields(rest: &[u8], message: &[u8], parts: &[u8]) -> bool
    ensures { result ≡ (length rest.now == 52 && (length parts.now == 1120 && agrees sha256 rest.now message.now parts.now)) }
{
    let Some((id, tail)) = rest.split_first_chunk::<16>() else {
        return false;
    };
    if tail.len() != 36 {
        return false;
    }
    let leaf = Leaf {
        id: id_words(id),
        number: leading_number(tail),
    };
    // of `is_some_and` the closure would have to show again how long `tail` is
    match leaf.candidate(message, parts) {
        Some(found) => found.as_slice() == &tail[4..36],
        None => false,
    }
}
