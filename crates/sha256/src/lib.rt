// SHA-256, as FIPS 180-4 defines it.
#![tactic(auto)]

ghost use Rattle.std.specs.Prelude.{◌≡◌};
ghost use Rattle.sha256.specs.Sha256.{sha256};

pub mod block;
pub mod hasher;
pub mod word;

use hasher::Hasher;

// The hash of a whole message.
pub fn digest(message: &[u8]) -> [u8; 32]
    ensures { result ≡ sha256 message.now }
{
    let mut hasher = Hasher::new();
    hasher.update(message);
    hasher.finish()
}
