// The digits that a message is signed by: the bytes of its hash, and of the hash's checksum.
ghost use Rattle.std.specs.Prelude.{◌≡◌, ◌≤◌, ◌++◌, replicate};
ghost use Rattle.octets.specs.Numbers.{u16 as two};
ghost use Rattle.lmots.specs.LmOts.{checksum as checksum_of};

use crate::rows::CHAINS;

// The sum of 255 - b over the bytes b of a hash.
pub fn checksum(hash: &[u8; 32]) -> u16
    ensures is { result ≡ checksum_of hash.now }
    ensures small { result ≤ 8160 }
{
    let mut sum = 0;
    for b in hash {
        sum += 255 - u16::from(*b);
    }
    sum
}

// The worked example: 32 zero bytes have the checksum 0x1FE0.
pub fn checksum_of_zeros() -> u16
    ensures { (result ≡ checksum_of (replicate 32 0)) × (result ≡ 0x1FE0) }
{
    checksum(&[0; 32])
}

// A hash and its checksum.
pub(crate) fn digits(hash: [u8; 32]) -> [u8; CHAINS]
    ensures { result ≡ hash ++ two (checksum_of hash) }
{
    let sum = checksum(&hash);
    let mut all = [0; CHAINS];
    all[..32].copy_from_slice(&hash);
    all[32..].copy_from_slice(&sum.to_be_bytes());
    all
}
