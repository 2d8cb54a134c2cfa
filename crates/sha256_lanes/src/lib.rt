// SHA-256's work on four blocks at once, each in a lane of its own.
#![tactic(auto)]

ghost use Rattle.std.proofs.Common.{lit<};
ghost use Rattle.std.specs.Prelude.{◌≡◌, ℕ, ◌*◌, ◌/◌, ◌^◌, ◌<◌, slice_index};

use sha256::word::Word;
use std::simd::prelude::*;

// One word of each of four hashes.
#[derive(Clone, Copy)]
pub struct Lanes(pub u32x4);

impl Word for Lanes {
    ghost lanes = { 4 };

    ghost at = { λ v j. slice_index v.0 j };

    ghost small = { lit< tt };

    #[inline(always)]
    fn splat(w: u32) -> Lanes {
        Lanes(u32x4::splat(w))
    }

    #[inline(always)]
    fn plus(self, other: Lanes) -> Lanes {
        Lanes(self.0 + other.0)
    }

    #[inline(always)]
    fn xor(self, other: Lanes) -> Lanes {
        Lanes(self.0 ^ other.0)
    }

    #[inline(always)]
    fn and(self, other: Lanes) -> Lanes {
        Lanes(self.0 & other.0)
    }

    #[inline(always)]
    fn not(self) -> Lanes {
        Lanes(!self.0)
    }

    #[inline(always)]
    fn rotate_right(self, n: u32) -> Lanes {
        let n = n % 32;
        Lanes((self.0 >> u32x4::splat(n)) | (self.0 << u32x4::splat((32 - n) % 32)))
    }

    #[inline(always)]
    fn wrapping_shl(self, n: u32) -> Lanes {
        Lanes(self.0 << u32x4::splat(n % 32))
    }

    #[inline(always)]
    fn wrapping_shr(self, n: u32) -> Lanes {
        Lanes(shifted_right(self.0, n % 32))
    }
}

// Each word, divided by a power of two.
#[inline(always)]
fn shifted_right(words: u32x4, n: u32) -> u32x4
    requires { n < 32 }
    ensures is { (j : ℕ) → j < 4 → slice_index result j ≡ slice_index words j / 2 ^ n }
    ensures small { (j : ℕ) → j < 4 → slice_index result j * 2 ^ n < 2 ^ 32 }
{
    words >> u32x4::splat(n)
}
