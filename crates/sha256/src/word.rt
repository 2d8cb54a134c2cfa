// A word of 32 bits, or one of each of several hashes that are worked on at once, each in a lane of its own.
ghost use Rattle.std.specs.Prelude.{◌≡◌, ℕ, ◌-◌, ◌*◌, ◌/◌, ◌%◌, ◌^◌, ◌<◌, bit_and, bit_xor};
ghost use Rattle.std.proofs.Common.{lit<};
ghost use Rattle.std.specs.Int.{rotate_right, w32};
ghost use Rattle.std.specs.Mem.{type_size};
ghost use Rattle.sha256.specs.Sha256.{◌⊞◌};

pub trait Word: Copy {
    // How many hashes are worked on at once.
    ghost lanes: { ℕ };

    // The 32 bits in a lane.
    ghost at: { Self → ℕ → ℕ };

    // The same word in each lane.
    fn splat(w: u32) -> Self
        ensures { (j : ℕ) → j < lanes → at result j ≡ w };

    // The sums, which wrap.
    fn plus(self, other: Self) -> Self
        ensures { (j : ℕ) → j < lanes → at result j ≡ at self j ⊞ at other j };

    fn xor(self, other: Self) -> Self
        ensures { (j : ℕ) → j < lanes → at result j ≡ bit_xor (at self j) (at other j) };

    fn and(self, other: Self) -> Self
        ensures { (j : ℕ) → j < lanes → at result j ≡ bit_and (at self j) (at other j) };

    fn not(self) -> Self
        ensures { (j : ℕ) → j < lanes → at result j ≡ 2 ^ 32 - 1 - at self j };

    // Counts of bits are taken modulo 32.
    fn rotate_right(self, n: u32) -> Self
        ensures { (j : ℕ) → j < lanes → at result j ≡ rotate_right w32 (at self j) n };

    // Each lane times a power of two, and what leaves the word is lost.
    fn wrapping_shl(self, n: u32) -> Self
        ensures { (j : ℕ) → j < lanes → at result j ≡ at self j * 2 ^ (n % 32) % 2 ^ 32 };

    fn wrapping_shr(self, n: u32) -> Self
        ensures is { (j : ℕ) → j < lanes → at result j ≡ at self j / 2 ^ (n % 32) }
        ensures small { (j : ℕ) → j < lanes → at result j * 2 ^ (n % 32) < 2 ^ 32 };

    // So arrays of words fit in memory.
    ghost small: { type_size Self.row < 2 ^ 32 };
}

// One hash.
impl Word for u32 {
    ghost lanes = { 1 };

    ghost at = { λ w j. w };

    ghost small = { lit< tt };

    #[inline(always)]
    fn splat(w: u32) -> u32 {
        w
    }

    #[inline(always)]
    fn plus(self, other: u32) -> u32 {
        self.wrapping_add(other)
    }

    #[inline(always)]
    fn xor(self, other: u32) -> u32 {
        self ^ other
    }

    #[inline(always)]
    fn and(self, other: u32) -> u32 {
        self & other
    }

    #[inline(always)]
    fn not(self) -> u32 {
        !self
    }

    #[inline(always)]
    fn rotate_right(self, n: u32) -> u32 {
        self.rotate_right(n)
    }

    #[inline(always)]
    fn wrapping_shl(self, n: u32) -> u32 {
        self.wrapping_shl(n)
    }

    #[inline(always)]
    fn wrapping_shr(self, n: u32) -> u32 {
        self.wrapping_shr(n)
    }
}
