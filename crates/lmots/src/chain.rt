// Chains of hashes.
ghost use Rattle.std.specs.Prelude.{◌≡◌, ℕ, ◌+◌, ◌*◌, ◌/◌, ◌%◌, ◌<◌, [], ◌∷◌, ◌++◌};
ghost use Rattle.sha256.specs.Lane.{lane};
ghost use Rattle.sha256.specs.Sha256.{IV, bytes, sha256};
ghost use Rattle.lmots.specs.LmOts.{x as beginning};

use crate::leaf::Leaf;
use sha256::block;
use sha256::word::Word;

// In each lane the low three bytes of `a` and the high byte of `b`.
fn joint<W: Word>(a: W, b: W) -> W
    ensures { (j : ℕ) → j < W.lanes → (W.at a j / 65536 % 256) * 16777216 + (W.at a j / 256 % 256) * 65536 + (W.at a j % 256) * 256 + W.at b j / 16777216 % 256 ≡ W.at result j }
{
    a.wrapping_shl(8).plus(b.wrapping_shr(24))
}

// A word in each lane. It is its four bytes.
fn spread<W: Word>(w: u32) -> W
    ensures is { (j : ℕ) → j < W.lanes → W.at result j ≡ w }
    ensures kept { (j : ℕ) → j < W.lanes → w / 16777216 % 256 * 16777216 + w / 65536 % 256 * 65536 + w / 256 % 256 * 256 + w % 256 ≡ W.at result j }
{
    W::splat(w)
}

// The hash value that the first block is worked on with, in each lane.
fn initial<W: Word>() -> [W; 8]
    ensures { (j : ℕ) → j < W.lanes → lane W.at j result ≡ IV }
{
    std::array::from_fn(|i| W::splat(block::INITIAL[i]))
}

impl Leaf {
    // In each lane the hash of a leaf's identifier and number, three bytes of `tag` and t: 55 bytes, which are one block.
    pub(crate) fn step<W: Word>(self, tag: W, t: [W; 8]) -> [W; 8]
        ensures { (j : ℕ) → j < W.lanes → bytes (lane W.at j result) ≡ sha256 (bytes self.id ++ (bytes (self.number ∷ []) ++ ((W.at tag j / 65536 % 256) ∷ (W.at tag j / 256 % 256) ∷ (W.at tag j % 256) ∷ bytes (lane W.at j t)))) }
    {
        let [t0, t1, t2, t3, t4, t5, t6, t7] = t;
        // written out, since the words are of several kinds; the padding begins behind t, and 440 bits are hashed
        let pad = spread(0x8000_0000);
        let message = [
            spread(self.id[0]),
            spread(self.id[1]),
            spread(self.id[2]),
            spread(self.id[3]),
            spread(self.number),
            joint(tag, t0),
            joint(t0, t1),
            joint(t1, t2),
            joint(t2, t3),
            joint(t3, t4),
            joint(t4, t5),
            joint(t5, t6),
            joint(t6, t7),
            joint(t7, pad),
            spread(0),
            spread(440),
        ];
        block::compress(initial(), message)
    }

    // Where chain i begins: x(i).
    pub(crate) fn start(self, seed: [u32; 8], i: u32) -> [u32; 8]
        requires { i < 65536 }
        ensures { bytes result ≡ beginning sha256 (bytes self.id) self.number (bytes seed) i }
    {
        self.step(i * 256 + 255, seed)
    }
}
