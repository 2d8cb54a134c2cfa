// Four chains at once, each in a lane of its own.
ghost use Rattle.std.specs.Prelude.{◌≡◌, ℕ, ◌+◌, ◌*◌, ◌%◌, ◌^◌, ◌<◌, ◌≤◌, slice_index, slice_index_or};
ghost use Rattle.sha256.specs.Sha256.{bytes, sha256};
ghost use Rattle.sha256_lanes.specs.Lane.{lane};
ghost use Rattle.lmots.specs.LmOts.{steps as steps_of};
ghost use Rattle.lmots.specs.Runs.{blank};

use crate::leaf::Leaf;
use crate::run::Run;
use sha256::word::Word;
use sha256_lanes::Lanes;
use std::simd::prelude::*;

// The lanes of `next` where more than k steps are to be taken, and those of t where no more are.
fn chosen(steps: u32x4, k: u32, next: Lanes, t: Lanes) -> Lanes
    ensures going { (j : ℕ) → j < 4 → k < slice_index steps j → slice_index result.0 j ≡ slice_index next.0 j }
    ensures done { (j : ℕ) → j < 4 → slice_index steps j ≤ k → slice_index result.0 j ≡ slice_index t.0 j }
{
    Lanes(steps.simd_gt(u32x4::splat(k)).select(next.0, t.0))
}

// The same of eight words.
fn chosen_words(steps: u32x4, k: u32, next: [Lanes; 8], t: [Lanes; 8]) -> [Lanes; 8]
    ensures going { (j : ℕ) → j < 4 → k < slice_index steps j → lane j result ≡ lane j next }
    ensures done { (j : ℕ) → j < 4 → slice_index steps j ≤ k → lane j result ≡ lane j t }
{
    std::array::from_fn(
        |i: usize| -> Lanes
            requires { i < 8 }
            ensures going { (j : ℕ) → j < 4 → k < slice_index steps j → slice_index result.0 j ≡ slice_index (lane j next) i }
            ensures done { (j : ℕ) → j < 4 → slice_index steps j ≤ k → slice_index result.0 j ≡ slice_index (lane j t) i }
        { chosen(steps, k, next[i], t[i]) },
    )
}

// Each tag k steps later.
fn tagged(tags: Lanes, k: u32) -> Lanes
    ensures { (j : ℕ) → j < 4 → slice_index result.0 j ≡ (slice_index tags.0 j + k) % 2 ^ 32 }
{
    tags.plus(Lanes::splat(k))
}

// A chain's number and a step of it.
fn tag(run: Run) -> u32
    ensures is { result ≡ run.chain * 256 + run.first }
    ensures small { run.chain < 256 }
{
    u32::from(run.chain) * 256 + u32::from(run.first)
}

impl Leaf {
    // In each lane t after its own number of steps, which is at most `most`, from the step in its tag on.
    fn stepped(self, tags: Lanes, steps: u32x4, most: u32, t: [Lanes; 8]) -> [Lanes; 8]
        ensures { (j i a n : ℕ) → j < 4 → i < 65536 → a + n ≤ 255 → slice_index tags.0 j ≡ i * 256 + a → slice_index steps j ≡ n → n ≤ most → bytes (lane j result) ≡ steps_of sha256 (bytes self.id) self.number i n a (bytes (lane j t)) }
    {
        let mut t = t;
        for k in 0..most {
            let now = tagged(tags, k);
            let next = self.step(now, t);
            let values = chosen_words(steps, k, next, t);
            t = values;
        }
        t
    }

    // In each lane t after the steps of its run.
    pub(crate) fn four_chains(self, runs: [Run; 4], t: [Lanes; 8]) -> [Lanes; 8]
        ensures { (j : ℕ) → j < 4 → (slice_index_or runs j blank).first + (slice_index_or runs j blank).steps ≤ 255 → bytes (lane j result) ≡ steps_of sha256 (bytes self.id) self.number (slice_index_or runs j blank).chain (slice_index_or runs j blank).steps (slice_index_or runs j blank).first (bytes (lane j t)) }
    {
        let tags = Lanes(u32x4::from_array(runs.map(tag)));
        let steps = runs.map(|run| u32::from(run.steps));
        let [a, b, c, d] = steps;
        let most = a.max(b).max(c).max(d);
        self.stepped(tags, u32x4::from_array(steps), most, t)
    }
}
