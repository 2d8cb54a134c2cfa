// The work on one block of 64 bytes: the schedule, the rounds and the closing sums.
ghost use Rattle.std.specs.Prelude.{◌≡◌, ℕ, ◌+◌, ◌*◌, ◌<◌, length, slice_index_or};
ghost use Rattle.sha256.specs.Sha256.{◌⊞◌, T1, T2, scheduled, schedule as schedule_of, round as round_of, rounds as rounds_of, sums as sums_of, K, words, bytes, compress as compressed};
ghost use Rattle.sha256.specs.Lane.{lane};

use crate::word::Word;

// Word t of the schedule, from words t - 2, t - 7, t - 15 and t - 16.
fn schedule_word<W: Word>(w2: W, w7: W, w15: W, w16: W) -> W
    ensures { (j : ℕ) → j < W.lanes → W.at result j ≡ scheduled (W.at w2 j) (W.at w7 j) (W.at w15 j) (W.at w16 j) }
{
    let sigma1 = w2
        .rotate_right(17)
        .xor(w2.rotate_right(19))
        .xor(w2.wrapping_shr(10));
    let sigma0 = w15
        .rotate_right(7)
        .xor(w15.rotate_right(18))
        .xor(w15.wrapping_shr(3));
    sigma1.plus(w7).plus(sigma0).plus(w16)
}

// The first temporary word of a round.
fn temp1<W: Word>(e: W, f: W, g: W, h: W, k: u32, w: W) -> W
    ensures { (j : ℕ) → j < W.lanes → W.at result j ≡ T1 (W.at e j) (W.at f j) (W.at g j) (W.at h j) k (W.at w j) }
{
    let sigma1 = e
        .rotate_right(6)
        .xor(e.rotate_right(11))
        .xor(e.rotate_right(25));
    let ch = e.and(f).xor(e.not().and(g));
    h.plus(sigma1).plus(ch).plus(W::splat(k)).plus(w)
}

// The second temporary word of a round.
fn temp2<W: Word>(a: W, b: W, c: W) -> W
    ensures { (j : ℕ) → j < W.lanes → W.at result j ≡ T2 (W.at a j) (W.at b j) (W.at c j) }
{
    let sigma0 = a
        .rotate_right(2)
        .xor(a.rotate_right(13))
        .xor(a.rotate_right(22));
    let maj = a.and(b).xor(a.and(c)).xor(b.and(c));
    sigma0.plus(maj)
}

// The eight working words after a round, with its constant and its word of the schedule.
fn round<W: Word>(s: [W; 8], k: u32, w: W) -> [W; 8]
    ensures { (j : ℕ) → j < W.lanes → lane W.at j result ≡ round_of (lane W.at j s) k (W.at w j) }
{
    let [a, b, c, d, e, f, g, h] = s;
    let t1 = temp1(e, f, g, h, k, w);
    let t2 = temp2(a, b, c);
    [t1.plus(t2), a, b, c, d.plus(t1), e, f, g]
}

// The hash value that the first block is worked on with.
pub const INITIAL: [u32; 8] = [
    0x6a09e667, 0xbb67ae85, 0x3c6ef372, 0xa54ff53a, 0x510e527f, 0x9b05688c, 0x1f83d9ab, 0x5be0cd19,
];

// The constants of the 64 rounds.
pub static CONSTANTS: [u32; 64] = [
    0x428a2f98, 0x71374491, 0xb5c0fbcf, 0xe9b5dba5, 0x3956c25b, 0x59f111f1, 0x923f82a4, 0xab1c5ed5,
    0xd807aa98, 0x12835b01, 0x243185be, 0x550c7dc3, 0x72be5d74, 0x80deb1fe, 0x9bdc06a7, 0xc19bf174,
    0xe49b69c1, 0xefbe4786, 0x0fc19dc6, 0x240ca1cc, 0x2de92c6f, 0x4a7484aa, 0x5cb0a9dc, 0x76f988da,
    0x983e5152, 0xa831c66d, 0xb00327c8, 0xbf597fc7, 0xc6e00bf3, 0xd5a79147, 0x06ca6351, 0x14292967,
    0x27b70a85, 0x2e1b2138, 0x4d2c6dfc, 0x53380d13, 0x650a7354, 0x766a0abb, 0x81c2c92e, 0x92722c85,
    0xa2bfe8a1, 0xa81a664b, 0xc24b8b70, 0xc76c51a3, 0xd192e819, 0xd6990624, 0xf40e3585, 0x106aa070,
    0x19a4c116, 0x1e376c08, 0x2748774c, 0x34b0bcb5, 0x391c0cb3, 0x4ed8aa4a, 0x5b9cca4f, 0x682e6ff3,
    0x748f82ee, 0x78a5636f, 0x84c87814, 0x8cc70208, 0x90befffa, 0xa4506ceb, 0xbef9a3f7, 0xc67178f2,
];

// Writes the 64 words of the schedule, of which a block is the first sixteen. They are written in place, since so many
// are slow to copy.
fn schedule<W: Word>(m: &[W; 16], w: &mut [W; 64])
    ensures { (j : ℕ) → j < W.lanes → lane W.at j w.new ≡ schedule_of (lane W.at j m.now) }
{
    w[..16].copy_from_slice(m);
    // by its number t, as the standard has word t from those before it
    for t in 16..64 {
        w[t] = schedule_word(w[t - 2], w[t - 7], w[t - 15], w[t - 16]);
    }
}

// The eight working words after some rounds, with their constants and their words of the schedule.
fn some_rounds<W: Word>(s: [W; 8], k: &[u32], w: &[W]) -> [W; 8]
    ensures { (j : ℕ) → j < W.lanes → lane W.at j result ≡ rounds_of (lane W.at j s) k.now (lane W.at j w.now) }
{
    let mut s = s;
    for (k, w) in k.iter().zip(w) {
        s = round(s, *k, *w);
    }
    s
}

// The eight working words after the 64 rounds. Four at a time are quicker than one by one, since the compiler writes
// them out.
fn rounds<W: Word>(s: [W; 8], w: &[W; 64]) -> [W; 8]
    ensures { (j : ℕ) → j < W.lanes → lane W.at j result ≡ rounds_of (lane W.at j s) K (lane W.at j w.now) }
{
    let mut s = s;
    for (k, w) in CONSTANTS.chunks_exact(4).zip(w.chunks_exact(4)) {
        s = some_rounds(s, k, w);
    }
    s
}

// The hash value after a block of sixteen words.
pub fn compress<W: Word>(h: [W; 8], m: [W; 16]) -> [W; 8]
    ensures { (j : ℕ) → j < W.lanes → lane W.at j result ≡ compressed (lane W.at j h) (lane W.at j m) }
{
    let mut w = [W::splat(0); 64];
    schedule(&m, &mut w);
    let s = rounds(h, &w);
    std::array::from_fn(
        |i: usize| -> W
            requires { i < 8 }
            ensures { (d : W) (j : ℕ) → j < W.lanes → W.at result j ≡ W.at (slice_index_or h i d) j ⊞ W.at (slice_index_or s i d) j }
        { h[i].plus(s[i]) },
    )
}

// The words of a block of 64 bytes.
pub(crate) fn block_words(b: &[u8]) -> [u32; 16]
    requires { length b.now ≡ 64 }
    ensures { result ≡ words b.now }
{
    std::array::from_fn(|i| word(b[4 * i], b[4 * i + 1], b[4 * i + 2], b[4 * i + 3]))
}

// The word of four bytes, the highest first.
fn word(a: u8, b: u8, c: u8, d: u8) -> u32
    ensures { result ≡ a * 16777216 + b * 65536 + c * 256 + d }
{
    u32::from_be_bytes([a, b, c, d])
}

// The bytes of eight words, the highest byte of each first.
pub fn state_bytes(s: [u32; 8]) -> [u8; 32]
    ensures { result ≡ bytes s }
{
    let parts = s.map(u32::to_be_bytes);
    let mut out = [0; 32];
    out.copy_from_slice(parts.as_flattened());
    out
}
