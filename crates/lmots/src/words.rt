// Bytes as words of 32 bits, the highest byte first. They are functions with names, since both sides are arrays, which
// are no types of ours to write a `From` for.
ghost use Rattle.std.specs.Prelude.{◌≡◌, ◌+◌, ◌≤◌, [], ◌∷◌, length};
ghost use Rattle.sha256.specs.Sha256.{bytes};
ghost use Rattle.octets.specs.Parts.{cut};

// The word in the four bytes at an offset.
fn word_at(s: &[u8], at: usize) -> u32
    requires { at + 4 ≤ length s.now }
    ensures { bytes (result ∷ []) ≡ cut at 4 s.now }
{
    u32::from_be_bytes([s[at], s[at + 1], s[at + 2], s[at + 3]])
}

// The words of an identifier.
pub fn id_words(id: &[u8; 16]) -> [u32; 4]
    ensures { bytes result ≡ id.now }
{
    std::array::from_fn(|i| word_at(id, 4 * i))
}

// The words of a seed, or of a chain's value.
pub fn seed_words(seed: &[u8; 32]) -> [u32; 8]
    ensures { bytes result ≡ seed.now }
{
    std::array::from_fn(|i| word_at(seed, 4 * i))
}

// The bytes of an identifier. `sha256::block::state_bytes` is the same of eight words: one function for both would have
// to require of its callers that there are four bytes for each word, since a type's constant cannot be computed.
pub fn id_bytes(id: [u32; 4]) -> [u8; 16]
    ensures { result ≡ bytes id }
{
    let parts = id.map(u32::to_be_bytes);
    let mut out = [0; 16];
    out.copy_from_slice(parts.as_flattened());
    out
}
