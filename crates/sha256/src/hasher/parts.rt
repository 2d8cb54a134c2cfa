// Hashing a message that comes in parts.
ghost use Rattle.std.specs.Prelude.{◌≡◌, ℕ, ◌+◌, ◌%◌, List, [], ◌∷◌, ◌++◌, length};
ghost use Rattle.sha256.specs.Hashed.{Hashes};
ghost use Rattle.sha256.specs.Sha256.{compress, words, sha256};

use crate::block;
use crate::hasher::Hasher;

// The hash value after a whole block.
fn after_block(state: [u32; 8], block: &[u8]) -> [u32; 8]
    requires { length block.now ≡ 64 }
    ensures { result ≡ compress state (words block.now) }
{
    block::compress(state, block::block_words(block))
}

impl Hasher {
    // A hasher that was given no bytes.
    pub fn new() -> Self
        ensures { Hashes result [] }
    {
        Hasher {
            state: block::INITIAL,
            block: [0; 64],
            filled: 0,
            total: 0,
        }
    }

    // One byte more.
    fn push(&mut self, b: u8)
        ensures hashes { (bs : List ℕ) → Hashes self.old bs → Hashes self.new (bs ++ (b ∷ [])) }
        ensures filled { self.new.filled ≡ (self.old.filled + 1) % 64 }
    {
        self.block[self.filled] = b;
        self.total = self.total.wrapping_add(1);
        if self.filled == 63 {
            self.state = after_block(self.state, &self.block);
            self.filled = 0;
        } else {
            self.filled += 1;
        }
    }

    // Some bytes more, one by one.
    fn push_all(&mut self, more: &[u8])
        ensures hashes { (bs : List ℕ) → Hashes self.old bs → Hashes self.new (bs ++ more.now) }
        ensures filled { self.new.filled ≡ (self.old.filled + length more.now) % 64 }
    {
        for b in more {
            self.push(*b);
        }
    }

    // A whole block more, where none is begun.
    fn absorb(&mut self, whole: &[u8])
        requires { (self.old.filled ≡ 0) × (length whole.now ≡ 64) }
        ensures hashes { (bs : List ℕ) → Hashes self.old bs → Hashes self.new (bs ++ whole.now) }
        ensures filled { self.new.filled ≡ 0 }
    {
        self.state = after_block(self.state, whole);
        self.total = self.total.wrapping_add(64);
    }

    // Whole blocks more, hashed where they lie.
    fn absorb_all(&mut self, blocks: &[u8])
        requires { (self.old.filled ≡ 0) × (length blocks.now % 64 ≡ 0) }
        ensures { (bs : List ℕ) → Hashes self.old bs → Hashes self.new (bs ++ blocks.now) }
    {
        for block in blocks.chunks_exact(64) {
            self.absorb(block);
        }
    }

    // The bytes of one more part of the message.
    pub fn update(&mut self, more: &[u8])
        ensures { (bs : List ℕ) → Hashes self.old bs → Hashes self.new (bs ++ more.now) }
    {
        let gap = (64 - self.filled) % 64;
        if more.len() < gap + 64 {
            self.push_all(more);
            return;
        }
        let end = more.len() - (more.len() - gap) % 64;
        self.push_all(&more[0..gap]);
        self.absorb_all(&more[gap..end]);
        self.push_all(&more[end..]);
    }

    // The hash of all the bytes: they are padded first.
    pub fn finish(self) -> [u8; 32]
        ensures { (bs : List ℕ) → Hashes self bs → result ≡ sha256 bs }
    {
        let mut h = self;
        let bits = h.total.wrapping_mul(8);
        let zeros = (119 - h.filled) % 64;
        h.push(0x80);
        for _z in 0..zeros {
            h.push(0);
        }
        h.push_all(&bits.to_be_bytes());
        block::state_bytes(h.state)
    }
}
