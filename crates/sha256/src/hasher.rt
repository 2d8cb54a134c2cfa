// A hash under way.
ghost use Rattle.std.specs.Prelude.{◌<◌};

mod parts;

// The hash value of the whole blocks so far, the block that is being filled, and how many bytes came. The block is an
// array with its length beside it, since hashing uses no heap.
#[derive(Drop)]
pub struct Hasher {
    state: [u32; 8],
    block: [u8; 64],
    filled: usize,
    total: u64,
    ghost room: { filled < 64 },
}
