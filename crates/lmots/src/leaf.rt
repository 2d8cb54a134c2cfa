// A leaf of a key.

// The key's identifier, in words, and the leaf's number.
#[derive(Clone, Copy)]
pub struct Leaf {
    pub id: [u32; 4],
    pub number: u32,
}
