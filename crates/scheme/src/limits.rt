// The limits that every signature scheme keeps to.

// The most bytes of a public key.
pub const PUBLIC_KEY_MAX: usize = 64;

// The most bytes of a signature.
pub const SIGNATURE_MAX: usize = 2_560;
