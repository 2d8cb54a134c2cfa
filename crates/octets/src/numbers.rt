// Numbers that bytes write, the highest byte first.
ghost use Rattle.std.specs.Prelude.{◌≡◌, drop, slice_index};
ghost use Rattle.octets.specs.Numbers.{number};

// The byte at a place, or 0 past the end.
fn byte_at(bytes: &[u8], at: usize) -> u8
    ensures { result ≡ slice_index bytes.now at }
{
    bytes.get(at).copied().unwrap_or(0)
}

// The number that the first four bytes write. A byte that is not there counts as 0.
pub fn leading_number(bytes: &[u8]) -> u32
    ensures { result ≡ number bytes.now }
{
    let a = byte_at(bytes, 0);
    let b = byte_at(bytes, 1);
    let c = byte_at(bytes, 2);
    let d = byte_at(bytes, 3);
    u32::from_be_bytes([a, b, c, d])
}

// The number that the four bytes at a place write, in the same way.
pub fn number_at(bytes: &[u8], at: usize) -> u32
    ensures { result ≡ number (drop at bytes.now) }
{
    match bytes.get(at..) {
        Some(rest) => leading_number(rest),
        None => 0,
    }
}
