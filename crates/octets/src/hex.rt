// Lowercase hexadecimal: two digits a byte, the high one first.
ghost use Rattle.std.specs.Prelude.{◌≡◌, ◌/◌, ◌<◌, ◌&&◌, length, take, slice_index};
ghost use Rattle.std.specs.List.{list_all};
ghost use Rattle.octets.specs.Buffers.{over};
ghost use Rattle.octets.specs.Hex.{hex_digit, hex as hex_of, is_hex_digit, is_hex, hex_value, unhex};

// The digit of a number below 16.
fn digit(nibble: u8) -> u8
    requires { nibble < 16 }
    ensures { result ≡ hex_digit nibble }
{
    if nibble < 10 {
        b'0' + nibble
    } else {
        b'a' + (nibble - 10)
    }
}

// The number of a digit, 0 of anything else.
fn value(c: u8) -> u8
    ensures is { result ≡ hex_value c }
    ensures small { result < 16 }
{
    match c {
        b'0'..=b'9' => c - b'0',
        b'a'..=b'f' => c - b'a' + 10,
        _ => 0,
    }
}

fn is_digit(c: u8) -> bool
    ensures { result ≡ is_hex_digit c }
{
    matches!(c, b'0'..=b'9' | b'a'..=b'f')
}

// Whether two characters stand for a byte.
fn is_byte(high: u8, low: u8) -> bool
    ensures { result ≡ (is_hex_digit high && is_hex_digit low) }
{
    is_digit(high) && is_digit(low)
}

// Whether each pair of characters stands for a byte.
fn are_bytes(pairs: &[[u8; 2]]) -> bool
    ensures { result ≡ list_all (λ p. is_hex_digit (slice_index p 0) && is_hex_digit (slice_index p 1)) pairs.now }
{
    pairs.iter().all(|[high, low]| is_byte(*high, *low))
}

// Whether the text is an even number of lowercase digits.
pub fn is_hex(text: &[u8]) -> bool
    ensures { result ≡ is_hex text.now }
{
    let (pairs, odd) = text.as_chunks::<2>();
    odd.is_empty() && are_bytes(pairs)
}

// Writes the digits of as many of the bytes as there is space for, from the first one on.
pub fn write(out: &mut [u8], bytes: &[u8])
    ensures { out.new ≡ over (hex_of (take (length out.old / 2) bytes.now)) out.old }
{
    let part = &bytes[..bytes.len().min(out.len() / 2)];
    for (i, byte) in part.iter().enumerate() {
        out[2 * i] = digit(byte / 16);
        out[2 * i + 1] = digit(byte % 16);
    }
}

// Writes as many of the bytes that the digits stand for as there is space for, from the first one on.
pub fn read(out: &mut [u8], text: &[u8])
    ensures { out.new ≡ over (take (length out.old) (unhex text.now)) out.old }
{
    let (pairs, _) = text.as_chunks::<2>();
    let part = &pairs[..pairs.len().min(out.len())];
    for (i, [high, low]) in part.iter().enumerate() {
        out[i] = 16 * value(*high) + value(*low);
    }
}
