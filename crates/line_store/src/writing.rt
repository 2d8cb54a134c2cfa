// Writing lines.
ghost use Rattle.std.specs.Prelude.{◌≡◌, ◌*◌, ◌<◌, ◌≤◌, [], ◌∷◌, ◌++◌, length};
ghost use Rattle.octets.specs.Buffers.{over};
ghost use Rattle.octets.specs.Hex.{hex as hex_of};
ghost use Rattle.line_store.specs.Texts.{line_then};
ghost use Rattle.line_store.specs.Held.{line_size};

use octets::hex;

// Writes the digits of the bytes and `end` behind them at the start of `out`, leaves the rest, and gives their length.
fn write_digits(out: &mut [u8], bytes: &[u8], end: u8) -> usize
    requires { 2 * length bytes.now < length out.old }
    ensures long { result ≡ length (hex_of bytes.now ++ end ∷ []) }
    ensures after { out.new ≡ over (hex_of bytes.now ++ end ∷ []) out.old }
{
    let at = 2 * bytes.len();
    hex::write(out, bytes);
    out[at] = end;
    at + 1
}

// Writes a line at the start of `out`, leaves the rest, and gives the line's length.
pub(crate) fn write_line(out: &mut [u8], name: &[u8], body: &[u8]) -> usize
    requires { line_size (length name.now) (length body.now) ≤ length out.old }
    ensures long { result ≡ line_size (length name.now) (length body.now) }
    ensures after { out.new ≡ over (line_then (name.now, body.now) []) out.old }
{
    let start = write_digits(out, name, b' ');
    start + write_digits(&mut out[start..], body, b'\n')
}
