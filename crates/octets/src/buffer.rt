// Writing into a buffer part by part.
ghost use Rattle.std.specs.Prelude.{◌≡◌, ℕ, ◌+◌, ◌<◌, ◌≤◌, List, ◌++◌, length};
ghost use Rattle.octets.specs.Buffers.{over};

// Copies a part to a place, behind what was written up to there. A part that does not fit is not written.
pub fn put(buffer: &mut [u8], at: usize, part: &[u8])
    ensures written { (done old : List ℕ) → buffer.old ≡ over done old → length done ≡ at → at + length part.now ≤ length buffer.old → buffer.new ≡ over (done ++ part.now) old }
    ensures kept { length buffer.old < at + length part.now → buffer.new ≡ buffer.old }
{
    if at <= buffer.len() && part.len() <= buffer.len() - at {
        let end = at + part.len();
        buffer[at..end].copy_from_slice(part);
    }
}
