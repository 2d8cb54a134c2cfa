// Entries in a block of bytes: names and bodies, one behind the other, and a row for each with their lengths. These are
// functions of the two slices: a struct of both would be made anew for each call.
ghost use Rattle.std.specs.Prelude.{◌≡◌, ◌+◌, ◌<◌, ◌≤◌, ◌++◌, length, take, MatchOption};
ghost use Rattle.std.specs.Option.{option_copied};
ghost use Rattle.octets.specs.Buffers.{over};
ghost use Rattle.store.specs.Entries.{look_up, name_at};
ghost use Rattle.table_store.specs.Blocks.{entries_in, size};

use crate::table::Row;
use octets::buffer::put;

// The body of a name.
pub(crate) fn find<'b>(rows: &[Row], block: &'b [u8], name: &[u8]) -> Option<&'b [u8]>
    requires { size rows.now ≤ length block.now }
    ensures { option_copied result ≡ look_up (entries_in rows.now block.now) name.now }
{
    let mut rest = block;
    for row in rows {
        let (entry_name, after) = rest.split_at(row.name);
        let (body, after) = after.split_at(row.body);
        if entry_name == name {
            return Some(body);
        }
        rest = after;
    }
    None
}

// The name of the entry at an index.
pub(crate) fn name_at<'b>(rows: &[Row], block: &'b [u8], index: usize) -> Option<&'b [u8]>
    requires { size rows.now ≤ length block.now }
    ensures { MatchOption result (length (entries_in rows.now block.now) ≤ index) (λ name. (index < length (entries_in rows.now block.now)) × (name.now ≡ name_at (entries_in rows.now block.now) index)) }
{
    let row = rows.get(index)?;
    let mut rest = block;
    for before in &rows[..index] {
        rest = rest.split_at(before.name + before.body).1;
    }
    Some(&rest[..row.name])
}

// Copies name and body to `at`.
pub(crate) fn put_entry(block: &mut [u8], at: usize, name: &[u8], body: &[u8])
    requires { at + (length name.now + length body.now) ≤ length block.old }
    ensures { block.new ≡ over ((take at block.old ++ name.now) ++ body.now) block.old }
{
    put(block, at, name);
    put(block, at + name.len(), body);
}
