// A store that is a table of rows over a block of bytes, both lent.
#![tactic(auto)]

ghost use Rattle.std.specs.Prelude.{◌≡◌, ◌≤◌, true, length, take};
ghost use Rattle.store.specs.Entries.{sound as is_sound};
ghost use Rattle.table_store.specs.Blocks.{entries_in, size};

mod entries;
pub mod table;

use octets::buffer::put;
use store::limits::NAME_MAX;
use store::listing::Listing;
use store::refusal::{FileRefusal, GetRefusal};
use store::{Store, limits};
use table::Row;

// A store of rows over a block: `count` rows are in use, and `filled` bytes. Both are fixed memory, so the counts stand
// beside them. It opens empty.
#[derive(Drop)]
pub struct TableStore<'a> {
    rows: &'a mut [Row],
    block: &'a mut [u8],
    count: usize,
    filled: usize,
    ghost counted: { count ≤ length rows.now },
    ghost sized: { filled ≡ size (take count rows.now) },
    ghost within: { filled ≤ length block.now },
    ghost told: { is_sound (entries_in (take count rows.now) block.now) ≡ true },
}

impl<'a> TableStore<'a> {
    ghost use Rattle.std.specs.Prelude.{ℕ, None, MatchOption};
    ghost use Rattle.std.specs.Option.{option_copied};
    ghost use Rattle.store.specs.Meanings.{nothing, with, is_name};
    ghost use Rattle.table_store.specs.Held.{rows_of, meaning_of, room_in, Added};

    // An empty store over rows and a block, which stay as they are.
    pub fn new(rows: &'a mut [Row], block: &'a mut [u8]) -> TableStore<'a>
        ensures meaning { meaning_of result ≡ nothing }
        ensures count { (result.count ≡ 0) × (result.filled ≡ 0) }
        ensures rows { result.rows.now ≡ rows.old }
        ensures block { result.block.now ≡ block.old }
    {
        TableStore {
            rows,
            block,
            count: 0,
            filled: 0,
        }
    }

    // The rows in use.
    fn rows(&self) -> &[Row]
        ensures { result.now ≡ rows_of self.now }
    {
        &self.rows[..self.count]
    }

    // The body of a name.
    fn find(&self, name: &[u8]) -> Option<&[u8]>
        ensures { option_copied result ≡ meaning_of self.now name.now }
    {
        entries::find(self.rows(), self.block, name)
    }

    // Adds an entry of a new name, for which there is room.
    fn add(&mut self, name: &[u8], body: &[u8])
        requires entry_formed { (is_name name.now ≡ true) × (length body.now ≤ 32768) }
        requires name_free { meaning_of self.old name.now ≡ None }
        requires room_left { room_in self.old (length name.now) (length body.now) ≡ true }
        ensures meaning { meaning_of self.new ≡ with (meaning_of self.old) name.now body.now }
        ensures added { Added self.old self.new (name.now, body.now) }
    {
        entries::put_entry(self.block, self.filled, name, body);
        self.rows[self.count] = Row {
            name: name.len(),
            body: body.len(),
        };
        self.count += 1;
        self.filled += name.len() + body.len();
    }
}

impl<'a> Store for TableStore<'a> {
    ghost use Rattle.std.specs.Prelude.{false, is_some, is_ok, if◌then◌else◌};
    ghost use Rattle.std.specs.Result.{result_err};
    ghost use Rattle.store.specs.Meanings.{with};
    ghost use Rattle.store.specs.Answers.{file_refusal};
    ghost use Rattle.store.proofs.Looking.{lawful as sound_lawful};
    ghost use Rattle.table_store.specs.Held.{entries_of, meaning_of, room_in, Added};

    ghost meaning = { meaning_of };

    ghost room = { room_in };

    ghost lawful = { λ s. sound_lawful (entries_of s) s.told };

    fn has(&self, name: &[u8]) -> bool {
        self.find(name).is_some()
    }

    fn fits(&self, name_len: usize, body_len: usize) -> bool {
        let left = self.block.len() - self.filled;
        self.count < self.rows.len() && name_len <= left && body_len <= left - name_len
    }

    fn get(&self, name: &[u8], out: &mut [u8]) -> Result<usize, GetRefusal> {
        limits::check_get(name, out.len())?;
        let body = self.find(name).ok_or(GetRefusal::Absent)?;
        put(out, 0, body);
        Ok(body.len())
    }

    // Not a method that the trait provides for every store, since `added` is said of a table alone.
    fn file(&mut self, name: &[u8], body: &[u8]) -> Result<(), FileRefusal>
        ensures answer { result_err result ≡ file_refusal name.now body.now (is_some (meaning_of self.old name.now)) (room_in self.old (length name.now) (length body.now)) }
        ensures meaning { meaning_of self.new ≡ (if is_ok result then with (meaning_of self.old) name.now body.now else meaning_of self.old) }
        ensures refused { is_ok result ≡ false → self.new ≡ self.old }
        ensures added { is_ok result ≡ true → Added self.old self.new (name.now, body.now) }
    {
        self.admit(name, body)?;
        self.add(name, body);
        Ok(())
    }
}

impl<'a> Listing for TableStore<'a> {
    ghost use Rattle.table_store.specs.Held.{entries_of};

    ghost entries = { entries_of };

    fn name_at(&self, index: usize, out: &mut [u8; NAME_MAX]) -> Option<usize> {
        let name = entries::name_at(self.rows(), self.block, index)?;
        put(out, 0, name);
        Some(name.len())
    }
}
