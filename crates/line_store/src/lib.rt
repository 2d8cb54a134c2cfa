// A store that is text in lent memory: a line for each entry.
#![tactic(auto)]

ghost use Rattle.std.specs.Prelude.{◌≡◌, ◌≤◌, true, length, take};
ghost use Rattle.line_store.specs.Texts.{is_text};

mod lines;
pub mod opening;
mod writing;

use octets::hex;
use opening::OpenRefusal;
use store::limits::NAME_MAX;
use store::listing::Listing;
use store::refusal::{FileRefusal, GetRefusal};
use store::{Store, limits};

// A store that is text in a lent buffer: the first `used` bytes. Its text is always that of its entries. The buffer is
// fixed memory, so its used length stands beside it.
#[derive(Drop)]
pub struct LineStore<'a> {
    buffer: &'a mut [u8],
    used: usize,
    ghost within: { used ≤ length buffer.now },
    ghost told: { is_text (take used buffer.now) ≡ true },
}

impl<'a> LineStore<'a> {
    ghost use Rattle.std.specs.Prelude.{ℕ, None, MatchResult};
    ghost use Rattle.std.specs.Option.{option_copied, option_map};
    ghost use Rattle.octets.specs.Hex.{hex as hex_of};
    ghost use Rattle.store.specs.Meanings.{nothing, with, is_name};
    ghost use Rattle.line_store.specs.Texts.{Tells, Told};
    ghost use Rattle.line_store.specs.Held.{text_in, meaning_of, room_in, Appended};
    ghost use Rattle.line_store.specs.Opening.{Refuses, Opens};

    // An empty store over the buffer, whose bytes stay as they are.
    pub fn new(buffer: &'a mut [u8]) -> LineStore<'a>
        ensures meaning { meaning_of result ≡ nothing }
        ensures used { result.used ≡ 0 }
        ensures buffer { result.buffer.now ≡ buffer.old }
    {
        LineStore { buffer, used: 0 }
    }

    // Why the first `used` bytes of the buffer are not opened, if they are not.
    fn check(&self, used: usize) -> Result<(), OpenRefusal>
        ensures { MatchResult result (λ _. (used ≤ length self.now.buffer.now) × Told (take used self.now.buffer.now)) (λ e. Refuses self.now.buffer.now used e) }
    {
        let text = self.buffer.get(..used).ok_or(OpenRefusal::PastEnd)?;
        if !opening::is_text(text) {
            return Err(OpenRefusal::Malformed);
        }
        Ok(())
    }

    // Takes the first `used` bytes of the buffer for the store's text. A refusal changes nothing.
    pub fn open(&mut self, used: usize) -> Result<(), OpenRefusal>
        ensures { Opens used self.old self.new result }
    {
        self.check(used)?;
        self.used = used;
        Ok(())
    }

    // The text.
    pub fn text(&self) -> &[u8]
        ensures text { result.now ≡ text_in self.now }
        ensures tells { Tells result.now (meaning_of self.now) }
    {
        &self.buffer[..self.used]
    }

    // The digits of a name's body.
    fn find(&self, name: &[u8]) -> Option<&[u8]>
        ensures { option_copied result ≡ option_map hex_of (meaning_of self.now name.now) }
    {
        if !limits::is_name(name) {
            return None;
        }
        let mut digits = [0; 2 * NAME_MAX];
        let key = &mut digits[..2 * name.len()];
        hex::write(key, name);
        lines::find(self.text(), key)
    }

    // Adds a line of a new name, for which there is room.
    fn add(&mut self, name: &[u8], body: &[u8])
        requires entry_formed { (is_name name.now ≡ true) × (length body.now ≤ 32768) }
        requires name_free { meaning_of self.old name.now ≡ None }
        requires room_left { room_in self.old (length name.now) (length body.now) ≡ true }
        ensures meaning { meaning_of self.new ≡ with (meaning_of self.old) name.now body.now }
        ensures appended { Appended self.old self.new (name.now, body.now) }
    {
        self.used += writing::write_line(&mut self.buffer[self.used..], name, body);
    }
}

impl<'a> Store for LineStore<'a> {
    ghost use Rattle.std.specs.Prelude.{false, is_some, is_ok, if◌then◌else◌};
    ghost use Rattle.std.specs.Result.{result_err};
    ghost use Rattle.store.specs.Meanings.{with};
    ghost use Rattle.store.specs.Answers.{file_refusal};
    ghost use Rattle.line_store.specs.Held.{meaning_of, text_in, room_in, Appended};
    ghost use Rattle.line_store.specs.Laws.{told_lawful};

    ghost meaning = { meaning_of };

    ghost room = { room_in };

    ghost lawful = { λ s. told_lawful (text_in s) s.told };

    fn has(&self, name: &[u8]) -> bool {
        self.find(name).is_some()
    }

    fn fits(&self, name_len: usize, body_len: usize) -> bool {
        let left = self.buffer.len() - self.used;
        left >= 2 && name_len <= (left - 2) / 2 && body_len <= (left - 2) / 2 - name_len
    }

    fn get(&self, name: &[u8], out: &mut [u8]) -> Result<usize, GetRefusal> {
        limits::check_get(name, out.len())?;
        let digits = self.find(name).ok_or(GetRefusal::Absent)?;
        let len = digits.len() / 2;
        hex::read(out, digits);
        Ok(len)
    }

    // Not a method that the trait provides for every store, since `appended` is said of lines alone.
    fn file(&mut self, name: &[u8], body: &[u8]) -> Result<(), FileRefusal>
        ensures answer { result_err result ≡ file_refusal name.now body.now (is_some (meaning_of self.old name.now)) (room_in self.old (length name.now) (length body.now)) }
        ensures meaning { meaning_of self.new ≡ (if is_ok result then with (meaning_of self.old) name.now body.now else meaning_of self.old) }
        ensures refused { is_ok result ≡ false → self.new ≡ self.old }
        ensures appended { is_ok result ≡ true → Appended self.old self.new (name.now, body.now) }
    {
        self.admit(name, body)?;
        self.add(name, body);
        Ok(())
    }
}

impl<'a> Listing for LineStore<'a> {
    ghost use Rattle.line_store.specs.Texts.{entries_of};
    ghost use Rattle.line_store.specs.Held.{text_in};

    ghost entries = { λ s. entries_of (text_in s) };

    fn name_at(&self, index: usize, out: &mut [u8; NAME_MAX]) -> Option<usize> {
        let digits = lines::name_at(self.text(), index)?;
        hex::read(out, digits);
        Some(digits.len() / 2)
    }
}
