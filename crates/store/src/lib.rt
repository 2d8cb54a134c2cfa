// The store of entries: what every implementation promises.
#![tactic(auto)]

ghost use Rattle.std.specs.Prelude.{◌≡◌, ℕ, ◌≤◌, Bool, false, length, is_some, is_ok, IfOk, if◌then◌else◌};
ghost use Rattle.octets.specs.Buffers.{over};
ghost use Rattle.std.specs.Result.{result_err};
ghost use Rattle.store.specs.Meanings.{Meaning, with, body_of, Lawful};
ghost use Rattle.store.specs.Answers.{get_refusal, file_refusal};

pub mod limits;
pub mod listing;
pub mod refusal;

use refusal::{FileRefusal, GetRefusal};

// A set of entries, each a name and a body, no name twice. What a store means is the look-up `meaning`;
// which lengths of name and body still fit, only the store can tell.
pub trait Store {
    ghost meaning: { Self → Meaning };

    ghost room: { Self → ℕ → ℕ → Bool };

    ghost lawful: { (s : Self) → Lawful (meaning s) };

    // Whether there is an entry of this name.
    fn has(&self, name: &[u8]) -> bool
        ensures { result ≡ is_some (meaning self.now name.now) };

    // Whether a name and a body of these lengths would fit.
    fn fits(&self, name_len: usize, body_len: usize) -> bool
        ensures { result ≡ room self.now name_len body_len };

    // Writes the name's body at the start of `out`, leaves the rest, and gives the body's length.
    fn get(&self, name: &[u8], out: &mut [u8]) -> Result<usize, GetRefusal>
        ensures answer { result_err result ≡ get_refusal (length out.old) name.now (is_some (meaning self.now name.now)) }
        ensures long { IfOk result (λ k. (k ≡ length (body_of (meaning self.now name.now))) × (k ≤ length out.old)) }
        ensures after { out.new ≡ (if is_ok result then over (body_of (meaning self.now name.now)) out.old else out.old) };

    // Why `file` would refuse the entry, if it would.
    fn admit(&self, name: &[u8], body: &[u8]) -> Result<(), FileRefusal>
        ensures { result_err result ≡ file_refusal name.now body.now (is_some (meaning self.now name.now)) (room self.now (length name.now) (length body.now)) }
    {
        limits::check_file(name, body)?;
        if self.has(name) {
            return Err(FileRefusal::Taken);
        }
        if !self.fits(name.len(), body.len()) {
            return Err(FileRefusal::Full);
        }
        Ok(())
    }

    // Adds an entry. A refusal changes nothing.
    fn file(&mut self, name: &[u8], body: &[u8]) -> Result<(), FileRefusal>
        ensures answer { result_err result ≡ file_refusal name.now body.now (is_some (meaning self.old name.now)) (room self.old (length name.now) (length body.now)) }
        ensures meaning { meaning self.new ≡ (if is_ok result then with (meaning self.old) name.now body.now else meaning self.old) }
        ensures refused { is_ok result ≡ false → self.new ≡ self.old };
}
