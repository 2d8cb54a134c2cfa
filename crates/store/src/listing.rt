// Stores that keep their entries in an order.
ghost use Rattle.std.specs.Prelude.{◌≡◌, ◌≤◌, List, length, is_some, MatchOption, nat_lt};
ghost use Rattle.octets.specs.Buffers.{over};
ghost use Rattle.store.specs.Entries.{Entry, name_at};

use crate::limits::NAME_MAX;

// A store whose entries can be listed by their names, one after the other.
pub trait Listing {
    // the entries in their order
    ghost entries: { Self → List Entry };

    // Writes the name of the entry at `index`, counted from 0, at the start of `out`, leaves the rest,
    // and gives the name's length. Past the last entry it writes nothing.
    fn name_at(&self, index: usize, out: &mut [u8; NAME_MAX]) -> Option<usize>
        ensures there { is_some result ≡ nat_lt index (length (entries self.now)) }
        ensures long { MatchOption result (length (entries self.now) ≤ index) (λ k. (k ≡ length (name_at (entries self.now) index)) × (k ≤ 96)) }
        ensures after { out.new ≡ over (name_at (entries self.now) index) out.old };
}
