// The values of all chains of a leaf.
ghost use Rattle.std.specs.Prelude.{◌≡◌, ℕ, ◌+◌, ◌<◌, ◌≤◌, List, [], slice_index, slice_index_or};
ghost use Rattle.sha256.specs.Sha256.{bytes, sha256};
ghost use Rattle.lmots.specs.LmOts.{steps as steps_of, through, x as beginning};
ghost use Rattle.lmots.specs.Runs.{Ended, blank};

use crate::beside::{beside, lane_of};
use crate::leaf::Leaf;
use crate::order::shortest_first;
use crate::run::Run;
use crate::words::seed_words;
use sha256::block::state_bytes;
use std::array;

// How many chains there are.
pub const CHAINS: usize = 34;

// A value for each chain.
pub(crate) type Values = [[u8; 32]; CHAINS];

// The value of a run's chain, in words.
fn value_of(values: &Values, run: Run) -> [u32; 8]
    requires { run.chain < 34 }
    ensures { bytes result ≡ slice_index_or values.now run.chain [] }
{
    seed_words(&values[usize::from(run.chain)])
}

impl Leaf {
    // Where the chains begin: x(0) to x(33).
    pub(crate) fn starts(self, seed: [u32; 8]) -> Values
        ensures { (i : ℕ) → i < 34 → slice_index_or result i [] ≡ beginning sha256 (bytes self.id) self.number (bytes seed) i }
    {
        array::from_fn(
            |i: usize| -> [u8; 32]
                requires { i < 34 }
                ensures { result ≡ beginning sha256 (bytes self.id) self.number (bytes seed) i }
            { state_bytes(self.start(seed, i as u32)) },
        )
    }

    // The value of each chain after the steps from its digit in `from` up to that in `to`.
    pub(crate) fn advance(self, from: &[u8; CHAINS], to: &[u8; CHAINS], values: &Values) -> Values
        ensures { (i : ℕ) → i < 34 → slice_index_or result i [] ≡ through sha256 (bytes self.id) self.number i (slice_index from.now i) (slice_index to.now i) (slice_index_or values.now i []) }
    {
        let runs = shortest_first(from, to);
        let mut ended = *values;
        // the two shortest, each in two lanes, and then four at a time
        self.finish([runs[0], runs[0], runs[1], runs[1]], values, &mut ended);
        for four in runs[2..].as_chunks::<4>().0 {
            self.finish(*four, values, &mut ended);
        }
        ended
    }

    // Writes where four chains end that begin at their values.
    fn finish(self, runs: [Run; 4], values: &Values, ended: &mut Values)
        requires chained { (j : ℕ) → j < 4 → (slice_index_or runs j blank).chain < 34 }
        requires short { (j : ℕ) → j < 4 → (slice_index_or runs j blank).first + (slice_index_or runs j blank).steps ≤ 255 }
        ensures still { (end : ℕ → List ℕ) → ((j : ℕ) → j < 4 → steps_of sha256 (bytes self.id) self.number (slice_index_or runs j blank).chain (slice_index_or runs j blank).steps (slice_index_or runs j blank).first (slice_index_or values.now (slice_index_or runs j blank).chain []) ≡ end (slice_index_or runs j blank).chain) → (k : ℕ) → k < 34 → Ended end ended.old k → Ended end ended.new k }
        ensures here { (end : ℕ → List ℕ) → ((j : ℕ) → j < 4 → steps_of sha256 (bytes self.id) self.number (slice_index_or runs j blank).chain (slice_index_or runs j blank).steps (slice_index_or runs j blank).first (slice_index_or values.now (slice_index_or runs j blank).chain []) ≡ end (slice_index_or runs j blank).chain) → (j : ℕ) → j < 4 → Ended end ended.new (slice_index_or runs j blank).chain }
    {
        // four calls, since the closure of a `map` would have to repeat the clauses of `value_of`
        let [a, b, c, d] = runs;
        let begun = beside(
            value_of(values, a),
            value_of(values, b),
            value_of(values, c),
            value_of(values, d),
        );
        let all = self.four_chains(runs, begun);
        for (j, run) in runs.iter().enumerate() {
            ended[usize::from(run.chain)] = state_bytes(lane_of(all, j));
        }
    }
}
