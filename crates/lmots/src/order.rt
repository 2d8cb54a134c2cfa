// The order in which the chains of a leaf are worked on.
ghost use Rattle.std.specs.Prelude.{◌≡◌, ℕ, ◌<◌, get_or, slice_index_or};
ghost use Rattle.lmots.specs.Runs.{Runs, blank};

use crate::rows::CHAINS;
use crate::run::Run;
use std::array;

// The run of each chain from its digit in `from` up to that in `to`, the shortest first: neighbours then take about
// as many steps.
pub(crate) fn shortest_first(from: &[u8; CHAINS], to: &[u8; CHAINS]) -> [Run; CHAINS]
    ensures each { (p : ℕ) → p < 34 → Runs from.now to.now (slice_index_or result p blank) }
    ensures all { (i : ℕ) → i < 34 → ((p : ℕ) × (p < 34) × ((get_or result p blank).chain ≡ i)) }
{
    let mut runs: [Run; CHAINS] = array::from_fn(|i| Run {
        steps: to[i].saturating_sub(from[i]),
        chain: i as u8,
        first: from[i],
    });
    runs.sort_unstable();
    runs
}
