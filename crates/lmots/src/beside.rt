// Eight words of each of four chains, side by side in lanes.
ghost use Rattle.std.specs.Prelude.{◌≡◌, ◌<◌};
ghost use Rattle.sha256_lanes.specs.Lane.{lane};

use sha256_lanes::Lanes;
use std::simd::prelude::*;

// Four values, a lane to each.
pub(crate) fn beside(a: [u32; 8], b: [u32; 8], c: [u32; 8], d: [u32; 8]) -> [Lanes; 8]
    ensures { (lane 0 result ≡ a) × (lane 1 result ≡ b) × (lane 2 result ≡ c) × (lane 3 result ≡ d) }
{
    std::array::from_fn(|i| Lanes(u32x4::from_array([a[i], b[i], c[i], d[i]])))
}

// The value in a lane.
pub(crate) fn lane_of(values: [Lanes; 8], j: usize) -> [u32; 8]
    requires { j < 4 }
    ensures { result ≡ lane j values }
{
    std::array::from_fn(|i| values[i].0.to_array()[j])
}
