// Lanes of numbers that stand in blocks: each lane as the first of its block has it.
#![tactic(auto)]

ghost use Rattle.std.specs.Prelude.{◌≡◌, Bool, ℕ, ◌-◌, ◌%◌, ◌≤◌, ◌<◌};
ghost use Rattle.sizes.specs.Limits.{most_bits};
ghost use Rattle.circuit.specs.Lists.{bit, block_start};
ghost use Rattle.lanes.specs.Limits.{lane_bits, lane_count};
ghost use Rattle.blocks.specs.Blocks.{Holds};

use lanes::Limits;
use sizes::power;

// The lanes in which each has the value of the first lane of its block of 2^bits lanes.
fn spread(lanes: u32, bits: usize) -> u32
    requires { bits ≤ lane_bits }
    ensures { (j : ℕ) → j < lane_count → bit result j ≡ bit lanes (block_start bits j) }
{
    // 2^bits ones, and a one at the start of each block: the product has no carries
    let ones = u32::MAX >> (Limits::LANES - power(bits));
    (lanes & (u32::MAX / ones)) * ones
}

// `lanes` are values at `at`, `at` + 1, ..; each as the first of its block of 2^bits has it. `kept` is the answer for the lanes before these: a
// block that begins before `at` goes on with it.
pub fn first_of_blocks(lanes: u32, at: usize, bits: usize, kept: u32) -> u32
    requires { (bits ≤ most_bits) × (at % lane_count ≡ 0) }
    ensures { (v : ℕ → Bool) → Holds lanes at v → (0 < at → Holds kept (at - lane_count) (λ x. v (block_start bits x))) → Holds result at (λ x. v (block_start bits x)) }
{
    if at % power(bits) != 0 {
        return kept;
    }
    if bits < Limits::BITS {
        spread(lanes, bits)
    } else {
        spread(lanes, Limits::BITS)
    }
}
