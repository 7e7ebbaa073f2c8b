// One gate stored, and the literal that a chain of gates ends with.
ghost use Rattle.std.specs.Prelude.{◌≡◌, ◌∷◌, [], ◌+◌, ◌≤◌, ◌<◌};
ghost use Rattle.sizes.specs.Limits.{most_bits};
ghost use Rattle.circuit.specs.Limits.{most_gates};
ghost use Rattle.chains.specs.Chains.{Fits, gates_stored, end_of};

use super::Target;
use circuit::Limits;
use words::store;

// Stores gate k: its left literal in the first array, its right literal in the second.
pub fn put_gate(target: Target, k: usize, left: usize, right: usize, res: &mut [u8])
    requires fits { Fits target res.old }
    requires k_lt_gates { (k < target.gates) × (left < 65536) × (right < 65536) }
    ensures { res.new ≡ gates_stored target.gates k res.old ((left, right) ∷ []) }
{
    store(res, Limits::HEAD + 2 * k, left as u16);
    store(res, Limits::HEAD + 2 * (target.gates + k), right as u16);
}

// The literal that a chain ends with whose gates are those from `first` up to, not including, k: its last gate, or 1 where it has none.
pub fn chain_end(target: Target, first: usize, k: usize) -> usize
    requires { (target.base ≤ 1 + most_bits) × (first ≤ k) × (k ≤ most_gates) }
    ensures { (result ≡ end_of target.base first k) × (result < 65535) }
{
    if k == first {
        return 1;
    }
    2 * (target.base + (k - 1))
}
