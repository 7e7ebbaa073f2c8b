// What drawing a table back into gates must answer and leave, and what holds of the circuit that it writes: definitions and statements are
// in specs/, proofs in proofs/.
#![tactic(auto)]

ghost use Rattle.unfolded.specs.Theorems.{Unfoldings};

// Computes nothing: its contract states what holds of the circuit that unfolding writes, so that the check fails where it is not proved.
pub fn proved()
    ensures { Unfoldings }
{}
