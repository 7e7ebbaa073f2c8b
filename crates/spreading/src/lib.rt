// What spreading a plain network over frames answers and leaves, and what holds of it: definitions and statements are in specs/, their proofs in proofs/.
#![tactic(auto)]

ghost use Rattle.spreading.specs.Theorems.{Spreadings, AsFolding, OwnGates};

// Computes nothing: its contract states the theorems, so that the check fails where one is not proved.
pub fn proved()
    ensures spreadings { Spreadings }
    ensures folding { AsFolding }
    ensures gates { OwnGates }
{}
