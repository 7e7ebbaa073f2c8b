// The first frames of a circuit and their table (document 02, Point 14): definitions and statements are in specs/, their proofs in proofs/.
#![tactic(auto)]

ghost use Rattle.prefix.specs.Theorems.{Stages, FoldedStages, OneTable};

// Computes nothing: its contract states the theorems, so that the check fails where one is not proved.
pub fn proved()
    ensures stages { Stages }
    ensures folded { FoldedStages }
    ensures one { OneTable }
{}
