// One machine for all frames (document 02, Point 13): definitions and statements are in specs/, their proofs in proofs/.
#![tactic(auto)]

ghost use Rattle.merged.specs.Theorems.{Tested, FirstChosen, NoneExactly, Only, UndecidedZero, SameMachine, ByDemands, InOrder, FirstFound, NoneFound};

// Computes nothing: its contract states the theorems, so that the check fails where one is not proved.
pub fn proved()
    ensures tested { Tested }
    ensures first { FirstChosen }
    ensures none { NoneExactly }
    ensures only { Only }
    ensures undecided { UndecidedZero }
    ensures alike { SameMachine }
    ensures demands { ByDemands }
    ensures order { InOrder }
    ensures found { FirstFound }
    ensures unfound { NoneFound }
{}
