// The theory of shared, reduced, ordered decision diagrams: definitions and statements are in specs/, their proofs in proofs/.
#![tactic(auto)]

ghost use Rattle.diagrams.specs.Theorems.{Canonical, Counted, Cut};
ghost use Rattle.diagrams.specs.Frames.{StatesByCut};
ghost use Rattle.diagrams.specs.Forward.{InForwardOrder, StatesByClasses};
ghost use Rattle.diagrams.specs.Leads.{LeadsTell};

// Computes nothing: its contract states the theorems, so that the check fails where one is not proved.
pub fn proved()
    ensures canonical { Canonical }
    ensures counted { Counted }
    ensures cut { Cut }
    ensures states { StatesByCut }
    ensures forward { InForwardOrder }
    ensures classes { StatesByClasses }
    ensures leads { LeadsTell }
{}
