// The signals and the outputs of a circuit as functions of all its inputs: definitions and statements are in specs/, their proofs in proofs/.
#![tactic(auto)]

ghost use Rattle.functions.specs.Theorems.{SignalsFamily, OutputsRespond, ResponsesRead, FewNodes};

// Computes nothing: its contract states the theorems, so that the check fails where one is not proved.
pub fn proved()
    ensures family { SignalsFamily }
    ensures respond { OutputsRespond }
    ensures read { ResponsesRead }
    ensures few { FewNodes }
{}
