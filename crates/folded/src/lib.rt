// What folding, asking and committing must answer and leave, and what holds of it: definitions and statements are in specs/, proofs in proofs/.
#![tactic(auto)]

ghost use Rattle.std.specs.Prelude.{ℕ, List};
ghost use Rattle.folded.specs.Theorems.{MatchesBits, Foldings, TooManyNodes, EnoughNodes, MoreNodes, Askings, Committing};

// Computes nothing: its contract states what matching a circuit means, demands 2 and 3 of the bytes that folding writes, and what holds of
// asking, committing and the records lent, so that the check fails where they are not proved.
pub fn proved()
    ensures matching { MatchesBits }
    ensures foldings { Foldings }
    ensures askings { Askings }
    ensures committings { (b plan scratch : List ℕ) (nodes : ℕ) (room : List ℕ) → Committing b plan scratch nodes room }
    ensures nodes { TooManyNodes }
    ensures enough { EnoughNodes }
    ensures more { MoreNodes }
{}
