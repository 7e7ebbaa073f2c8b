// The figures that document 01 wants proved: their table and its test are in specs/, the proof in proofs/.
#![tactic(auto)]

ghost use Rattle.std.specs.Prelude.{◌≡◌, true};
ghost use Rattle.vectors.specs.Vectors.{rows, hold, Each};

// Computes nothing: its contract states that the test passes and what that shows, so that the check fails where a figure does not hold.
pub fn proved()
    ensures test { hold rows ≡ true }
    ensures each { Each rows }
{}
