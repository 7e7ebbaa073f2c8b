// The circuit and the scratch, judged before anything that is lent is used, and what is needed of the scratch cleared.
#![tactic(auto)]

ghost use Rattle.std.specs.Prelude.{◌≡◌, ◌*◌, ◌^◌, ◌≤◌, length};
ghost use Rattle.verdict.specs.Judgements.{figures};
ghost use Rattle.sizes.specs.Limits.{most_bits};
ghost use Rattle.folded.specs.Folded.{scratch_checked, cleared_to, scratch_after};
ghost use Rattle.lent.specs.Lent.{Takes};

use causal::check;
use sizes::power;
use source::Source;
use verdict::{Refusal, Verdict};

// How many scratch numbers a source needs.
fn scratch_needed(source: Source) -> usize
    requires { source.inputs * source.frames ≤ most_bits }
    ensures { result ≡ 2 * 2 ^ (source.inputs * source.frames) }
{
    2 * power(source.inputs * source.frames)
}

// Number 6; what a source needs of the scratch is cleared where it is enough.
pub fn judge_scratch(scratch: &mut [u16], source: Source) -> Verdict
    requires { source.inputs * source.frames ≤ most_bits }
    ensures { Takes (2 * 2 ^ (source.inputs * source.frames)) scratch.old scratch.new result }
{
    let needed = scratch_needed(source);
    if scratch.len() < needed {
        return Err(Refusal::Scratch(needed));
    }
    clear_needed(scratch, source);
    Ok(0)
}

// Judges the circuit and the scratch, before anything that is lent is used; what is needed of the scratch is cleared where it accepts.
pub fn judge_lent(circuit: &[u8], scratch: &mut [u16]) -> Verdict
    ensures verdict { figures result ≡ scratch_checked circuit.now (length scratch.old) }
    ensures scratch { scratch.new ≡ scratch_after circuit.now scratch.old }
{
    check(circuit)?;
    let source = Source::of(circuit);
    judge_scratch(scratch, source)
}

// Clears what a source needs of the scratch.
pub fn clear_needed(scratch: &mut [u16], source: Source)
    requires { (source.inputs * source.frames ≤ most_bits) × (2 * 2 ^ (source.inputs * source.frames) ≤ length scratch.old) }
    ensures { scratch.new ≡ cleared_to (2 * 2 ^ (source.inputs * source.frames)) scratch.old }
{
    let needed = scratch_needed(source);
    scratch[..needed].fill(0);
}
