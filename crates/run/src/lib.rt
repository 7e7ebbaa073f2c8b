// A table run on a sequence of input words ("playing" in document 01), step by step.
#![tactic(auto)]

ghost use Rattle.std.specs.Prelude.{◌≡◌, ◌++◌, ◌≤◌, length, drop};
ghost use Rattle.verdict.specs.Judgements.{answer, figures};
ghost use Rattle.sizes.specs.Sizes.{inputs, frames};
ghost use Rattle.sizes.specs.Sized.{Fed};
ghost use Rattle.table.specs.Table.{checked};
ghost use Rattle.run.specs.Run.{shown, ran, run_result, RunFeeds};

use positions::Position;
use sizes::{Sizes, check_sequence};
use steps::step;
use table::check;
use verdict::Verdict;

// The run itself, of an accepted table on a sequence of its words, with room for the outputs. Of each output only the bits of the mask are
// stored.
pub fn run_masked(table: &[u8], mask: u16, words: &[u16], res: &mut [u16]) -> Verdict
    requires table_value { checked table.now ≡ answer 0 0 }
    requires fed { Fed (inputs table.now) (frames table.now) words.now }
    requires table_in_bounds { frames table.now ≤ length res.old }
    ensures verdict { figures result ≡ answer 0 (frames table.now) }
    ensures outputs { res.new ≡ shown table.now mask words.now ++ drop (frames table.now) res.old }
{
    let mut position = Position::start();
    for (t, word) in words.iter().enumerate() {
        let moved = step(table, position, *word)?;
        res[t] = moved.output & mask;
        position = moved.position;
    }
    Ok(words.len())
}

// The outputs of a table on a sequence of input words: one word for each frame.
#[tactic(auto, using(crate::proofs::Runs::run_feeds))]
pub fn run(table: &[u8], words: &[u16], res: &mut [u16]) -> Verdict
    ensures verdict { figures result ≡ ran table.now words.now (length res.old) }
    ensures outputs { res.new ≡ run_result table.now words.now res.old }
    ensures feeds { RunFeeds table.now words.now (length res.old) }
{
    check(table)?;
    let sizes = Sizes::read(table);
    check_sequence(words, sizes.inputs, sizes.frames, res.len())?;
    run_masked(table, u16::MAX, words, res)
}
