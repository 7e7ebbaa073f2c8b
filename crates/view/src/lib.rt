// Views of a table (document 02, Point 9): the outputs of whole sequences through a mask, which is the buyer's reading, and the output words of
// a layer in the table itself, the board maker's.
#![tactic(auto)]

pub mod layers;

ghost use Rattle.std.specs.Prelude.{◌≡◌, length};
ghost use Rattle.verdict.specs.Judgements.{figures};
ghost use Rattle.view.specs.View.{viewed, view_result};
ghost use Rattle.view.specs.Theorems.{ViewShows, ViewHides, ViewsAlike};

use run::run_masked;
use sizes::{Sizes, check_sequence, power};
use table::check;
use verdict::{Refusal, Verdict};

// The outputs of a table on a sequence of input words, with all bits outside the mask 0.
#[tactic(auto, using(crate::proofs::Views::view_shows, crate::proofs::Views::view_hides, crate::proofs::Views::views_alike))]
pub fn view(table: &[u8], mask: u16, words: &[u16], res: &mut [u16]) -> Verdict
    ensures verdict { figures result ≡ viewed table.now mask words.now (length res.old) }
    ensures outputs { res.new ≡ view_result table.now mask words.now res.old }
    ensures shows { ViewShows table.now mask words.now res.old }
    ensures hides { ViewHides table.now mask }
    ensures alike { ViewsAlike table.now mask }
{
    check(table)?;
    let sizes = Sizes::read(table);
    if power(sizes.outputs) <= mask as usize {
        return Err(Refusal::Mask(0));
    }
    check_sequence(words, sizes.inputs, sizes.frames, res.len())?;
    run_masked(table, mask, words, res)
}
