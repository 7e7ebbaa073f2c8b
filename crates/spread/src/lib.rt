// A plain network spread over frames and folded (document 02, Point 11): by the one road to a table.
#![tactic(auto)]

ghost use Rattle.std.specs.Prelude.{◌≡◌, length};
ghost use Rattle.verdict.specs.Judgements.{figures};
ghost use Rattle.spreading.specs.Spread.{spread_checked, spread_result, spread_scratch, spread_nodes};
ghost use Rattle.spreading.specs.Theorems.{Spread, AsFolding, OwnGates};

use fold::fold_judged;
use nodes::Node;
use schedule::{given, judge_spread, spread_source};
use verdict::Verdict;

// Spreads a network over frames of the given sizes, each of its inputs and outputs at its place, and writes the table that it folds to. The scratch and the
// records are lent as to a fold.
pub fn spread(
    network: &[u8],
    inputs: u16,
    outputs: u16,
    frames: u16,
    places: &[u16],
    shown: &[u16],
    scratch: &mut [u16],
    nodes: &mut [Node],
    res: &mut [u8],
) -> Verdict
    ensures verdict { figures result ≡ spread_checked network.now inputs outputs frames places.now shown.now (length scratch.old) (length nodes.old) (length res.old) }
    ensures res { res.new ≡ spread_result network.now inputs outputs frames places.now shown.now (length scratch.old) (length nodes.old) res.old }
    ensures scratch { scratch.new ≡ spread_scratch network.now inputs outputs frames places.now shown.now scratch.old }
    ensures nodes { nodes.new ≡ spread_nodes network.now inputs outputs frames places.now shown.now (length scratch.old) nodes.old }
    ensures promised { Spread network.now inputs outputs frames places.now shown.now (figures result) res.new }
    ensures folding { AsFolding }
    ensures gates { OwnGates }
{
    let sizes = given(inputs, outputs, frames);
    judge_spread(network, sizes, places, shown, scratch)?;
    let source = spread_source(network, sizes, places, shown);
    fold_judged(network, None, scratch, nodes, res, source)
}
