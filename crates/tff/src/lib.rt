// The C interface: each call is written out, since C knows it by its name. Slices pass as pointer and length. `answer` receives document 01's number and place in its first two numbers, then the
// further values named; the rest of it stays as before. Where `answer` is too short for that, nothing at all is changed.
#![tactic(auto, unfolding(answers::specs::Answer::answer_after, answers::specs::Answer::lent_after))]

ghost use Rattle.std.specs.Prelude.{◌≡◌, length};
ghost use Rattle.circuit.specs.Circuit.{checked};
ghost use Rattle.simulate.specs.Simulate.{simulated, simulation_result};
ghost use Rattle.table.specs.Table.{checked as table_checked};
ghost use Rattle.steps.specs.Steps.{stepped, position_of};
ghost use Rattle.quiet.specs.Quiet.{quiet_stepped};
ghost use Rattle.run.specs.Run.{ran, run_result};
ghost use Rattle.view.specs.View.{viewed, view_result};
ghost use Rattle.view.specs.Layers.{located};
ghost use Rattle.folded.specs.Folded.{fold_checked, fold_result, scratch_after, nodes_after};
ghost use Rattle.folded.specs.Planned.{asked, commit_checked, commit_result};
ghost use Rattle.spreading.specs.Spread.{spread_checked, spread_result, spread_scratch, spread_nodes};
ghost use Rattle.price.specs.Price.{priced};
ghost use Rattle.reach.specs.Reach.{reach_checked, reach_result};
ghost use Rattle.distinguish.specs.Distinguish.{distinguish_checked, distinguish_result};
ghost use Rattle.merge.specs.Merge.{merge_checked, merge_result};
ghost use Rattle.unfolded.specs.Unfolded.{unfold_checked, unfold_result};
ghost use Rattle.answers.specs.Answer.{verdict_numbers, step_numbers, quiet_numbers, price_numbers, layer_numbers, answer_after, verdict_length, quiet_length, ask_length, lent_after};

use answers::{
    Limits, ask_numbers, layer_numbers, price_numbers, put, quiet_numbers, step_numbers,
    verdict_numbers,
};
use nodes::Node;
use positions::Position;
use price::PriceFigures;
use steps::StepFigures;
use verdict::Verdict;
use view::layers::LayerFigures;

#[unsafe(no_mangle)]
pub extern "C" fn tff_check_circuit(circuit: &[u8], answer: &mut [u64])
    ensures { answer.new ≡ answer_after (verdict_numbers (checked circuit.now)) answer.old }
{
    if answer.len() < Limits::VERDICT {
        return;
    }
    let verdict: Verdict = causal::check(circuit);
    put(&verdict_numbers(verdict), answer);
}

#[unsafe(no_mangle)]
pub extern "C" fn tff_simulate(
    circuit: &[u8],
    count: usize,
    words: &[u16],
    res: &mut [u16],
    answer: &mut [u64],
)
    ensures answer { answer.new ≡ answer_after (verdict_numbers (simulated circuit.now count words.now (length res.old))) answer.old }
    ensures res { res.new ≡ lent_after verdict_length answer.old (simulation_result circuit.now count words.now res.old) res.old }
{
    if answer.len() < Limits::VERDICT {
        return;
    }
    let verdict: Verdict = simulate::simulate(circuit, count, words, res);
    put(&verdict_numbers(verdict), answer);
}

#[unsafe(no_mangle)]
pub extern "C" fn tff_check_table(table: &[u8], answer: &mut [u64])
    ensures { answer.new ≡ answer_after (verdict_numbers (table_checked table.now)) answer.old }
{
    if answer.len() < Limits::VERDICT {
        return;
    }
    let verdict: Verdict = table::check(table);
    put(&verdict_numbers(verdict), answer);
}

#[unsafe(no_mangle)]
pub extern "C" fn tff_run(table: &[u8], words: &[u16], res: &mut [u16], answer: &mut [u64])
    ensures answer { answer.new ≡ answer_after (verdict_numbers (ran table.now words.now (length res.old))) answer.old }
    ensures res { res.new ≡ lent_after verdict_length answer.old (run_result table.now words.now res.old) res.old }
{
    if answer.len() < Limits::VERDICT {
        return;
    }
    let verdict: Verdict = run::run(table, words, res);
    put(&verdict_numbers(verdict), answer);
}

#[unsafe(no_mangle)]
pub extern "C" fn tff_view(
    table: &[u8],
    mask: u16,
    words: &[u16],
    res: &mut [u16],
    answer: &mut [u64],
)
    ensures answer { answer.new ≡ answer_after (verdict_numbers (viewed table.now mask words.now (length res.old))) answer.old }
    ensures res { res.new ≡ lent_after verdict_length answer.old (view_result table.now mask words.now res.old) res.old }
{
    if answer.len() < Limits::VERDICT {
        return;
    }
    let verdict: Verdict = view::view(table, mask, words, res);
    put(&verdict_numbers(verdict), answer);
}

#[unsafe(no_mangle)]
pub extern "C" fn tff_layer_outputs(table: &[u8], layer: u16, answer: &mut [u64])
    ensures { answer.new ≡ answer_after (layer_numbers (located table.now layer)) answer.old }
{
    if answer.len() < Limits::LAYER {
        return;
    }
    let found = view::layers::locate(table, layer as usize);
    put(&layer_numbers(LayerFigures::from(found)), answer);
}

#[unsafe(no_mangle)]
pub extern "C" fn tff_step(table: &[u8], layer: u16, state: u16, word: u16, answer: &mut [u64])
    ensures { answer.new ≡ answer_after (step_numbers (stepped table.now layer state word)) answer.old }
{
    if answer.len() < Limits::STEP {
        return;
    }
    let position = Position {
        layer: layer as usize,
        state: state as usize,
    };
    let step = steps::step(table, position, word);
    put(&step_numbers(StepFigures::from(step)), answer);
}

#[unsafe(no_mangle)]
pub extern "C" fn tff_quiet_step(
    table: &[u8],
    windows: &[u16],
    minute: u16,
    position: &mut Position,
    word: u16,
    answer: &mut [u64],
)
    ensures answer { answer.new ≡ answer_after (quiet_numbers (quiet_stepped table.now windows.now minute position.old.layer position.old.state word)) answer.old }
    ensures position { position.new ≡ lent_after quiet_length answer.old (position_of (quiet_stepped table.now windows.now minute position.old.layer position.old.state word)) position.old }
{
    if answer.len() < Limits::QUIET {
        return;
    }
    let step = quiet::advance(table, windows, minute, position, word);
    put(&quiet_numbers(StepFigures::from(step)), answer);
}

#[unsafe(no_mangle)]
pub extern "C" fn tff_fold(
    circuit: &[u8],
    scratch: &mut [u16],
    nodes: &mut [Node],
    res: &mut [u8],
    answer: &mut [u64],
)
    ensures answer { answer.new ≡ answer_after (verdict_numbers (fold_checked circuit.now (length scratch.old) (length nodes.old) (length res.old))) answer.old }
    ensures res { res.new ≡ lent_after verdict_length answer.old (fold_result circuit.now (length scratch.old) (length nodes.old) res.old) res.old }
    ensures scratch { scratch.new ≡ lent_after verdict_length answer.old (scratch_after circuit.now scratch.old) scratch.old }
    ensures nodes { nodes.new ≡ lent_after verdict_length answer.old (nodes_after circuit.now (length scratch.old) nodes.old) nodes.old }
{
    if answer.len() < Limits::VERDICT {
        return;
    }
    let verdict: Verdict = fold::fold(circuit, scratch, nodes, res);
    put(&verdict_numbers(verdict), answer);
}

#[unsafe(no_mangle)]
pub extern "C" fn tff_ask(
    circuit: &[u8],
    scratch: &mut [u16],
    nodes: &mut [Node],
    answer: &mut [u64],
)
    ensures answer { answer.new ≡ answer_after (asked circuit.now (length scratch.old) (length nodes.old)) answer.old }
    ensures scratch { scratch.new ≡ lent_after ask_length answer.old (scratch_after circuit.now scratch.old) scratch.old }
    ensures nodes { nodes.new ≡ lent_after ask_length answer.old (nodes_after circuit.now (length scratch.old) nodes.old) nodes.old }
{
    if answer.len() < Limits::ASK {
        return;
    }
    let asked = ask::ask(circuit, scratch, nodes);
    put(&ask_numbers(asked), answer);
}

#[unsafe(no_mangle)]
pub extern "C" fn tff_commit(
    circuit: &[u8],
    plan: &[u64],
    scratch: &mut [u16],
    nodes: &mut [Node],
    res: &mut [u8],
    answer: &mut [u64],
)
    ensures answer { answer.new ≡ answer_after (verdict_numbers (commit_checked circuit.now plan.now (length scratch.old) (length nodes.old) (length res.old))) answer.old }
    ensures res { res.new ≡ lent_after verdict_length answer.old (commit_result circuit.now plan.now (length scratch.old) (length nodes.old) res.old) res.old }
    ensures scratch { scratch.new ≡ lent_after verdict_length answer.old (scratch_after circuit.now scratch.old) scratch.old }
    ensures nodes { nodes.new ≡ lent_after verdict_length answer.old (nodes_after circuit.now (length scratch.old) nodes.old) nodes.old }
{
    if answer.len() < Limits::VERDICT {
        return;
    }
    let verdict: Verdict = commit::commit_numbers(circuit, plan, scratch, nodes, res);
    put(&verdict_numbers(verdict), answer);
}

#[unsafe(no_mangle)]
pub extern "C" fn tff_spread(
    network: &[u8],
    inputs: u16,
    outputs: u16,
    frames: u16,
    places: &[u16],
    shown: &[u16],
    scratch: &mut [u16],
    nodes: &mut [Node],
    res: &mut [u8],
    answer: &mut [u64],
)
    ensures answer { answer.new ≡ answer_after (verdict_numbers (spread_checked network.now inputs outputs frames places.now shown.now (length scratch.old) (length nodes.old) (length res.old))) answer.old }
    ensures res { res.new ≡ lent_after verdict_length answer.old (spread_result network.now inputs outputs frames places.now shown.now (length scratch.old) (length nodes.old) res.old) res.old }
    ensures scratch { scratch.new ≡ lent_after verdict_length answer.old (spread_scratch network.now inputs outputs frames places.now shown.now scratch.old) scratch.old }
    ensures nodes { nodes.new ≡ lent_after verdict_length answer.old (spread_nodes network.now inputs outputs frames places.now shown.now (length scratch.old) nodes.old) nodes.old }
{
    if answer.len() < Limits::VERDICT {
        return;
    }
    let verdict: Verdict = spread::spread(
        network, inputs, outputs, frames, places, shown, scratch, nodes, res,
    );
    put(&verdict_numbers(verdict), answer);
}

#[unsafe(no_mangle)]
pub extern "C" fn tff_price(table: &[u8], answer: &mut [u64])
    ensures { answer.new ≡ answer_after (price_numbers (priced table.now)) answer.old }
{
    if answer.len() < Limits::PRICE {
        return;
    }
    let priced = price::price(table);
    put(&price_numbers(PriceFigures::from(priced)), answer);
}

#[unsafe(no_mangle)]
pub extern "C" fn tff_reach(table: &[u8], res: &mut [u8], answer: &mut [u64])
    ensures answer { answer.new ≡ answer_after (verdict_numbers (reach_checked table.now (length res.old))) answer.old }
    ensures res { res.new ≡ lent_after verdict_length answer.old (reach_result table.now res.old) res.old }
{
    if answer.len() < Limits::VERDICT {
        return;
    }
    let verdict: Verdict = reach::reach(table, res);
    put(&verdict_numbers(verdict), answer);
}

#[unsafe(no_mangle)]
pub extern "C" fn tff_distinguish(
    table: &[u8],
    layer: u16,
    first: u16,
    second: u16,
    res: &mut [u16],
    answer: &mut [u64],
)
    ensures answer { answer.new ≡ answer_after (verdict_numbers (distinguish_checked table.now layer first second (length res.old))) answer.old }
    ensures res { res.new ≡ lent_after verdict_length answer.old (distinguish_result table.now layer first second res.old) res.old }
{
    if answer.len() < Limits::VERDICT {
        return;
    }
    let verdict: Verdict = distinguish::distinguish(
        table,
        layer as usize,
        first as usize,
        second as usize,
        res,
    );
    put(&verdict_numbers(verdict), answer);
}

#[unsafe(no_mangle)]
pub extern "C" fn tff_merge(table: &[u8], res: &mut [u8], answer: &mut [u64])
    ensures answer { answer.new ≡ answer_after (verdict_numbers (merge_checked table.now (length res.old))) answer.old }
    ensures res { res.new ≡ lent_after verdict_length answer.old (merge_result table.now res.old) res.old }
{
    if answer.len() < Limits::VERDICT {
        return;
    }
    let verdict: Verdict = merge::merge(table, res);
    put(&verdict_numbers(verdict), answer);
}

#[unsafe(no_mangle)]
pub extern "C" fn tff_unfold(table: &[u8], res: &mut [u8], answer: &mut [u64])
    ensures answer { answer.new ≡ answer_after (verdict_numbers (unfold_checked table.now (length res.old))) answer.old }
    ensures res { res.new ≡ lent_after verdict_length answer.old (unfold_result table.now res.old) res.old }
{
    if answer.len() < Limits::VERDICT {
        return;
    }
    let verdict: Verdict = unfold::unfold(table, res);
    put(&verdict_numbers(verdict), answer);
}
