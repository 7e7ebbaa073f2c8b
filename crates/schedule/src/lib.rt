// A plain network and the places that it is spread over (document 02, Point 11): judged before anything that is lent is used, and made the source of a fold.
#![tactic(auto)]

ghost use Rattle.std.specs.Prelude.{◌≡◌, ℕ, ◌≤◌, ◌<◌, leb, length, get_or};
ghost use Rattle.verdict.specs.Judgements.{figures};
ghost use Rattle.sizes.specs.Limits.{most_inputs, most_bits};
ghost use Rattle.sizes.specs.Sized.{Sized};
ghost use Rattle.layered.specs.Search.{least};
ghost use Rattle.circuit.specs.Found.{found};
ghost use Rattle.circuit.specs.WellFormed.{CircuitHeaded};
ghost use Rattle.source.specs.Rearranged.{rearranged};
ghost use Rattle.source.specs.Source.{sourced, SourceOf};
ghost use Rattle.spreading.specs.Spread.{is_repeated, lists_checked, schedule_checked, spread_lent, spread_scratch};

use causal::check_look_ahead;
use circuit::{Head, check_form};
use lent::judge_scratch;
use sizes::Sizes;
use source::Source;
use verdict::{Refusal, Verdict};

// The sizes that are given.
pub fn given(inputs: u16, outputs: u16, frames: u16) -> Sizes
    ensures { result ≡ record { inputs = inputs; outputs = outputs; frames = frames } }
{
    Sizes {
        inputs: inputs as usize,
        outputs: outputs as usize,
        frames: frames as usize,
    }
}

// The first item of a list that is no place below `count`.
fn first_outside(list: &[u16], count: usize) -> Option<usize>
    ensures { result ≡ found (length list.now) (least (length list.now) (λ k. leb count (get_or list.now k 0))) }
{
    list.iter().position(|place| count <= *place as usize)
}

// Whether item k of a list is the same as an earlier one.
fn is_repeated(list: &[u16], k: usize) -> bool
    requires { k < length list.now }
    ensures { result ≡ is_repeated list.now k }
{
    list[..k].contains(&list[k])
}

// The first item of a list that is the same as an earlier one.
fn first_repeated(list: &[u16]) -> Option<usize>
    ensures { result ≡ found (length list.now) (least (length list.now) (is_repeated list.now)) }
{
    for k in 0..list.len() {
        if is_repeated(list, k) {
            return Some(k);
        }
    }
    None
}

// The lists of places: 12 for the inputs', 12 for the outputs', 19 over both, 20 over both.
fn check_lists(network: &[u8], sizes: Sizes, inputs: &[u16], outputs: &[u16]) -> Verdict
    requires circuit_headed { CircuitHeaded network.now }
    requires sized { Sized most_inputs sizes.inputs sizes.outputs sizes.frames }
    ensures { figures result ≡ lists_checked network.now sizes.inputs sizes.outputs sizes.frames inputs.now outputs.now }
{
    let own = Head::read(network);
    let count = inputs.len();
    if count != own.base - 1 {
        return Err(Refusal::Count(count));
    }
    let shown = outputs.len();
    if shown != own.total {
        return Err(Refusal::Count(shown));
    }
    if let Some(k) = first_outside(inputs, sizes.inputs * sizes.frames) {
        return Err(Refusal::Outside(k));
    }
    if let Some(k) = first_outside(outputs, sizes.outputs * sizes.frames) {
        return Err(Refusal::Outside(count + k));
    }
    if let Some(k) = first_repeated(inputs) {
        return Err(Refusal::Taken(k));
    }
    if let Some(k) = first_repeated(outputs) {
        return Err(Refusal::Taken(count + k));
    }
    Ok(0)
}

// The network, the given sizes and the lists, in this order.
fn check_schedule(network: &[u8], sizes: Sizes, inputs: &[u16], outputs: &[u16]) -> Verdict
    ensures { figures result ≡ schedule_checked network.now sizes.inputs sizes.outputs sizes.frames inputs.now outputs.now }
{
    check_form(network, sizes::Limits::BITS, 1)?;
    sizes.check(sizes::Limits::INPUTS)?;
    check_lists(network, sizes, inputs, outputs)
}

// A list of at most 16 places, as a source has it.
fn held(list: &[u16]) -> [u16; sizes::Limits::BITS]
    requires { length list.now ≤ most_bits }
    ensures { (k : ℕ) → k < length list.now → get_or result k 0 ≡ get_or list.now k 0 }
{
    let mut places = [0; sizes::Limits::BITS];
    places[..list.len()].copy_from_slice(list);
    places
}

// The source that the sizes and the lists make of a network.
pub fn spread_source(network: &[u8], sizes: Sizes, inputs: &[u16], outputs: &[u16]) -> Source
    requires { (schedule_checked network.now sizes.inputs sizes.outputs sizes.frames inputs.now outputs.now).number ≡ 0 }
    ensures { SourceOf network.now result × (sourced result network.now ≡ rearranged network.now sizes.inputs sizes.outputs sizes.frames inputs.now outputs.now) }
{
    let own = Head::read(network);
    let total = sizes.outputs * sizes.frames;
    Source {
        inputs: sizes.inputs,
        outputs: sizes.outputs,
        frames: sizes.frames,
        gates: own.gates + total,
        base: 1 + sizes.inputs * sizes.frames,
        total,
        own,
        whole: false,
        places: held(inputs),
        shown: held(outputs),
    }
}

// All that is judged before the nodes are counted: what is needed of the scratch is cleared where it accepts.
pub fn judge_spread(
    network: &[u8],
    sizes: Sizes,
    inputs: &[u16],
    outputs: &[u16],
    scratch: &mut [u16],
) -> Verdict
    ensures verdict { figures result ≡ spread_lent network.now sizes.inputs sizes.outputs sizes.frames inputs.now outputs.now (length scratch.old) }
    ensures scratch { scratch.new ≡ spread_scratch network.now sizes.inputs sizes.outputs sizes.frames inputs.now outputs.now scratch.old }
{
    check_schedule(network, sizes, inputs, outputs)?;
    let source = spread_source(network, sizes, inputs, outputs);
    check_look_ahead(network, source)?;
    judge_scratch(scratch, source)
}
