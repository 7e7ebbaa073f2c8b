// The check of a circuit. Number 4 is judged by what the circuit, or the network by its source, does: where its gates alone do not show that no output looks ahead, all
// sequences are played, many side by side.
#![tactic(auto)]

ghost use Rattle.std.specs.Prelude.{◌≡◌, false, ℕ, ◌+◌, ◌-◌, ◌%◌, ◌≤◌, ◌<◌, length};
ghost use Rattle.verdict.specs.Judgements.{figures};
ghost use Rattle.sizes.specs.Limits.{most_outputs, most_bits};
ghost use Rattle.layered.specs.Search.{least};
ghost use Rattle.circuit.specs.Found.{found};
ghost use Rattle.circuit.specs.Limits.{most_signals};
ghost use Rattle.circuit.specs.Circuit.{all_outputs, looks_ahead, look_ahead_checked, checked};
ghost use Rattle.circuit.specs.Theorems.{FirstAhead, JudgedAlike, AcceptedCausal};
ghost use Rattle.source.specs.Source.{sourced, SourceOf};
ghost use Rattle.lanes.specs.Limits.{lane_count};
ghost use Rattle.causal.specs.Limits.{most_all_outputs};
ghost use Rattle.causal.specs.Played.{Placed, own_bit, OwnBits, ShownSignals, Outputs, Firsts, FirstDiffering};

use blocks::first_of_blocks;
use circuit::check_form;
use lanes::{first_uses, neighbours, room, store_signals};
use latest::{first_reaching, output_frame};
use sizes::power;
use source::{Source, shown_signal};
use std::array;
use verdict::{Refusal, Verdict};

// The most outputs over all frames.
#[derive(Drop)]
pub struct Limits;

impl Limits {
    pub const OUTPUTS: usize = sizes::Limits::OUTPUTS * sizes::Limits::FRAMES;
}

// The bit of a sequence's number that input i of the circuit or network is: of a circuit as it stands, the bit that it is of its own.
fn own_bit(source: Source, i: usize) -> usize
    requires { (i < most_bits) × (source.whole ≡ false → Placed source) }
    ensures { (result ≡ own_bit source i) × (result < most_bits) }
{
    if source.whole {
        return i;
    }
    if source.own.base <= i + 1 {
        return 0;
    }
    let place = source.places[i] as usize;
    let frame = output_frame(source.inputs, 1, place);
    let later = source.frames - frame;
    later * source.inputs + (place - (frame - 1) * source.inputs)
}

// These bits of all inputs.
fn own_bits(source: Source) -> [usize; sizes::Limits::BITS]
    requires { source.whole ≡ false → Placed source }
    ensures { OwnBits source result }
{
    array::from_fn(|i| own_bit(source, i))
}

// The signals that all places of outputs show.
fn shown_signals(source: Source) -> [usize; Limits::OUTPUTS]
    requires { (source.whole ≡ false → source.own.total ≤ most_outputs) × (source.own.base + source.own.gates ≤ most_signals) × (source.own.total ≤ source.own.gates) }
    ensures { ShownSignals source result }
{
    array::from_fn(|q| shown_signal(source, q))
}

// Compares the outputs from `from` to before `found` on the sequences of the part from `at` on, each with its value on the first sequence that
// agrees up to its frame: the first output that differs, or `found`. The answer is the bound of the next part, and so no Option. `kept` has the lanes of
// these values, of the part before and then of this one.
fn first_differing(
    circuit: &[u8],
    source: Source,
    lanes: &[u32],
    shown: &[usize],
    at: usize,
    kept: &mut [u32],
    from: usize,
    found: usize,
) -> usize
    requires source_of { SourceOf circuit.now source }
    requires lane_count_value { (at % lane_count ≡ 0) × (from ≤ found) × (found ≤ all_outputs (sourced source circuit.now)) }
    requires most_signals_in_bounds { (most_signals ≤ length lanes.now) × (most_all_outputs ≤ length kept.old) × ShownSignals source shown.now }
    requires outputs { Outputs (sourced source circuit.now) shown.now at lanes.now }
    requires firsts { 0 < at → Firsts (sourced source circuit.now) (at - lane_count) kept.old from found }
    ensures first_differing { FirstDiffering (sourced source circuit.now) at from found result }
    ensures firsts_2 { Firsts (sourced source circuit.now) at kept.new from result }
{
    let mut frame = 1;
    for q in from..found {
        frame = output_frame(source.outputs, frame, q);
        let later = source.frames - frame;
        let seen = lanes[shown[q]];
        let due = first_of_blocks(seen, at, source.inputs * later, kept[q]);
        if seen != due {
            return q;
        }
        kept[q] = due;
    }
    found
}

// The first output that looks ahead, of which there is none before `from`. The circuit or network is played by its own inputs and signals.
fn first_ahead(circuit: &[u8], source: Source, from: usize) -> Option<usize>
    requires source_of { SourceOf circuit.now source }
    requires from_bound { from < all_outputs (sourced source circuit.now) }
    requires by_index { (q : ℕ) → q < from → looks_ahead (sourced source circuit.now) q ≡ false }
    ensures { result ≡ found (all_outputs (sourced source circuit.now)) (least (all_outputs (sourced source circuit.now)) (looks_ahead (sourced source circuit.now))) }
{
    let count = power(source.base - 1);
    let own = source.own;
    let frames = own.frames;
    let bits = own_bits(source);
    let shown = shown_signals(source);
    let firsts = first_uses(circuit, own);
    let mut lanes = room();
    let mut kept = [0; Limits::OUTPUTS];
    let mut found = source.total;
    let mut at = 0;
    // not `step_by`: its loop also ends before a step past `count`, and what follows would be proved once for each end
    while at < count {
        let numbers = neighbours(at, &bits);
        store_signals(circuit, own, frames, &numbers, &firsts, &mut lanes);
        found = first_differing(circuit, source, &lanes, &shown, at, &mut kept, from, found);
        if found == from {
            return Some(found);
        }
        at += lanes::Limits::LANES;
    }
    if found < source.total {
        Some(found)
    } else {
        None
    }
}

// Number 4.
pub fn check_look_ahead(circuit: &[u8], source: Source) -> Verdict
    requires { SourceOf circuit.now source }
    ensures { figures result ≡ look_ahead_checked (sourced source circuit.now) }
{
    let Some(from) = first_reaching(circuit, source) else {
        return Ok(0);
    };
    match first_ahead(circuit, source, from) {
        Some(found) => Err(Refusal::LookAhead(found)),
        None => Ok(0),
    }
}

// The verdict on a circuit.
pub fn check(circuit: &[u8]) -> Verdict
    ensures verdict { figures result ≡ checked circuit.now }
    ensures ahead { FirstAhead circuit.now }
    ensures alike { JudgedAlike circuit.now }
    ensures causal { AcceptedCausal circuit.now }
{
    check_form(circuit, sizes::Limits::INPUTS, sizes::Limits::FRAMES)?;
    check_look_ahead(circuit, Source::of(circuit))
}
