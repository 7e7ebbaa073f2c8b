// The latest frames that the signals of a circuit, or of a network by its source, depend on by their gates, and the first output whose gates reach a later frame than its own.
#![tactic(auto)]

ghost use Rattle.std.specs.Prelude.{◌≡◌, List, ℕ, ◌+◌, ◌*◌, ◌≤◌, ◌<◌, length, get_or, take};
ghost use Rattle.sizes.specs.Limits.{most_outputs, most_bits};
ghost use Rattle.layered.specs.Search.{least};
ghost use Rattle.circuit.specs.Found.{found};
ghost use Rattle.circuit.specs.Limits.{most_wired, most_signals};
ghost use Rattle.circuit.specs.Circuit.{gates, gate_signal, all_outputs, frame_of};
ghost use Rattle.circuit.specs.Frames.{NotAfter, OnlyInputOf, OnlyOutputOf};
ghost use Rattle.source.specs.Source.{sourced, SourceOf};
ghost use Rattle.latest.specs.Latest.{input_frames, InputsTo, reaches_later, own_input_frames, own_frames};

use circuit::{Limits, read_gate};
use source::{Source, shown_signal};

// The frame, from 1, of output q, counted along from a frame that is not later.
pub fn output_frame(outputs: usize, from: usize, q: usize) -> usize
    requires le_outputs { (1 ≤ outputs) × (outputs ≤ most_outputs) × (q ≤ most_wired) }
    requires not_after { NotAfter outputs from q }
    ensures frame { result ≡ frame_of outputs q }
    ensures only { OnlyOutputOf outputs result q }
{
    let mut t = from;
    while t * outputs <= q {
        t += 1;
    }
    t
}

// Stores the latest frames of input k, from 0, of each frame: frame by frame.
fn store_input(inputs: usize, frames: usize, k: usize, latest: &mut [u8])
    requires k_lt_inputs { (k < inputs) × (inputs ≤ most_bits) × (frames * inputs ≤ most_bits) × (frames * inputs < length latest.old) }
    requires inputs_to { InputsTo inputs frames k latest.old }
    ensures { InputsTo inputs frames (k + 1) latest.new }
{
    for t in 0..frames {
        latest[1 + (t * inputs + k)] = (t + 1) as u8;
    }
}

// Stores the latest frames of the constant and of all inputs.
fn store_inputs(inputs: usize, frames: usize, latest: &mut [u8])
    requires { (1 ≤ inputs) × (inputs ≤ most_bits) × (frames * inputs ≤ most_bits) × (frames * inputs < length latest.old) }
    ensures frames { take (1 + frames * inputs) latest.new ≡ input_frames inputs (frames * inputs) }
    ensures only { (s : ℕ) → 1 ≤ s → s ≤ frames * inputs → OnlyInputOf inputs (get_or latest.new s 0) s }
{
    latest[0] = 0;
    for k in 0..inputs {
        store_input(inputs, frames, k, latest);
    }
}

// Stores the latest frames of the constant and of all inputs of what is read: those of a network's by their places.
fn store_own_inputs(source: Source, latest: &mut [u8])
    requires by_index { (c : List ℕ) × SourceOf c source }
    requires most_signals_in_bounds { most_signals ≤ length latest.old }
    ensures { take source.own.base latest.new ≡ own_input_frames source }
{
    if source.whole {
        store_inputs(source.inputs, source.frames, latest);
        return;
    }
    latest[0] = 0;
    let count = source.own.base - 1;
    for i in 0..count {
        latest[1 + i] = output_frame(source.inputs, 1, source.places[i] as usize) as u8;
    }
}

// Stores the latest frames of all signals, in the numbering of what is read.
fn store_signals(circuit: &[u8], source: Source, latest: &mut [u8])
    requires source_of { SourceOf circuit.now source }
    requires most_signals_in_bounds { most_signals ≤ length latest.old }
    ensures { take (gate_signal circuit.now (gates circuit.now)) latest.new ≡ own_frames source circuit.now (gates circuit.now) }
{
    let own = source.own;
    let count = own.gates;
    let base = own.base;
    store_own_inputs(source, latest);
    for g in 0..count {
        let gate = read_gate(circuit, own, g);
        let left = gate.left / 2;
        let right = gate.right / 2;
        latest[base + g] = latest[left].max(latest[right]);
    }
}

// The first output whose gates reach an input of a later frame. A place of an output has the latest frame of the
// signal that it shows.
pub fn first_reaching(circuit: &[u8], source: Source) -> Option<usize>
    requires { SourceOf circuit.now source }
    ensures { result ≡ found (all_outputs (sourced source circuit.now)) (least (all_outputs (sourced source circuit.now)) (reaches_later (sourced source circuit.now))) }
{
    let mut latest = [0; Limits::SIGNALS];
    store_signals(circuit, source, &mut latest);
    let total = source.total;
    let mut frame = 1;
    for q in 0..total {
        frame = output_frame(source.outputs, frame, q);
        if (frame as u8) < latest[shown_signal(source, q)] {
            return Some(q);
        }
    }
    None
}
