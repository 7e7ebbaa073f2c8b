// What folding needs of its source: where each input signal stands, and which gate each place of an output shows. A circuit as it stands is its own source;
// of a plain network that is spread over frames both come from lists of places. No gates are copied.
#![tactic(auto)]

ghost use Rattle.std.specs.Prelude.{◌≡◌, false, not, ◌+◌, ◌-◌, ◌/◌, ◌≤◌, ◌<◌};
ghost use Rattle.sizes.specs.Limits.{most_outputs};
ghost use Rattle.circuit.specs.Found.{found};
ghost use Rattle.circuit.specs.Limits.{most_signals};
ghost use Rattle.circuit.specs.Circuit.{gates, gate_of_output, unconnected, connected_outputs};
ghost use Rattle.circuit.specs.WellFormed.{CircuitHeaded, GateOf};
ghost use Rattle.source.specs.Rearranged.{standing, renamed};
ghost use Rattle.source.specs.Source.{sourced, item_in, shown_signal, Renames, Spreads, WholeOf, SourceOf};

use circuit::{Gate, Head, is_unconnected, read_gate};

// The sizes of what is folded: those of the circuit, or those that are given for the network. `own` are the sizes of the circuit or network that is read,
// and `whole` tells that it is folded as it stands; else `places` has the place of each of its inputs, and `shown` that of each of its outputs.
#[derive(Clone, Copy)]
pub struct Source {
    pub inputs: usize,
    pub outputs: usize,
    pub frames: usize,
    pub gates: usize,
    pub base: usize,
    pub total: usize,
    pub own: Head,
    pub whole: bool,
    pub places: [u16; sizes::Limits::BITS],
    pub shown: [u16; sizes::Limits::BITS],
}

impl Source {
    // That of a circuit as it stands.
    pub fn of(circuit: &[u8]) -> Source
        requires { CircuitHeaded circuit.now }
        ensures { WholeOf circuit.now result }
    {
        let head = Head::read(circuit);
        Source {
            inputs: head.inputs,
            outputs: head.outputs,
            frames: head.frames,
            gates: head.gates,
            base: head.base,
            total: head.total,
            own: head,
            whole: true,
            places: [0; sizes::Limits::BITS],
            shown: [0; sizes::Limits::BITS],
        }
    }
}

// Which output of the circuit or network stands at place q.
fn item_at(source: Source, q: usize) -> Option<usize>
    requires { source.whole ≡ false → source.own.total ≤ most_outputs }
    ensures { result ≡ found source.own.total (item_in source q) }
{
    let count = source.own.total;
    if source.whole {
        return (q < count).then_some(q);
    }
    source.shown[..count]
        .iter()
        .position(|place| *place as usize == q)
}

// The signal of the circuit or network that place q of an output shows; the constant where it shows none.
pub fn shown_signal(source: Source, q: usize) -> usize
    requires { (source.whole ≡ false → source.own.total ≤ most_outputs) × (source.own.base + source.own.gates ≤ most_signals) × (source.own.total ≤ source.own.gates) }
    ensures { (result ≡ shown_signal source q) × (result < most_signals) }
{
    let own = source.own;
    match item_at(source, q) {
        Some(k) => own.base + (own.gates - own.total) + k,
        None => 0,
    }
}

// Whether the output at place q is connected.
fn is_connected(circuit: &[u8], source: Source, q: usize) -> bool
    requires { SourceOf circuit.now source × (q < source.total) }
    ensures { result ≡ not (unconnected (sourced source circuit.now) (gate_of_output (sourced source circuit.now) q)) }
{
    let own = source.own;
    let Some(k) = item_at(source, q) else {
        return false;
    };
    !is_unconnected(circuit, own, own.gates - own.total + k)
}

// As which signal a network's signal stands. Before signal `first` there are the constant, which stands as itself, and the inputs, each by its place; the
// gates stand from signal `base` on.
fn stands(first: usize, base: usize, places: &[u16], signal: usize) -> usize
    requires { Renames first base places.now signal }
    ensures { (result ≡ standing (first - 1) places.now (base - 1) signal) × (result < 65536) }
{
    if first <= signal {
        return base + (signal - first);
    }
    if signal == 0 {
        return 0;
    }
    1 + places[signal - 1] as usize
}

// A literal of a network, by the signal as which its own stands.
fn rename(first: usize, base: usize, places: &[u16], literal: usize) -> usize
    requires { Renames first base places.now (literal / 2) }
    ensures { result ≡ renamed (first - 1) places.now (base - 1) literal }
{
    2 * stands(first, base, places, literal / 2) + literal % 2
}

// The operands of the gate that shows the output at place q, behind all gates of a network.
fn shown_gate(circuit: &[u8], source: Source, q: usize) -> Gate
    requires { (source.whole ≡ false) × Spreads circuit.now source × (q < source.total) }
    ensures { GateOf (sourced source circuit.now) (gates circuit.now + q) result }
{
    let own = source.own;
    match item_at(source, q) {
        Some(k) if is_connected(circuit, source, q) => Gate {
            left: 2 * (source.base + (own.gates - own.total + k)),
            right: 1,
        },
        _ => Gate { left: 0, right: 0 },
    }
}

// The operands of gate g of what is folded: one of the circuit or network, or one that shows its output at a place. This is asked for each gate, and a source is
// large: so what reads and renames one of its own is passed no source.
pub fn gate_of(circuit: &[u8], source: Source, g: usize) -> Gate
    requires { SourceOf circuit.now source × (g < gates (sourced source circuit.now)) }
    ensures { GateOf (sourced source circuit.now) g result }
{
    let own = source.own;
    if own.gates <= g {
        return shown_gate(circuit, source, g - own.gates);
    }
    let gate = read_gate(circuit, own, g);
    if source.whole {
        return gate;
    }
    let places = source.places;
    Gate {
        left: rename(own.base, source.base, &places, gate.left),
        right: rename(own.base, source.base, &places, gate.right),
    }
}

// The connected outputs of frame t, from 0.
pub fn connected_outputs(circuit: &[u8], source: Source, t: usize) -> usize
    requires { SourceOf circuit.now source × (t < source.frames) }
    ensures { (result ≡ connected_outputs (sourced source circuit.now) t) × (result < 65536) }
{
    let first = source.outputs * t;
    let mut word = 0;
    for j in (0..source.outputs).rev() {
        word = 2 * word + is_connected(circuit, source, first + j) as usize;
    }
    word
}
