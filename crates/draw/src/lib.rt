// Draws the gates of a table (document 01, "Drawing back into gates"), gate after gate, into a result with room for all of them.
#![tactic(auto)]

ghost use Rattle.std.specs.Prelude.{◌≡◌, cond, ◌∷◌, [], suc, ◌+◌, ◌*◌, ◌≤◌, ◌<◌, ltb, length, get_or, take, drop, replicate};
ghost use Rattle.sizes.specs.Sizes.{outputs, frames};
ghost use Rattle.circuit.specs.Lists.{listed, bit};
ghost use Rattle.table.specs.Table.{states};
ghost use Rattle.table.specs.Sound.{TableHeaded, Sound, layout_of};
ghost use Rattle.circuit.specs.Circuit.{output_gate};
ghost use Rattle.unfolded.specs.Unfolded.{out_literal, is_connected, frame_gates, drawn};
ghost use Rattle.chains.specs.Chains.{Fits, target_of, gates_stored};
ghost use Rattle.draw.specs.Limits.{most_literals};
ghost use Rattle.draw.specs.Draw.{frame_at, gates_before, source_of, StatesKept};

use chains::gates::put_gate;
use chains::{Target, put_edges, put_matches};
use circuit::{Gate, is_set};
use gathers::{Gathering, Key, put_gathers};
use table::Layout;
use table::head::{connected_of, entries_below, states_of};

// The most states of a layer that are drawn, as each has two edges or more, and the most outputs over all frames.
#[derive(Drop)]
struct Limits;

impl Limits {
    const STATES: usize = circuit::Limits::GATES / 2;

    const OUTPUTS: usize = sizes::Limits::OUTPUTS * sizes::Limits::FRAMES;
}

// How many states of layer t are drawn: none of the last layer.
fn drawn_states(table: &[u8], layout: Layout, t: usize) -> usize
    requires table_headed { TableHeaded table.now }
    requires layout_value { layout ≡ layout_of table.now }
    requires t_bound { t ≤ frames table.now }
    ensures { result ≡ cond (ltb t (frames table.now)) (states table.now t) 0 }
{
    if t < layout.frames {
        return states_of(table, t);
    }
    0
}

// What a frame is drawn from: its number, its first gate, how many edges it has and how many next states are drawn, and the byte offsets of
// the edges' next states and outputs.
#[derive(Clone, Copy)]
struct Source {
    frame: usize,
    first: usize,
    edges: usize,
    drawn: usize,
    nexts: usize,
    outputs: usize,
}

impl Source {
    fn read(table: &[u8], layout: Layout, t: usize, first: usize) -> Source
        requires table_headed { TableHeaded table.now }
        requires layout_value { (layout ≡ layout_of table.now) × (t < frames table.now) }
        ensures { result ≡ source_of table.now t first }
    {
        let edges = states_of(table, t) * layout.words;
        let drawn = drawn_states(table, layout, t + 1);
        let below = 2 * entries_below(table, layout.words, t);
        Source {
            frame: t,
            first,
            edges,
            drawn,
            nexts: layout.nexts + below,
            outputs: layout.outputs + below,
        }
    }
}

// The entries of so many edges, from byte offset `from` on.
fn entries_from(table: &[u8], from: usize, edges: usize) -> &[u8]
    requires { from + 2 * edges ≤ length table.now }
    ensures { result.now ≡ take (2 * edges) (drop from table.now) }
{
    let to = from + 2 * edges;
    &table[from..to]
}

// The gates of a frame: the match chains, the edges, and the gather chains of the next states and of the outputs. `states` has the literals of
// the states that the edges leave, and is left with those of the next layer; `outputs` is left with those of the frame's outputs. Answers where
// the gates end.
fn put_frame(
    table: &[u8],
    target: Target,
    source: Source,
    states: &mut [u16],
    outputs: &mut [u16],
    res: &mut [u8],
) -> usize
    requires sound { Sound table.now }
    requires target_value { (target ≡ target_of table.now) × Fits target res.old }
    requires frame_bound { (source.frame < frames table.now) × (source ≡ source_of table.now source.frame (gates_before table.now source.frame)) }
    requires states_kept { StatesKept table.now source.frame states.old }
    requires outputs_len { length outputs.old ≡ target.outputs }
    ensures gates { res.new ≡ gates_stored target.gates source.first res.old (frame_gates (frame_at table.now source.frame)) }
    ensures states { StatesKept table.now (suc source.frame) states.new }
    ensures outputs { outputs.new ≡ listed [] (out_literal (frame_at table.now source.frame)) target.outputs }
    ensures end { result ≡ gates_before table.now (suc source.frame) }
{
    let edges = put_matches(target, source.frame, source.first, res);
    put_edges(target, states, source.first, source.edges, edges, res);
    let nexts = entries_from(table, source.nexts, source.edges);
    let drawn = source.drawn;
    let gathers = put_gathers(
        target,
        nexts,
        Gathering {
            key: Key::NextState,
            edges,
        },
        edges + source.edges,
        &mut states[..drawn],
        res,
    );
    let words = entries_from(table, source.outputs, source.edges);
    put_gathers(
        target,
        words,
        Gathering {
            key: Key::OutputBit,
            edges,
        },
        gathers,
        outputs,
        res,
    )
}

// The literals of the states of layer 0: that of the start is 1.
fn start_states() -> [u16; Limits::STATES]
    ensures { take 1 result ≡ 1 ∷ [] }
{
    let mut states = [0; Limits::STATES];
    states[0] = 1;
    states
}

// No literals of outputs yet.
fn no_outputs() -> [u16; Limits::OUTPUTS]
    ensures { result ≡ replicate most_literals 0 }
{
    [0; Limits::OUTPUTS]
}

// The gate of an output whose gather chain ends with this literal; the mark where it is unconnected.
fn output_gate(connected: bool, literal: usize) -> Gate
    ensures { result ≡ record { left = (output_gate connected literal).0; right = (output_gate connected literal).1 } }
{
    if connected {
        return Gate {
            left: literal,
            right: 1,
        };
    }
    Gate {
        left: circuit::Limits::MARK,
        right: circuit::Limits::MARK,
    }
}

// Stores the output gates of one frame from gate k on. `connected` has its connected outputs, and its literals begin with number `from`.
fn put_frame_outputs(
    target: Target,
    connected: usize,
    literals: &[u16],
    from: usize,
    k: usize,
    res: &mut [u8],
)
    requires fits { Fits target res.old }
    requires outputs_bound { (k + target.outputs ≤ target.gates) × (from + target.outputs ≤ length literals.now) }
    ensures { res.new ≡ gates_stored target.gates k res.old (listed [] (λ j. output_gate (bit connected j) (get_or literals.now (from + j) 0)) target.outputs) }
{
    let count = target.outputs;
    for j in 0..count {
        let gate = output_gate(is_set(connected, j), literals[from + j] as usize);
        put_gate(target, k + j, gate.left, gate.right, res);
    }
}

// Stores the output gates from gate k on, given the literals that the gather chains of all outputs end with.
fn put_outputs(
    table: &[u8],
    layout: Layout,
    target: Target,
    literals: &[u16],
    k: usize,
    res: &mut [u8],
)
    requires sound { Sound table.now }
    requires layout_value { layout ≡ layout_of table.now }
    requires target_value { (target ≡ target_of table.now) × Fits target res.old }
    requires table_bound { (k + outputs table.now * frames table.now ≤ target.gates) × (outputs table.now * frames table.now ≤ length literals.now) }
    ensures { res.new ≡ gates_stored target.gates k res.old (listed [] (λ q. output_gate (is_connected table.now q) (get_or literals.now q 0)) (outputs table.now * frames table.now)) }
{
    let last = layout.frames;
    for t in 0..last {
        let from = target.outputs * t;
        let connected = connected_of(table, last, t);
        put_frame_outputs(target, connected, literals, from, k + from, res);
    }
}

// Draws all gates of a table.
pub fn draw(table: &[u8], layout: Layout, target: Target, res: &mut [u8])
    requires sound { Sound table.now }
    requires layout_value { layout ≡ layout_of table.now }
    requires target_value { (target ≡ target_of table.now) × Fits target res.old }
    ensures { res.new ≡ gates_stored target.gates 0 res.old (drawn table.now) }
{
    let mut states = start_states();
    let mut outputs = no_outputs();
    let frames = layout.frames;
    let count = target.outputs;
    let mut k = 0;
    for t in 0..frames {
        let source = Source::read(table, layout, t, k);
        let from = count * t;
        let to = from + count;
        k = put_frame(
            table,
            target,
            source,
            &mut states,
            &mut outputs[from..to],
            res,
        );
    }
    put_outputs(table, layout, target, &outputs, k, res);
}
