// Writes the table of a circuit whose states are explored: head, outputs and next states, word after word, so that the rest of the result stays as it was.
#![tactic(auto)]

ghost use Rattle.std.specs.Prelude.{◌≡◌, ◌+◌, ◌*◌, ◌-◌, ◌≤◌, ◌<◌, ◌++◌, length, drop, replicate};
ghost use Rattle.words.specs.Words.{stored};
ghost use Rattle.sizes.specs.Sizes.{inputs, outputs, frames};
ghost use Rattle.layered.specs.Search.{tabulate};
ghost use Rattle.circuit.specs.Circuit.{connected_outputs};
ghost use Rattle.circuit.specs.Theorems.{response};
ghost use Rattle.source.specs.Source.{sourced, SourceOf};
ghost use Rattle.table.specs.Table.{connected_at, head_length};
ghost use Rattle.folded.specs.Folded.{folded_bytes};
ghost use Rattle.explore.specs.Explore.{Laid, CountsTo};
ghost use Rattle.write.specs.Write.{head_words, NextsFit, NextsPut, word_in, row_in, first_row, next_row, row_job, AtRow, Writable, Wrote, nexts_from, Tabled};

use descend::{Job, trace};
use explore::{Layout, Limits as Explore};
use nodes::Node;
use source::{Source, connected_outputs};
use survey::{Counts, layout_of};
use table::Limits;
use table::head::{connected_at, head_length};
use words::{store, store_all};

// The next row to be written: that of a state of a layer, of which there are so many, their paths from `at` on in the scratch; it goes to byte offset `to`.
#[derive(Clone, Copy)]
pub struct Writing {
    pub layer: usize,
    pub states: usize,
    pub at: usize,
    pub state: usize,
    pub to: usize,
}

// Stores the connected outputs of all frames, behind the counts.
fn put_connected(circuit: &[u8], source: Source, res: &mut [u8])
    requires source_of { SourceOf circuit.now source }
    requires circuit_in_bounds { head_length (frames (sourced source circuit.now)) ≤ length res.old }
    ensures { res.new ≡ stored 2 res.old (connected_at (frames (sourced source circuit.now)) 0) (tabulate (frames (sourced source circuit.now)) (connected_outputs (sourced source circuit.now))) }
{
    let last = source.frames;
    for t in 0..last {
        let word = connected_outputs(circuit, source, t);
        store(res, connected_at(last, t), word as u16);
    }
}

// Stores the head: the sizes, the counts and the connected outputs.
pub fn put_head(circuit: &[u8], source: Source, counts: &[u16], res: &mut [u8])
    requires source_of { SourceOf circuit.now source }
    requires counts_to { CountsTo (inputs (sourced source circuit.now)) (outputs (sourced source circuit.now)) (frames (sourced source circuit.now)) (response (sourced source circuit.now)) counts.now (frames (sourced source circuit.now) - 1) }
    requires circuit_in_bounds { head_length (frames (sourced source circuit.now)) ≤ length res.old }
    ensures { res.new ≡ stored 2 res.old 0 (head_words (sourced source circuit.now)) }
{
    let sizes = [
        source.inputs as u16,
        source.outputs as u16,
        source.frames as u16,
    ];
    store_all(&sizes, res, 0);
    let layers = source.frames + 1;
    store_all(&counts[..layers], res, Limits::SIZES);
    put_connected(circuit, source, res);
}

// Stores so many zeros.
fn put_zeros(res: &mut [u8], at: usize, count: usize)
    requires { at + 2 * count ≤ length res.old }
    ensures { res.new ≡ stored 2 res.old at (replicate count 0) }
{
    res[at..at + 2 * count].fill(0);
}

// Stores all next states, layer by layer. Those of the last frame are all state 0, and stand nowhere in the scratch.
pub fn put_nexts(scratch: &[u16], layout: Layout, counts: &[u16], res: &mut [u8], at: usize)
    requires { NextsFit layout scratch.now counts.now res.old at }
    ensures { NextsPut layout scratch.now counts.now res.old at res.new }
{
    let half = layout.half;
    let last = layout.frames - 1;
    let mut from = 1;
    let mut end = at;
    for t in 0..last {
        let count = counts[t] as usize * layout.fan;
        store_all(&scratch[half + from..half + from + count], res, end);
        from = from * layout.fan + 1;
        end += 2 * count;
    }
    put_zeros(res, end, counts[last] as usize * layout.fan);
}

// The word of the outputs whose ids stand from `from` on: bit j is set where id j is the constant 1.
fn word_of(work: &[u32], from: usize, outputs: usize) -> u16
    requires { (outputs ≤ 16) × (from + outputs ≤ length work.now) }
    ensures { result ≡ word_in work.now from outputs }
{
    let mut word: u16 = 0;
    for k in (0..outputs).rev() {
        word = 2 * word + (work[from + k] == 1) as u16;
    }
    word
}

// Stores the row whose ids were traced: for each word its outputs.
fn put_row(work: &[u32], res: &mut [u8], layout: Layout, to: usize)
    requires { Laid layout × (layout.columns + layout.fan * layout.outputs ≤ length work.now) × (to + 2 * layout.fan ≤ length res.old) }
    ensures { res.new ≡ stored 2 res.old to (row_in layout work.now) }
{
    let fan = layout.fan;
    for w in 0..fan {
        let from = layout.columns + w * layout.outputs;
        store(res, to + 2 * w, word_of(work, from, layout.outputs));
    }
}

// The first row: that of layer 0's one state.
fn first_row(to: usize) -> Writing
    ensures { result ≡ first_row to }
{
    Writing {
        layer: 0,
        states: 1,
        at: 0,
        state: 0,
        to,
    }
}

// What is to be followed for a row: the outputs of the layer's frame, by the state's path and then by each word.
fn row_job(scratch: &[u16], layout: Layout, writing: Writing) -> Job
    requires { AtRow layout writing × (layout.half ≤ length scratch.now) }
    ensures { result ≡ row_job scratch.now layout writing }
{
    let at = writing.at + writing.state;
    Job {
        from: layout.roots + layout.outputs * writing.layer,
        count: layout.outputs,
        path: scratch[at] as u32,
        top: (layout.bits * writing.layer) as u32,
        fan: layout.fan,
        at: layout.columns,
    }
}

// The row after: of the layer's next state, or of the next layer's first.
fn next_row(counts: &[u16], layout: Layout, writing: Writing) -> Writing
    requires { AtRow layout writing × (length counts.now ≡ 17) × (writing.to + 2 * layout.fan < 18446744073709551616) }
    ensures { result ≡ next_row layout counts.now writing }
{
    let state = writing.state + 1;
    let to = writing.to + 2 * layout.fan;
    if state < writing.states {
        return Writing {
            layer: writing.layer,
            states: writing.states,
            at: writing.at,
            state,
            to,
        };
    }
    let layer = writing.layer + 1;
    Writing {
        layer,
        states: counts[layer] as usize,
        at: writing.at * layout.fan + 1,
        state: 0,
        to,
    }
}

// Stores all outputs, state by state: each state's outputs are followed down by its path and each word, and read where they lead.
pub fn put_outputs(
    nodes: &[Node],
    scratch: &[u16],
    work: &mut [u32],
    counts: &[u16],
    layout: Layout,
    res: &mut [u8],
    to: usize,
)
    requires { Writable layout nodes.now scratch.now work.old counts.now res.old to }
    ensures { Wrote layout nodes.now scratch.now work.old counts.now res.old to work.new res.new }
{
    let mut writing = first_row(to);
    // not `for` in `for`: the contracts speak of one row after the other (`next_row`)
    while writing.layer < layout.frames {
        let job = row_job(scratch, layout, writing);
        trace(nodes, work, job);
        put_row(work, res, layout, writing.to);
        let next = next_row(counts, layout, writing);
        writing = next;
    }
}

// Where the next states begin: behind the head, and a word of outputs for each entry.
fn nexts_from(counts: &[u16], layout: Layout) -> usize
    requires { Laid layout × (length counts.now ≡ 17) }
    ensures { result ≡ nexts_from layout counts.now }
{
    let frames = layout.frames;
    let mut states = 0;
    for t in 0..frames {
        states += counts[t] as usize;
    }
    head_length(frames) + 2 * (states * layout.fan)
}

// Writes the table of an accepted circuit, or of a network by its source, that was surveyed with enough records. The rest of the result stays as it was.
pub fn write_table(
    circuit: &[u8],
    counts: Counts,
    nodes: &[Node],
    scratch: &[u16],
    work: &mut [u32],
    res: &mut [u8],
    source: Source,
)
    requires { SourceOf circuit.now source × Tabled (sourced source circuit.now) counts nodes.now scratch.now work.old res.old }
    ensures { res.new ≡ folded_bytes (sourced source circuit.now) ++ drop (length (folded_bytes (sourced source circuit.now))) res.old }
{
    put_head(circuit, source, &counts, res);
    let layout = layout_of(source);
    let at = head_length(source.frames);
    put_outputs(nodes, scratch, work, &counts, layout, res, at);
    let nexts = nexts_from(&counts, layout);
    put_nexts(scratch, layout, &counts, res, nexts);
}
