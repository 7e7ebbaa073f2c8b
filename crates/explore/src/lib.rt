// The states of all layers, found forward: each state of a layer, by its smallest history, followed by each word in order. Two such candidates are the
// same state exactly when they lead to the same id in the diagram of every output of a later frame.
#![tactic(auto)]

ghost use Rattle.std.specs.Prelude.{◌≡◌, List, ℕ, suc, ◌+◌, ◌*◌, ◌/◌, ◌<◌, min};
ghost use Rattle.explore.specs.Explore.{column_count, Laid, Starts, Underway, Moves, grouped, next_layer, rows_of, job_of, Groupable, Rowable, Nextable, Explorable, Ends};

use descend::{Job, trace};
use nodes::Node;
use refine::{Rows, collect, refine};

// How many ids of candidates work has room for, and how many layers there are at most.
#[derive(Drop)]
pub struct Limits;

impl Limits {
    pub const COLUMNS: usize = 32768;

    pub const LAYERS: usize = 17;
}

// The sizes of an exploration: so many words (`fan`) of so many bits, frames and outputs to a frame; where the scratch's second half begins, where in
// work the ids of the outputs stand, and where there is room for the ids of candidates.
#[derive(Clone, Copy)]
pub struct Layout {
    pub fan: usize,
    pub bits: usize,
    pub frames: usize,
    pub outputs: usize,
    pub half: usize,
    pub roots: usize,
    pub columns: usize,
}

// Where an exploration stands: at a state of a layer, of which there are so many, their paths from `at` on in the scratch; and at a group of `parts`
// outputs, the first of which is `first` among all. `counts` has the counts of the layers up to this one.
#[derive(Clone, Copy)]
pub struct Cursor {
    pub layer: usize,
    pub states: usize,
    pub at: usize,
    pub first: usize,
    pub parts: usize,
    pub state: usize,
    pub counts: [u16; Limits::LAYERS],
}

// How many outputs of `left` make a group, with `count` ids each.
fn group_size(left: usize, count: usize) -> usize
    requires { 0 < count }
    ensures { result ≡ min left (column_count / count) }
{
    left.min(Limits::COLUMNS / count)
}

// The group from the cursor's first output on, at the layer's first state.
fn at_group(layout: Layout, cursor: Cursor) -> Cursor
    requires { Groupable layout cursor }
    ensures { result ≡ grouped layout cursor }
{
    let count = cursor.states * layout.fan;
    let left = layout.outputs * layout.frames - cursor.first;
    Cursor {
        parts: group_size(left, count),
        state: 0,
        ..cursor
    }
}

// The start: layer 0 has one state, of the empty path, and the last layer has one.
pub fn start(layout: Layout) -> Cursor
    requires { Laid layout }
    ensures { Starts layout result }
{
    let mut counts = [0; Limits::LAYERS];
    counts[0] = 1;
    let frames = layout.frames;
    counts[frames] = 1;
    let cursor = Cursor {
        layer: 0,
        states: 1,
        at: 0,
        first: layout.outputs,
        parts: 0,
        state: 0,
        counts,
    };
    at_group(layout, cursor)
}

// What is to be followed next: the group's outputs, by the path of the state and all words after it.
pub fn job_of(scratch: &[u16], layout: Layout, cursor: Cursor) -> Job
    requires { (ws : List ℕ) × Underway layout scratch.now ws cursor cursor.state }
    ensures { result ≡ job_of scratch.now layout cursor }
{
    let at = cursor.at + cursor.state;
    Job {
        from: layout.roots + cursor.first,
        count: cursor.parts,
        path: scratch[at] as u32,
        top: (layout.bits * cursor.layer) as u32,
        fan: layout.fan,
        at: layout.columns + cursor.state * layout.fan * cursor.parts,
    }
}

// The next layer, which has `count` states.
fn next_layer(layout: Layout, cursor: Cursor, count: usize) -> Cursor
    requires rowable { Rowable layout cursor }
    requires nextable { Nextable layout cursor count }
    ensures { result ≡ next_layer layout cursor count }
{
    let layer = cursor.layer + 1;
    let mut counts = cursor.counts;
    counts[layer] = count as u16;
    let next = Cursor {
        layer,
        states: count,
        at: cursor.at * layout.fan + 1,
        first: layout.outputs * (layer + 1),
        parts: 0,
        state: 0,
        counts,
    };
    at_group(layout, next)
}

// Where the candidates of the layer lie.
fn rows_of(layout: Layout, cursor: Cursor) -> Rows
    requires { Rowable layout cursor }
    ensures { result ≡ rows_of layout cursor }
{
    let next = cursor.at * layout.fan + 1;
    Rows {
        count: cursor.states * layout.fan,
        parts: cursor.parts,
        copy: next,
        numbers: layout.half + next,
        ids: layout.columns,
    }
}

// All candidates of the layer have their ids in the group's diagrams: they are numbered anew, and the next group follows, or the next layer.
fn end_group(scratch: &mut [u16], work: &[u32], layout: Layout, cursor: Cursor) -> Cursor
    requires { Underway layout scratch.old work.now cursor cursor.states }
    ensures { Moves layout scratch.old scratch.new work.now cursor cursor.states result }
{
    let rows = rows_of(layout, cursor);
    let count = refine(scratch, work, rows);
    let first = cursor.first + cursor.parts;
    if first < layout.outputs * layout.frames {
        let next = Cursor {
            first,
            parts: 0,
            state: 0,
            ..cursor
        };
        return at_group(layout, next);
    }
    collect(
        scratch,
        rows,
        cursor.at,
        layout.fan,
        layout.bits * cursor.layer,
    );
    next_layer(layout, cursor, count)
}

// The candidates of a state have their ids in work: goes on to the next state, or ends the group.
pub fn move_on(scratch: &mut [u16], work: &[u32], layout: Layout, cursor: Cursor) -> Cursor
    requires { Underway layout scratch.old work.now cursor (suc cursor.state) }
    ensures { Moves layout scratch.old scratch.new work.now cursor (suc cursor.state) result }
{
    let state = cursor.state + 1;
    if state < cursor.states {
        return Cursor { state, ..cursor };
    }
    end_group(scratch, work, layout, cursor)
}

// Finds the states of all layers, with the diagrams of all outputs at hand: their paths and next states go to the scratch, which is clean.
// Answers where it ended, with the counts of all layers.
pub fn explore(nodes: &[Node], scratch: &mut [u16], work: &mut [u32], layout: Layout) -> Cursor
    requires { Explorable layout nodes.now scratch.old work.old }
    ensures { Ends layout nodes.now scratch.old scratch.new work.old work.new result }
{
    let mut cursor = start(layout);
    // not `for`: a layer takes as many turns as it has groups and states, which the turns before find
    while cursor.layer + 1 < layout.frames {
        let job = job_of(scratch, layout, cursor);
        trace(nodes, work, job);
        let next = move_on(scratch, work, layout, cursor);
        cursor = next;
    }
    cursor
}
