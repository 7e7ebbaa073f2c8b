// The AND of two diagrams, with a cache of results. The cache lies in `work`, a lent list of numbers: each entry has two ids, their inversions as one
// number, and the id of their AND. A place keeps the latest. No map of the library: nothing is allocated.
#![tactic(auto)]

ghost use Rattle.std.specs.Prelude.{◌≡◌, suc, ◌+◌, ◌-◌, ◌<◌, ◌≤◌, length};
ghost use Rattle.diagrams.specs.Caching.{flags_of};
ghost use Rattle.nodes.specs.Nodes.{id_of, Real};
ghost use Rattle.records.specs.Records.{nodes_in};
ghost use Rattle.conjoin.specs.Cache.{Slot, Looked, KeptIn, Ready, Anded};

use nodes::{Node, Pair, halve, known, top_of};
use records::{join, node_of};

// How many entries the cache has, and how many numbers each.
#[derive(Drop)]
pub struct Limits;

impl Limits {
    pub const ENTRIES: usize = 4096;

    pub const ENTRY: usize = 4;
}

// How many records may be used, of how many inputs the diagrams are, and where in `work` the cache begins.
#[derive(Clone, Copy)]
pub struct Shape {
    pub room: u32,
    pub inputs: u32,
    pub cache: usize,
}

// Two inversions as a number.
#[tactic(auto, unfolding(diagrams::specs::Caching::flags_of))]
fn flags_of(a: bool, b: bool) -> u32
    ensures { (result ≡ flags_of a b) × (result < 4) }
{
    if a {
        if b { 3 } else { 2 }
    } else {
        if b { 1 } else { 0 }
    }
}

// Where the entry of a pair stands.
fn slot_of(cache: usize, pair: Pair) -> usize
    requires { cache < 4294967296 }
    ensures { Slot cache result }
{
    let flags = flags_of(pair.a, pair.b) as usize;
    let sum = pair.f as usize * 1640531527 + pair.g as usize * 1327217885 + flags * 805459861;
    cache + Limits::ENTRY * (sum / 65536 % Limits::ENTRIES)
}

// The AND that stands there, if it is that of the pair.
fn look(work: &[u32], slot: usize, pair: Pair) -> Option<u32>
    requires { slot + 4 ≤ length work.now }
    ensures { Looked work.now slot pair result }
{
    let hit = work[slot] == pair.f
        && work[slot + 1] == pair.g
        && work[slot + 2] == flags_of(pair.a, pair.b);
    if hit { Some(work[slot + 3]) } else { None }
}

// Keeps an AND there.
fn keep(work: &mut [u32], slot: usize, pair: Pair, made: u32)
    requires { slot + 4 ≤ length work.old }
    ensures { KeptIn work.old work.new slot pair made }
{
    work[slot] = pair.f;
    work[slot + 1] = pair.g;
    work[slot + 2] = flags_of(pair.a, pair.b);
    work[slot + 3] = made;
}

// The AND of a pair, as a function of the last `left` inputs: known at once, or from the cache, or both halves at the higher of the two levels, and
// their join. None where the list has too few records.
pub fn conjoin(
    nodes: &mut [Node],
    work: &mut [u32],
    shape: Shape,
    pair: Pair,
    left: u32,
) -> Option<u32>
    requires { Ready shape.inputs shape.room shape.cache nodes.old work.old pair left }
    ensures is { Anded shape.inputs shape.room (suc shape.inputs - left) shape.cache (nodes_in nodes.old) (nodes_in nodes.new) work.old work.new pair (id_of result) }
    ensures real { Real result }
{
    if let Some(id) = known(pair) {
        return Some(id);
    }
    let slot = slot_of(shape.cache, pair);
    if let Some(id) = look(work, slot, pair) {
        return Some(id);
    }
    let x = node_of(nodes, pair.f);
    let y = node_of(nodes, pair.g);
    let level = top_of(x, y);
    let halves = halve(x, y, level, pair);
    let low = conjoin(nodes, work, shape, halves.low, shape.inputs - level)?;
    let high = conjoin(nodes, work, shape, halves.high, shape.inputs - level)?;
    let made = join(nodes, shape.room, level, low, high)?;
    keep(work, slot, pair, made);
    Some(made)
}
