// Follows decision diagrams down by given inputs: the records are read only, ids lie in a lent list of numbers.
#![tactic(auto)]

ghost use Rattle.std.specs.Prelude.{◌≡◌, cond, ◌+◌, ◌≤◌, ◌<◌, ◌^◌, eqb, length, get_or, set};
ghost use Rattle.diagrams.specs.Diagrams.{follow as leads_to};
ghost use Rattle.diagrams.specs.Frames.{word_bits};
ghost use Rattle.records.specs.Records.{nodes_in};
ghost use Rattle.descend.specs.Descend.{branch_of, Followable, Expandable, Expanded, Traceable, Traced, first_cursor, next_cursor, CursorFits};

use nodes::{Node, parts};
use records::node_of;

// Where a node's ids go: those of word w, below `size`, to `at + w * stride`; the words' first bit is tested at `level`.
#[derive(Clone, Copy)]
pub struct Spread {
    pub level: u32,
    pub size: usize,
    pub at: usize,
    pub stride: usize,
}

// The words of i bits are split into those of one bit more, which is tested at `level`: `count` is the next word to be made,
// `low` the place of the word that is split, `high` that of the next, and `end` the first of one bit more.
#[derive(Clone, Copy)]
pub struct Cursor {
    pub level: u32,
    pub count: usize,
    pub low: usize,
    pub high: usize,
    pub end: usize,
}

// The ids at `from` to `from + count` are followed by the first `top` bits of `path`, then by each word below `fan`; those of word w go to `at + w * count` on.
#[derive(Clone, Copy)]
pub struct Job {
    pub from: usize,
    pub count: usize,
    pub path: u32,
    pub top: u32,
    pub fan: usize,
    pub at: usize,
}

// The branch that the path chooses.
fn step_down(x: Node, path: u32) -> u32
    requires { (0 < x.level) × (x.level ≤ 16) }
    ensures { result ≡ branch_of x path }
{
    if (path >> (x.level - 1)) % 2 == 1 {
        x.high
    } else {
        x.low
    }
}

// Where f leads by the first `top` bits of the path, from node to node.
pub fn follow(nodes: &[Node], f: u32, path: u32, top: u32) -> u32
    requires { Followable nodes.now f top }
    ensures { result ≡ leads_to (nodes_in nodes.now) 1 (word_bits top path) f }
{
    let mut id = f;
    let mut x = node_of(nodes, f);
    while x.level <= top {
        let next = step_down(x, path);
        x = node_of(nodes, next);
        id = next;
    }
    id
}

// The id at a place.
fn id_at(work: &[u32], place: usize) -> u32
    requires { place < length work.now }
    ensures { result ≡ get_or work.now place 0 }
{
    work[place]
}

// Before the first level: the one word of no bits.
fn begin(work: &mut [u32], f: u32, spread: Spread) -> Cursor
    requires { (spread.at < length work.old) × (spread.at + spread.stride < 2 ^ 64) }
    ensures { (result ≡ first_cursor spread) × (work.new ≡ set work.old spread.at f) }
{
    let at = spread.at;
    work[at] = f;
    let high = at + spread.stride;
    Cursor {
        level: spread.level,
        count: 1,
        low: at,
        high,
        end: high,
    }
}

#[tactic(auto, unfolding(crate::specs::Descend::next_cursor))]
fn next_cursor(spread: Spread, cursor: Cursor) -> Cursor
    requires { CursorFits spread cursor }
    ensures { result ≡ next_cursor spread cursor }
{
    let low = cursor.low + spread.stride;
    let high = cursor.high + spread.stride;
    let count = cursor.count + 1;
    if low == cursor.end {
        return Cursor {
            level: cursor.level + 1,
            count,
            low: spread.at,
            high,
            end: high,
        };
    }
    Cursor {
        level: cursor.level,
        count,
        low,
        high,
        end: cursor.end,
    }
}

// Stores both branches of an id, whose record is x, and goes on.
fn split(work: &mut [u32], x: Node, id: u32, spread: Spread, cursor: Cursor) -> Cursor
    requires { (cursor.low < length work.old) × (cursor.high < length work.old) × CursorFits spread cursor }
    ensures { (result ≡ next_cursor spread cursor) × (work.new ≡ set (set work.old cursor.low (cond (eqb x.level cursor.level) x.low id)) cursor.high (cond (eqb x.level cursor.level) x.high id)) }
{
    let branches = parts(x, cursor.level, id);
    let low = cursor.low;
    let high = cursor.high;
    work[low] = branches.low;
    work[high] = branches.high;
    next_cursor(spread, cursor)
}

// Writes where f leads for each word, by doubling: a level's branches of all words of i bits are those of i + 1 bits.
pub fn expand(nodes: &[Node], work: &mut [u32], f: u32, spread: Spread)
    requires { Expandable nodes.now work.old f spread }
    ensures { Expanded nodes.now work.old f spread work.new }
{
    let mut c = begin(work, f, spread);
    // not `for`: four places move on together, as the cursor says
    while c.count < spread.size {
        let id = id_at(work, c.low);
        let next = split(work, node_of(nodes, id), id, spread, c);
        c = next;
    }
}

// Where id i of a job goes.
fn spread_of(job: Job, i: usize) -> Spread
    requires { (job.top + 1 < 2 ^ 32) × (job.at + i < 2 ^ 64) }
    ensures { (result.level ≡ job.top + 1) × (result.size ≡ job.fan) × (result.at ≡ job.at + i) × (result.stride ≡ job.count) }
{
    Spread {
        level: job.top + 1,
        size: job.fan,
        at: job.at + i,
        stride: job.count,
    }
}

// Follows each id of a job by its path, then by each word.
pub fn trace(nodes: &[Node], work: &mut [u32], job: Job)
    requires { Traceable nodes.now work.old job }
    ensures { Traced nodes.now work.old job work.new }
{
    for i in 0..job.count {
        let f = follow(nodes, id_at(work, job.from + i), job.path, job.top);
        expand(nodes, work, f, spread_of(job, i));
    }
}
