// What the AND of two diagrams and the search for a record decide, by value: no list of records is read here.
#![tactic(auto)]

ghost use Rattle.std.specs.Prelude.{◌≡◌, ◌≢◌, cond, ◌&&◌, ◌+◌, ◌<◌, min, eqb, ltb};
ghost use Rattle.diagrams.specs.Making.{Known, home, no_id};
ghost use Rattle.nodes.specs.Nodes.{id_of, Real, halves_of, Stops, next_id};

// A record: a level, from 1, and two branches; level 0 is no record. The ids 0 and 1 are the constants, id i + 2 is record i.
// Branches are ids, and not boxes, since the records lie in a list that the caller lends: there is no heap.
#[repr(C)]
#[derive(Clone, Copy)]
pub struct Node {
    pub level: u32,
    pub low: u32,
    pub high: u32,
}

// The level of the constants, below all others; no id has this number.
pub const NONE: u32 = 4294967295;

// The operands of an AND: two ids, each perhaps inverted.
#[derive(Clone, Copy)]
pub struct Pair {
    pub f: u32,
    pub a: bool,
    pub g: u32,
    pub b: bool,
}

// The operands of its two halves.
#[derive(Clone, Copy)]
pub struct Halves {
    pub low: Pair,
    pub high: Pair,
}

// The constant that is false when inverted so.
fn false_of(inverted: bool) -> u32
    ensures { result ≡ cond inverted 1 0 }
{
    if inverted { 1 } else { 0 }
}

fn are_constants(f: u32, g: u32) -> bool
    ensures { result ≡ (ltb f 2 && ltb g 2) }
{
    f < 2 && g < 2
}

// An AND, where it is known without a look at the nodes.
pub fn known(pair: Pair) -> Option<u32>
    ensures is { Known pair.f pair.a pair.g pair.b (id_of result) }
    ensures real { pair.f ≢ no_id → pair.g ≢ no_id → Real result }
{
    let f = pair.f;
    let a = pair.a;
    let g = pair.g;
    let b = pair.b;
    if f == false_of(a) {
        return Some(0);
    }
    if g == false_of(b) {
        return Some(0);
    }
    if are_constants(f, g) {
        return Some(1);
    }
    if f < 2 && !b {
        return Some(g);
    }
    if g < 2 && !a {
        return Some(f);
    }
    if f == g {
        if a != b {
            return Some(0);
        }
        if !a {
            return Some(f);
        }
    }
    None
}

// The higher of two levels: the lower number.
pub fn top_of(x: Node, y: Node) -> u32
    ensures { result ≡ min x.level y.level }
{
    x.level.min(y.level)
}

// The low and the high branch of f, whose record is x, at a level.
#[derive(Clone, Copy)]
pub struct Split {
    pub low: u32,
    pub high: u32,
}

pub fn parts(x: Node, level: u32, f: u32) -> Split
    ensures { (result.low ≡ cond (eqb x.level level) x.low f) × (result.high ≡ cond (eqb x.level level) x.high f) }
{
    if x.level == level {
        Split {
            low: x.low,
            high: x.high,
        }
    } else {
        Split { low: f, high: f }
    }
}

// The operands of the two halves at a level; x and y are the records of the pair.
pub fn halve(x: Node, y: Node, level: u32, pair: Pair) -> Halves
    ensures { result ≡ halves_of x y level pair }
{
    let s = parts(x, level, pair.f);
    let t = parts(y, level, pair.g);
    Halves {
        low: Pair {
            f: s.low,
            a: pair.a,
            g: t.low,
            b: pair.b,
        },
        high: Pair {
            f: s.high,
            a: pair.a,
            g: t.high,
            b: pair.b,
        },
    }
}

// The id where a record is sought first: that of its home.
pub fn start_of(room: u32, level: u32, low: u32, high: u32) -> u32
    requires { room + 2 < 4294967296 }
    ensures { 0 < room → result ≡ home room level low high + 2 }
{
    let sum = low as u64 * 1640531527 + high as u64 * 1327217885 + level as u64 * 805459861;
    (sum % 4294967296 * room as u64 / 4294967296) as u32 + 2
}

// The id after it, round the list.
pub fn next_of(room: u32, id: u32) -> u32
    requires { (id < room + 2) × (room + 2 < 4294967296) }
    ensures { result ≡ next_id room id }
{
    if id + 1 < room + 2 { id + 1 } else { 2 }
}

// Whether a search ends at the record x: it is free, or it is the one that is sought.
pub fn stops(x: Node, level: u32, low: u32, high: u32) -> bool
    ensures { Stops x level low high result }
{
    if x.level == 0 {
        return true;
    }
    x.level == level && x.low == low && x.high == high
}
