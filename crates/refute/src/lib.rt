// The first candidate for a machine of all frames that a table does not refute. A candidate is the next states of all entries, as digits of a number, so
// that the order of numbers is dictionary order.
#![tactic(auto)]

ghost use Rattle.std.specs.Prelude.{◌≡◌, true, suc, ◌+◌, ◌*◌, ◌^◌, ◌≤◌, ◌<◌, length};
ghost use Rattle.merged.specs.Demands.{skipped};
ghost use Rattle.trial.specs.Tried.{target_of, Held};
ghost use Rattle.trial.specs.Trials.{target_in, next_in};
ghost use Rattle.refute.specs.Searched.{Digits, Refuses, Recalled, Decided, Searched};

use table::head::connected_of;
use trial::subject::Trial;
use trial::{Limits, Sought, Spot, Visit};

// The next states of the candidate c.
pub fn digits(states: usize, entries: usize, c: usize) -> [u16; Limits::ENTRIES]
    requires { (1 ≤ states) × (states ≤ 3) × (entries ≤ 12) }
    ensures digits { Digits states entries c result }
    ensures long { length result ≡ 12 }
{
    let mut chosen: [u16; Limits::ENTRIES] = [0; Limits::ENTRIES];
    let mut rest = c;
    for i in (0..entries).rev() {
        chosen[i] = (rest % states) as u16;
        rest /= states;
    }
    chosen
}

// states^count
pub fn power(states: usize, count: usize) -> usize
    requires { (1 ≤ states) × (states ≤ 3) × (count ≤ 12) }
    ensures { (result ≡ states ^ count) × (1 ≤ result) × (result ≤ 531441) }
{
    let mut p: usize = 1;
    for i in 0..count {
        p *= states;
    }
    p
}

// The first candidate after c that differs from it in its first p digits.
fn skip(states: usize, entries: usize, c: usize, p: usize) -> usize
    requires { (1 ≤ states) × (states ≤ 3) × (entries ≤ 12) × (p ≤ entries) × (c < 531441) }
    ensures { result ≡ skipped states entries c p }
{
    let step = power(states, entries - p);
    (c / step + 1) * step
}

// Whether it is a history of the table. Any numbers may be given.
fn is_history(sought: Sought, spot: Spot) -> bool
    requires { (sought.frames ≤ 16) × (sought.inputs * sought.frames ≤ 16) }
    ensures { result ≡ true → (spot.frame < sought.frames) × (spot.history < 2 ^ (sought.inputs * (spot.frame + 1))) }
{
    spot.frame < sought.frames && spot.history < 1 << (sought.inputs * (spot.frame + 1))
}

// Whether two histories contradict each other in this candidate, the first by a bit that it demands 1: then the bound of the prefix that they used.
fn clash(trial: Trial, first: Spot, second: Spot) -> Option<usize>
    ensures { Refuses (target_in trial.entry) (next_in trial.entry) trial.entry.sought.entries result }
{
    let sought = trial.sought;
    if !is_history(sought, first) || !is_history(sought, second) {
        return None;
    }
    let one = trial.come(first.frame, first.history);
    let zero = trial.come(second.frame, second.history);
    if one.entry != zero.entry {
        return None;
    }
    let ones = one.out & connected_of(trial.table, sought.frames, first.frame) as u16;
    let zeros = !zero.out & connected_of(trial.table, sought.frames, second.frame) as u16;
    if ones & zeros == 0 {
        return None;
    }
    Some(one.used.max(zero.used))
}

// Two histories: one by which a bit is demanded 1, and one by which it is demanded 0.
#[derive(Clone, Copy)]
struct Pair {
    one: Spot,
    zero: Spot,
}

// Pairs that were seen to contradict each other, and the place of the next.
#[derive(Drop)]
struct Seen {
    pairs: [Option<Pair>; Seen::PAIRS],
    next: usize,
}

impl Seen {
    const PAIRS: usize = 64;
}

// A refuted prefix of a candidate: the bound of the entries that refute it, and the place of the pair to try first on the next.
#[derive(Clone, Copy)]
pub struct Refuted {
    pub used: usize,
    pub at: usize,
}

// Seeks a pair that refutes the candidate, from the pair `from` on.
fn recall(trial: Trial, seen: &Seen, from: usize) -> Option<Refuted>
    ensures { Recalled (target_in trial.entry) (next_in trial.entry) trial.entry.sought.entries result }
{
    for i in 0..Seen::PAIRS {
        let at = (from % Seen::PAIRS + i) % Seen::PAIRS;
        if let Some(pair) = seen.pairs[at] {
            if let Some(used) = clash(trial, pair.one, pair.zero) {
                return Some(Refuted { used, at });
            }
        }
    }
    None
}

// The first history of t + 1 words that comes to the entry with another output in the bits of the mask. What it answers is a guess: it is tested before
// use.
fn opposite(trial: Trial, t: usize, count: usize, visit: Visit, mask: u16) -> Option<usize>
    requires { (t < trial.sought.frames) × (count ≡ trial.sought.words ^ suc t) }
{
    let bits = connected_of(trial.table, trial.sought.frames, t) as u16 & mask;
    if bits == 0 {
        return None;
    }
    for h in 0..count {
        let other = trial.come(t, h);
        if other.entry == visit.entry && (other.out ^ visit.out) & bits != 0 {
            return Some(h);
        }
    }
    None
}

// A history that contradicts the given one, a guess as well.
fn mate(trial: Trial, spot: Spot) -> Option<Spot> {
    let frames = trial.sought.frames;
    let words = trial.sought.words;
    if !is_history(trial.sought, spot) {
        return None;
    }
    let visit = trial.come(spot.frame, spot.history);
    let mask = connected_of(trial.table, frames, spot.frame) as u16;
    let mut count: usize = 1;
    for s in 0..frames {
        count *= words;
        if let Some(history) = opposite(trial, s, count, visit, mask) {
            return Some(Spot { frame: s, history });
        }
    }
    None
}

// Stores the history that showed a contradiction with its mate, if one is found, the one that demands 1 first; answers the place of the pair.
fn keep(trial: Trial, seen: &mut Seen, spot: Spot) -> usize
    ensures { result < 64 }
{
    let at = seen.next % Seen::PAIRS;
    if let Some(other) = mate(trial, spot) {
        let pair = if clash(trial, spot, other).is_some() {
            Pair {
                one: spot,
                zero: other,
            }
        } else {
            Pair {
                one: other,
                zero: spot,
            }
        };
        seen.pairs[at] = Some(pair);
        seen.next = at + 1;
    }
    at
}

// Judges a candidate, by the pairs seen and then by all histories: the bits demanded 1, or a prefix that is refuted.
fn judge(trial: Trial, seen: &mut Seen, from: usize) -> Result<[u16; Limits::ENTRIES], Refuted>
    ensures { Decided (target_in trial.entry) (next_in trial.entry) trial.entry.sought.entries result }
{
    if let Some(refuted) = recall(trial, seen, from) {
        return Err(refuted);
    }
    match trial.try_all() {
        Ok(ones) => Ok(ones),
        Err(spot) => {
            let at = keep(trial, seen, spot);
            Err(Refuted {
                used: trial.sought.entries,
                at,
            })
        }
    }
}

// What is sought: the number of a candidate, and its outputs.
#[derive(Clone, Copy)]
pub struct Found {
    pub number: usize,
    pub ones: [u16; Limits::ENTRIES],
}

// The first candidate that the table does not refute.
pub fn search(sought: Sought, table: &[u8], starts: &[usize]) -> Option<Found>
    requires { Held table.now starts.now sought }
    ensures { Searched (target_of sought.words sought.frames table.now) sought.states sought.entries result }
{
    let states = sought.states;
    let entries = sought.entries;
    let total = power(states, entries);
    let mut seen = Seen {
        pairs: [None; Seen::PAIRS],
        next: 0,
    };
    let mut at: usize = 0;
    let mut c: usize = 0;
    // not `for`: each turn skips all candidates that are refuted
    while c < total {
        let chosen = digits(states, entries, c);
        let trial = Trial {
            sought,
            table,
            starts,
            chosen: &chosen,
        };
        match judge(trial, &mut seen, at) {
            Ok(ones) => return Some(Found { number: c, ones }),
            Err(refuted) => {
                at = refuted.at;
                c = skip(states, entries, c, refuted.used);
            }
        }
    }
    None
}
