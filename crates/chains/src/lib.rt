// Chains of gates, stored one behind the other: the matches of a frame, and its edges (document 01, "Drawing back into gates").
#![tactic(auto)]

pub mod gates;

ghost use Rattle.std.specs.Prelude.{◌≡◌, [], ◌+◌, ◌*◌, ◌^◌, ◌≤◌, ◌<◌, length};
ghost use Rattle.sizes.specs.Limits.{most_inputs, most_frames, most_bits};
ghost use Rattle.circuit.specs.Limits.{most_gates};
ghost use Rattle.circuit.specs.Lists.{listed};
ghost use Rattle.unfolded.specs.Unfolded.{chain, chains_from, input_literal, matching};
ghost use Rattle.chains.specs.Chains.{Fits, gates_stored, match_of, edge_of};

use circuit::is_set;
use gates::{chain_end, put_gate};

// The circuit that is drawn: its inputs in a frame and how many words they have, its outputs in a frame, the signal of its first gate, and
// how many gates it has.
#[derive(Clone, Copy)]
pub struct Target {
    pub inputs: usize,
    pub words: usize,
    pub outputs: usize,
    pub base: usize,
    pub gates: usize,
}

// Input i of frame t, inverted where that bit of the word w is 0.
fn input_literal(inputs: usize, t: usize, w: usize, i: usize) -> usize
    requires { (inputs ≤ most_inputs) × (t < most_frames) × (i < inputs) }
    ensures { (result ≡ input_literal inputs t w i) × (result < 65536) }
{
    let literal = 2 * (1 + (t * inputs + i));
    if is_set(w, i) { literal } else { literal + 1 }
}

// Match: the chain of word w in frame t, from gate k on.
fn put_match(target: Target, t: usize, w: usize, k: usize, res: &mut [u8])
    requires fits { Fits target res.old }
    requires t_lt_most_frames { (t < most_frames) × (k + target.inputs ≤ target.gates) }
    ensures { res.new ≡ gates_stored target.gates k res.old (chain (target.base + k) 1 (matching target.inputs t w)) }
{
    let inputs = target.inputs;
    for i in 0..inputs {
        let left = chain_end(target, k, k + i);
        let right = input_literal(inputs, t, w, i);
        put_gate(target, k + i, left, right, res);
    }
}

// The match chains of all words in frame t, from gate k on; answers where they end.
pub fn put_matches(target: Target, t: usize, k: usize, res: &mut [u8]) -> usize
    requires fits { Fits target res.old }
    requires t_lt_most_frames { (t < most_frames) × (k + target.words * target.inputs ≤ target.gates) }
    ensures gates { res.new ≡ gates_stored target.gates k res.old (chains_from (target.base + k) (matching target.inputs t) target.words) }
    ensures end { result ≡ k + target.words * target.inputs }
{
    let words = target.words;
    for w in 0..words {
        put_match(target, t, w, k + w * target.inputs, res);
    }
    k + words * target.inputs
}

// The literal of the match of word w, where gate k is the first of all matches.
fn match_literal(target: Target, k: usize, w: usize) -> usize
    requires { (target.base ≤ 1 + most_bits) × (1 ≤ target.inputs) × (target.inputs ≤ most_inputs) × (k ≤ most_gates) × (w < 2 ^ most_inputs) }
    ensures { (result ≡ match_of target.inputs (target.base + k) w) × (result < 65536) }
{
    2 * (target.base + k + (w * target.inputs + (target.inputs - 1)))
}

// Edges, from gate k on: by state, then word; left the state's literal, right the match, of which gate `matches` is the first.
pub fn put_edges(
    target: Target,
    states: &[u16],
    matches: usize,
    count: usize,
    k: usize,
    res: &mut [u8],
)
    requires fits { Fits target res.old }
    requires matches_le_k { (matches ≤ k) × (k + count ≤ target.gates) × (count ≤ length states.now * target.words) }
    ensures { res.new ≡ gates_stored target.gates k res.old (listed [] (edge_of target.inputs (target.base + matches) states.now) count) }
{
    let words = target.words;
    for e in 0..count {
        let state = states[e / words] as usize;
        let matched = match_literal(target, matches, e % words);
        put_gate(target, k + e, state, matched, res);
    }
}
