// Gather chains: over the edges into a state, or over those whose output has a bit.
#![tactic(auto)]

ghost use Rattle.std.specs.Prelude.{◌≡◌, ◌+◌, ◌/◌, ◌≤◌, ◌<◌, length};
ghost use Rattle.sizes.specs.Limits.{most_outputs};
ghost use Rattle.unfolded.specs.Unfolded.{inverted, chain};
ghost use Rattle.chains.specs.Chains.{Fits, gates_stored};
ghost use Rattle.gathers.specs.Gathers.{chosen, gather_edges, gather_gates, gather_literals};

use chains::Target;
use chains::gates::{chain_end, put_gate};
use circuit::is_set;
use words::read;

// By what an edge belongs to gather chain i: its next state is i, or bit i of its output is 1. No closure: `chosen` in specs/ tells the two apart.
#[derive(Clone, Copy)]
pub enum Key {
    NextState,
    OutputBit,
}

// What is gathered: the edges from gate `edges` on, by their next states or by the bits of their outputs.
#[derive(Clone, Copy)]
pub struct Gathering {
    pub key: Key,
    pub edges: usize,
}

// Whether an edge with the next state or output x belongs to chain i.
fn is_chosen(key: Key, i: usize, x: usize) -> bool
    requires { key ≡ Key.OutputBit → i < most_outputs }
    ensures { result ≡ chosen key i x }
{
    match key {
        Key::NextState => x == i,
        Key::OutputBit => is_set(x, i),
    }
}

// A literal inverted.
fn invert(literal: usize) -> usize
    requires { literal < 65535 }
    ensures { (result ≡ inverted literal) × (result < 65536) }
{
    if literal % 2 == 1 {
        literal - 1
    } else {
        literal + 1
    }
}

// Gather chain i, from gate k on; `entries` are the edges' next states or outputs. Answers where it ends.
fn put_gather(
    target: Target,
    entries: &[u8],
    gathering: Gathering,
    i: usize,
    k: usize,
    res: &mut [u8],
) -> usize
    requires fits { Fits target res.old }
    requires i_lt_most_outputs { gathering.key ≡ Key.OutputBit → i < most_outputs }
    requires entries_bound { gathering.edges + length entries.now / 2 ≤ target.gates }
    requires i_bound { k + length (gather_edges target gathering entries.now i) ≤ target.gates }
    ensures gates { res.new ≡ gates_stored target.gates k res.old (chain (target.base + k) 1 (gather_edges target gathering entries.now i)) }
    ensures end { result ≡ k + length (gather_edges target gathering entries.now i) }
{
    let key = gathering.key;
    let edges = target.base + gathering.edges;
    let count = entries.len() / 2;
    let mut end = k;
    for e in 0..count {
        if is_chosen(key, i, read(entries, 2 * e)) {
            let left = chain_end(target, k, end);
            put_gate(target, end, left, 2 * (edges + e) + 1, res);
            end += 1;
        }
    }
    end
}

// One gather chain for each of `literals`, from gate k on, which are left with what each ends with, inverted. Answers where they end.
pub fn put_gathers(
    target: Target,
    entries: &[u8],
    gathering: Gathering,
    k: usize,
    literals: &mut [u16],
    res: &mut [u8],
) -> usize
    requires fits { Fits target res.old }
    requires literals_len_bound { gathering.key ≡ Key.OutputBit → length literals.old ≤ most_outputs }
    requires entries_bound { gathering.edges + length entries.now / 2 ≤ target.gates }
    requires literals_bound { k + length (gather_gates target gathering entries.now k (length literals.old)) ≤ target.gates }
    ensures gates { res.new ≡ gates_stored target.gates k res.old (gather_gates target gathering entries.now k (length literals.old)) }
    ensures ends { literals.new ≡ gather_literals target gathering entries.now k (length literals.old) }
    ensures end { result ≡ k + length (gather_gates target gathering entries.now k (length literals.old)) }
{
    let count = literals.len();
    let mut end = k;
    for i in 0..count {
        let next = put_gather(target, entries, gathering, i, end, res);
        literals[i] = invert(chain_end(target, end, next)) as u16;
        end = next;
    }
    end
}
