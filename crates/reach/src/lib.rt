// Reach counts of a table: how many histories lead from the start to each state, and the smallest of them.
#![tactic(auto)]

ghost use Rattle.std.specs.Prelude.{◌≡◌, ◌++◌, ◌+◌, ◌*◌, ◌≤◌, length, drop};
ghost use Rattle.words.specs.Words.{stored};
ghost use Rattle.verdict.specs.Judgements.{figures};
ghost use Rattle.sizes.specs.Sizes.{frames};
ghost use Rattle.table.specs.Sound.{TableHeaded, Sound, layout_of};
ghost use Rattle.paths.specs.Places.{reach_head, all_states};
ghost use Rattle.reach.specs.Reach.{head_words, reach_bytes, reach_checked, reach_result};
ghost use Rattle.reach.specs.Theorems.{Reaches, FoldedReaches};

use paths::{Limits, follow_layers, head_bytes};
use table::head::{states_below, states_of};
use table::{Layout, check};
use verdict::{Refusal, Verdict};
use words::{store, store32};

// Stores T and the counts of layers 0 to T.
fn store_head(table: &[u8], last: usize, res: &mut [u8])
    requires table_headed { TableHeaded table.now }
    requires last_value { (last ≡ frames table.now) × (reach_head table.now ≤ length res.old) }
    ensures { res.new ≡ stored 2 res.old 0 (head_words table.now) }
{
    store(res, 0, last as u16);
    let count = last + 1;
    for t in 0..count {
        store(res, 2 + 2 * t, states_of(table, t) as u16);
    }
}

// Writes the head and the numbers of all states. Before any entry is followed, one history leads to the start, the empty one.
fn write_numbers(table: &[u8], layout: Layout, states: usize, res: &mut [u8])
    requires sound { Sound table.now }
    requires layout_value { (layout ≡ layout_of table.now) × (states ≡ all_states table.now) × (reach_head table.now + 8 * states ≤ length res.old) }
    ensures { res.new ≡ reach_bytes table.now ++ drop (length (reach_bytes table.now)) res.old }
{
    let head = head_bytes(layout.frames);
    store_head(table, layout.frames, res);
    res[head..head + 2 * (Limits::NUMBER * states)].fill(0);
    store32(res, head, 1);
    follow_layers(table, layout, res);
}

// How many histories lead to each state of a table, and the smallest of them.
#[tactic(auto, using(crate::proofs::Theorems::reaches, crate::proofs::Theorems::folded_reaches))]
pub fn reach(table: &[u8], res: &mut [u8]) -> Verdict
    ensures verdict { figures result ≡ reach_checked table.now (length res.old) }
    ensures res { res.new ≡ reach_result table.now res.old }
    ensures reached { Reaches table.now }
    ensures folded { FoldedReaches table.now }
{
    check(table)?;
    let layout = Layout::read(table);
    let states = states_below(table, layout.frames + 1);
    let bytes = head_bytes(layout.frames) + 2 * (Limits::NUMBER * states);
    if res.len() < bytes {
        return Err(Refusal::Room(bytes));
    }
    write_numbers(table, layout, states, res);
    Ok(bytes)
}
