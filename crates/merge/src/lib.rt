// One machine for all frames of a table (document 02, Point 13): of the fewest states, one to three, that match it, the first in dictionary order.
#![tactic(auto)]

ghost use Rattle.std.specs.Prelude.{◌≡◌, ◌+◌, ◌*◌, ◌≤◌, ◌<◌, length};
ghost use Rattle.words.specs.Words.{stored};
ghost use Rattle.verdict.specs.Judgements.{figures};
ghost use Rattle.sizes.specs.Sizes.{inputs as inputs_of};
ghost use Rattle.table.specs.Sound.{TableHeaded, Sound, layout_of};
ghost use Rattle.merge.specs.Merge.{most_merged_inputs, narrow_checked, merge_checked, merge_result};
ghost use Rattle.merge.specs.Theorems.{Merges, MergesAlike};
ghost use Rattle.merge.specs.Found.{StartsOf, FewestOf, found_words};

use refute::{digits, search};
use sizes::Sizes;
use table::head::states_of;
use table::{Layout, check};
use trial::Sought;
use verdict::{Refusal, Verdict};
use words::{store, store_all};

// The largest n of a table that is merged, the most states that are tried, and the bytes before the arrays of a machine.
#[derive(Drop)]
pub struct Limits;

impl Limits {
    pub const INPUTS: usize = 2;

    pub const STATES: usize = 3;

    pub const HEAD: usize = 6;
}

// The fewest states of which some machine matches, and the outputs and next states of the first.
#[derive(Clone, Copy)]
struct Fewest {
    states: usize,
    outs: [u16; trial::Limits::ENTRIES],
    nexts: [u16; trial::Limits::ENTRIES],
}

// Numbers 1 and 2 in front of the table's checks: a table that has the sizes has an n of at most 2.
#[tactic(auto, unfolding(crate::specs::Merge::narrow_checked))]
fn check_narrow(table: &[u8]) -> Verdict
    ensures { figures result ≡ narrow_checked table.now }
{
    let length = table.len();
    if length < table::Limits::SIZES {
        return Err(Refusal::Length(length));
    }
    if Limits::INPUTS < Sizes::read(table).inputs {
        return Err(Refusal::Size(0));
    }
    Ok(0)
}

// Where the outputs of each layer begin.
fn layer_starts(table: &[u8], layout: Layout) -> [usize; sizes::Limits::FRAMES]
    requires { TableHeaded table.now × (layout ≡ layout_of table.now) }
    ensures starts { StartsOf table.now result }
{
    let mut starts: [usize; sizes::Limits::FRAMES] = [0; sizes::Limits::FRAMES];
    let last = layout.frames;
    let mut start = layout.outputs;
    for t in 0..last {
        starts[t] = start;
        start += 2 * (states_of(table, t) * layout.words);
    }
    starts
}

// The first machine of the fewest states that matches.
fn fewest_states(table: &[u8], layout: Layout, inputs: usize, starts: &[usize]) -> Option<Fewest>
    requires sound { Sound table.now × (layout ≡ layout_of table.now) }
    requires inputs_value { (inputs ≡ inputs_of table.now) × (inputs ≤ most_merged_inputs) × StartsOf table.now starts.now }
    ensures { FewestOf table.now result }
{
    for k in 0..Limits::STATES {
        let states = k + 1;
        let entries = states * layout.words;
        let sought = Sought {
            inputs,
            words: layout.words,
            frames: layout.frames,
            gap: layout.nexts - layout.outputs,
            states,
            entries,
        };
        if let Some(found) = search(sought, table, starts) {
            let outs = found.ones;
            let nexts = digits(states, entries, found.number);
            return Some(Fewest {
                states,
                outs,
                nexts,
            });
        }
    }
    None
}

// Writes n, m, the state count, all outputs and all next states.
fn write_machine(sizes: Sizes, fewest: Fewest, entries: usize, res: &mut [u8])
    requires inputs_bound { (sizes.inputs < 65536) × (sizes.outputs < 65536) × (fewest.states < 65536) }
    requires outs_len { (length fewest.outs ≡ 12) × (length fewest.nexts ≡ 12) × (entries ≤ 12) × (6 + 4 * entries ≤ length res.old) }
    ensures { res.new ≡ stored 2 res.old 0 (found_words sizes fewest entries) }
{
    store(res, 0, sizes.inputs as u16);
    store(res, 2, sizes.outputs as u16);
    store(res, 4, fewest.states as u16);
    let outs = fewest.outs;
    let nexts = fewest.nexts;
    store_all(&outs[..entries], res, Limits::HEAD);
    store_all(&nexts[..entries], res, Limits::HEAD + 2 * entries);
}

// One machine for all frames that matches a table in connected outputs, of the fewest states; of these the first by its next states, then its outputs.
pub fn merge(table: &[u8], res: &mut [u8]) -> Verdict
    ensures verdict { figures result ≡ merge_checked table.now (length res.old) }
    ensures res { res.new ≡ merge_result table.now res.old }
    ensures merges { Merges table.now (length res.old) }
    ensures alike { MergesAlike table.now }
{
    check_narrow(table)?;
    check(table)?;
    let layout = Layout::read(table);
    let sizes = Sizes::read(table);
    let starts = layer_starts(table, layout);
    let Some(fewest) = fewest_states(table, layout, sizes.inputs, &starts) else {
        return Err(Refusal::Unmatched(0));
    };
    let entries = fewest.states * layout.words;
    let bytes = Limits::HEAD + 4 * entries;
    if res.len() < bytes {
        return Err(Refusal::Room(bytes));
    }
    write_machine(sizes, fewest, entries, res);
    Ok(bytes)
}
