// The head of a table: the sizes, the counts of states and the connected outputs, their judgement, and where the arrays stand.
ghost use Rattle.std.specs.Prelude.{◌≡◌, ◌||◌, cond, ◌+◌, ◌*◌, ◌^◌, ◌≤◌, ◌<◌, eqb, length};
ghost use Rattle.verdict.specs.Judgements.{figures};
ghost use Rattle.sizes.specs.Sizes.{inputs, frames};
ghost use Rattle.sizes.specs.Limits.{most_outputs, most_frames};
ghost use Rattle.sizes.specs.Sized.{sizes_of};
ghost use Rattle.table.specs.Limits.{end_states, most_states};
ghost use Rattle.table.specs.Table.{states, connected_at, connected, head_length, states_below, entries_below, counts_checked, connected_checked, head_checked};
ghost use Rattle.table.specs.Sound.{TableHeaded, layout_of};

use super::{Layout, Limits};
use sizes::{Sizes, is_outside, power};
use verdict::{Refusal, Verdict};
use words::read;

// Where, in a table of so many frames, the connected outputs of the frame from layer t stand.
pub fn connected_at(frames: usize, t: usize) -> usize
    requires { (frames ≤ most_frames) × (t ≤ frames) }
    ensures { result ≡ connected_at frames t }
{
    Limits::SIZES + 2 * (frames + 1 + t)
}

// The length of the head of a table of so many frames.
pub fn head_length(frames: usize) -> usize
    requires { frames ≤ most_frames }
    ensures { result ≡ head_length frames }
{
    connected_at(frames, frames)
}

// The connected outputs of the frame from layer t.
pub fn connected_of(table: &[u8], last: usize, t: usize) -> usize
    requires last_value { (last ≡ frames table.now) × (last ≤ most_frames) × (t < last) }
    requires last_in_bounds { head_length last ≤ length table.now }
    ensures { (result ≡ connected table.now t) × (result < 65536) }
{
    read(table, connected_at(last, t))
}

// How many states layer t has.
pub fn states_of(table: &[u8], t: usize) -> usize
    requires { 7 + 2 * t < length table.now }
    ensures { (result ≡ states table.now t) × (result < 65536) }
{
    read(table, Limits::SIZES + 2 * t)
}

// How many states layer t can have.
fn most_states(t: usize, frames: usize) -> usize
    ensures { result ≡ cond (eqb t 0 || eqb t frames) end_states most_states }
{
    if t == 0 || t == frames {
        Limits::ENDS
    } else {
        Limits::STATES
    }
}

// Number 2, of the counts.
fn check_counts(table: &[u8], last: usize) -> Verdict
    requires last_value { last ≡ frames table.now }
    requires last_in_bounds { 7 + 2 * last < length table.now }
    ensures { figures result ≡ counts_checked table.now }
{
    let count = last + 1;
    for t in 0..count {
        if is_outside(1, most_states(t, last), states_of(table, t)) {
            return Err(Refusal::Size(Limits::SIZES + 2 * t));
        }
    }
    Ok(0)
}

// Number 2, of the connected outputs.
fn check_connected(table: &[u8], sizes: Sizes) -> Verdict
    requires sizes_value { sizes ≡ sizes_of table.now }
    requires outputs_le_most_outputs { (sizes.outputs ≤ most_outputs) × (sizes.frames ≤ most_frames) }
    requires frames_in_bounds { head_length sizes.frames ≤ length table.now }
    ensures { figures result ≡ connected_checked table.now }
{
    let last = sizes.frames;
    let limit = power(sizes.outputs);
    for t in 0..last {
        if limit <= connected_of(table, last, t) {
            return Err(Refusal::Size(connected_at(last, t)));
        }
    }
    Ok(0)
}

// How many states the layers below `layer` have.
pub fn states_below(table: &[u8], layer: usize) -> usize
    requires { (layer ≤ most_frames + 1) × (6 + 2 * layer ≤ length table.now) }
    ensures { (result ≡ states_below table.now layer) × (result ≤ 65536 * layer) }
{
    let mut states = 0;
    for t in 0..layer {
        states += states_of(table, t);
    }
    states
}

// How many entries they have, where each state has one for each of `words`.
pub fn entries_below(table: &[u8], words: usize, layer: usize) -> usize
    requires words_value { (words ≡ 2 ^ inputs table.now) × (words ≤ 256) }
    requires layer_le_most_frames { (layer ≤ most_frames) × (6 + 2 * layer ≤ length table.now) }
    ensures { (result ≡ entries_below table.now layer) × (result ≤ 268435456) }
{
    states_below(table, layer) * words
}

// All that is judged before number 5: 1 (six bytes), 2 (n, m, T), 1 (head), 2 (counts), 2 (connected outputs), 1 (length).
#[tactic(auto, unfolding(crate::specs::Table::head_checked))]
pub fn check_head(table: &[u8]) -> Verdict
    ensures { figures result ≡ head_checked table.now }
{
    let length = table.len();
    if length < Limits::SIZES {
        return Err(Refusal::Length(length));
    }
    let sizes = Sizes::read(table);
    sizes.check(sizes::Limits::INPUTS)?;
    let head = head_length(sizes.frames);
    if length < head {
        return Err(Refusal::Length(length));
    }
    check_counts(table, sizes.frames)?;
    check_connected(table, sizes)?;
    let entries = entries_below(table, power(sizes.inputs), sizes.frames);
    if length != head + 4 * entries {
        return Err(Refusal::Length(length));
    }
    Ok(0)
}

impl Layout {
    pub fn read(table: &[u8]) -> Layout
        requires { TableHeaded table.now }
        ensures { result ≡ layout_of table.now }
    {
        let sizes = Sizes::read(table);
        let words = power(sizes.inputs);
        let outputs = head_length(sizes.frames);
        let entries = entries_below(table, words, sizes.frames);
        Layout {
            words,
            frames: sizes.frames,
            outputs,
            nexts: outputs + 2 * entries,
        }
    }
}
