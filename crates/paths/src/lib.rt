// The histories that lead to each state of a table: how many they are, and the smallest of them. They are followed forward, entry by entry, in
// a result that holds the numbers of those so far.
#![tactic(auto)]

ghost use Rattle.std.specs.Prelude.{◌≡◌, suc, ◌+◌, ◌*◌, ◌^◌, ◌≤◌, ◌<◌, length};
ghost use Rattle.words.specs.Words.{number_at, stored};
ghost use Rattle.sizes.specs.Limits.{most_frames};
ghost use Rattle.sizes.specs.Sizes.{inputs, frames};
ghost use Rattle.table.specs.Table.{states, machine};
ghost use Rattle.table.specs.Sound.{TableHeaded, layout_of};
ghost use Rattle.paths.specs.Paths.{histories, smallest as smallest_to};
ghost use Rattle.paths.specs.Places.{reach_head};
ghost use Rattle.paths.specs.Progress.{so_far, smaller, added, Following, layer_of};

use table::Layout;
use table::head::{entries_below, states_below, states_of};
use words::{read, read32, store32};

// The bytes of a number of the result's arrays.
#[derive(Drop)]
pub struct Limits;

impl Limits {
    pub const NUMBER: usize = 4;
}

// What the entries of a layer are followed with: its number, 2^n, the byte offset of its next states in the table, those of the counts of its
// own states and of the next layer's in the result, and how far behind a state's count its smallest history stands.
#[derive(Clone, Copy)]
struct Layer {
    layer: usize,
    words: usize,
    nexts: usize,
    from: usize,
    to: usize,
    gap: usize,
}

impl Layer {
    fn read(table: &[u8], layout: Layout, t: usize) -> Layer
        requires table_headed { TableHeaded table.now }
        requires layout_value { (layout ≡ layout_of table.now) × (t < frames table.now) }
        ensures { result ≡ layer_of table.now t }
    {
        let entries = entries_below(table, layout.words, t);
        let below = states_below(table, t);
        let states = states_of(table, t);
        let all = states_below(table, layout.frames + 1);
        let from = head_bytes(layout.frames) + Limits::NUMBER * below;
        Layer {
            layer: t,
            words: layout.words,
            nexts: layout.nexts + 2 * entries,
            from,
            to: from + Limits::NUMBER * states,
            gap: Limits::NUMBER * all,
        }
    }
}

// The bytes of T and the counts of layers 0 to T.
pub fn head_bytes(frames: usize) -> usize
    requires { frames ≤ most_frames }
    ensures { result ≡ 4 + 2 * frames }
{
    2 + 2 * (frames + 1)
}

// The smaller of two histories: the smallest of those known, of which there are `count`, and another.
#[tactic(auto, unfolding(crate::specs::Progress::smaller))]
fn smaller(count: usize, known: usize, other: usize) -> usize
    ensures { result ≡ smaller count known other }
{
    if count == 0 { other } else { known.min(other) }
}

// To the histories of a state, whose count stands at byte offset `at`, come `count` more, the smallest of which is `smallest`.
fn add_histories(at: usize, gap: usize, count: usize, smallest: usize, res: &mut [u8])
    requires le_gap { (4 ≤ gap) × (at + gap + 3 < length res.old) }
    requires count_bound { (number_at 4 res.old at + count < 2 ^ 32) × (smallest < 2 ^ 32) }
    ensures { res.new ≡ added res.old at gap count smallest }
{
    let before = read32(res, at);
    let least = smaller(before, read32(res, at + gap), smallest);
    store32(res, at + gap, least as u32);
    store32(res, at, (before + count) as u32);
}

// The entries of a state that histories lead to: each of them, with a word behind it, leads to the next state for that word.
fn follow_words(table: &[u8], layer: Layer, s: usize, count: usize, smallest: usize, res: &mut [u8])
    requires layer_bound { (layer.layer < frames table.now) × (layer ≡ layer_of table.now layer.layer) × (s < states table.now layer.layer) }
    requires following { Following table.now res.old layer.layer (s * 2 ^ inputs table.now) }
    requires count_nonzero { (0 < count) × (count ≡ histories (2 ^ inputs table.now) (machine table.now) layer.layer s) × (smallest ≡ smallest_to (2 ^ inputs table.now) (machine table.now) layer.layer s) }
    ensures { res.new ≡ stored 4 res.old (reach_head table.now) (so_far table.now layer.layer (suc s * 2 ^ inputs table.now)) }
{
    let words = layer.words;
    let nexts = layer.nexts + 2 * (s * words);
    let first = smallest * words;
    for w in 0..words {
        let next = read(table, nexts + 2 * w);
        add_histories(
            layer.to + Limits::NUMBER * next,
            layer.gap,
            count,
            first + w,
            res,
        );
    }
}

// The entries of a state. One that no history leads to adds nothing.
fn follow_state(table: &[u8], layer: Layer, s: usize, res: &mut [u8])
    requires layer_bound { (layer.layer < frames table.now) × (layer ≡ layer_of table.now layer.layer) × (s < states table.now layer.layer) }
    requires following { Following table.now res.old layer.layer (s * 2 ^ inputs table.now) }
    ensures { res.new ≡ stored 4 res.old (reach_head table.now) (so_far table.now layer.layer (suc s * 2 ^ inputs table.now)) }
{
    let at = layer.from + Limits::NUMBER * s;
    let count = read32(res, at);
    if count == 0 {
        return;
    }
    let smallest = read32(res, at + layer.gap);
    follow_words(table, layer, s, count, smallest, res);
}

// All entries of a layer, state by state.
fn follow_layer(table: &[u8], layer: Layer, res: &mut [u8])
    requires layer_bound { (layer.layer < frames table.now) × (layer ≡ layer_of table.now layer.layer) }
    requires following { Following table.now res.old layer.layer 0 }
    ensures { res.new ≡ stored 4 res.old (reach_head table.now) (so_far table.now (suc layer.layer) 0) }
{
    let states = states_of(table, layer.layer);
    for s in 0..states {
        follow_state(table, layer, s, res);
    }
}

// All layers, one after the other.
pub fn follow_layers(table: &[u8], layout: Layout, res: &mut [u8])
    requires layout_value { layout ≡ layout_of table.now }
    requires following { Following table.now res.old 0 0 }
    ensures { res.new ≡ stored 4 res.old (reach_head table.now) (so_far table.now (frames table.now) 0) }
{
    let frames = layout.frames;
    for t in 0..frames {
        let layer = Layer::read(table, layout, t);
        follow_layer(table, layer, res);
    }
}
