// How many gates a table needs, counted before any is drawn.
#![tactic(auto)]

ghost use Rattle.std.specs.Prelude.{◌≡◌, cond, suc, ◌*◌, ◌/◌, ◌≤◌, ◌<◌, ltb, length};
ghost use Rattle.words.specs.Words.{word_at};
ghost use Rattle.sizes.specs.Limits.{most_outputs};
ghost use Rattle.sizes.specs.Sizes.{frames};
ghost use Rattle.sizes.specs.Sized.{sizes_of};
ghost use Rattle.circuit.specs.Lists.{bit};
ghost use Rattle.layered.specs.Search.{tally, total};
ghost use Rattle.table.specs.Sound.{TableHeaded, Sound, layout_of};
ghost use Rattle.unfolded.specs.Unfolded.{gates_needed};
ghost use Rattle.unfolded.specs.Counted.{frame_needs};

use circuit::is_set;
use sizes::Sizes;
use table::Layout;
use table::head::{entries_below, states_of};
use words::read;

// How many of the lowest `count` bits of a word are 1.
fn ones_of(word: usize, count: usize) -> usize
    requires { count ≤ most_outputs }
    ensures { (result ≡ tally count (bit word)) × (result ≤ most_outputs) }
{
    let mut ones = 0;
    for j in 0..count {
        if is_set(word, j) {
            ones += 1;
        }
    }
    ones
}

// How many they are in all words of a part.
fn ones_in(part: &[u8], count: usize) -> usize
    requires { (count ≤ most_outputs) × (length part.now ≤ 33554432) }
    ensures { (result ≡ total (length part.now / 2) (λ e. tally count (bit (word_at part.now (2 * e))))) × (result ≤ 268435456) }
{
    let entries = part.len() / 2;
    let mut ones = 0;
    for e in 0..entries {
        ones += ones_of(read(part, 2 * e), count);
    }
    ones
}

// How many of the edges of the frame from layer t are gathered into next states: all, but none in the last frame.
fn gathered(edges: usize, t: usize, frames: usize) -> usize
    requires { t < frames }
    ensures { result ≡ cond (ltb (suc t) frames) edges 0 }
{
    if t + 1 < frames { edges } else { 0 }
}

// How many gates the frame from layer t needs.
fn frame_needs(table: &[u8], layout: Layout, sizes: Sizes, t: usize) -> usize
    requires table_headed { TableHeaded table.now }
    requires layout_value { (layout ≡ layout_of table.now) × (sizes ≡ sizes_of table.now) × (t < frames table.now) }
    ensures { (result ≡ frame_needs table.now t) × (result ≤ 536870912) }
{
    let edges = states_of(table, t) * layout.words;
    let from = layout.outputs + 2 * entries_below(table, layout.words, t);
    let to = from + 2 * edges;
    let ones = ones_in(&table[from..to], sizes.outputs);
    let entering = gathered(edges, t, layout.frames);
    layout.words * sizes.inputs + (edges + (entering + ones))
}

// How many gates a table needs, the output gates included.
pub fn gates_needed(table: &[u8], layout: Layout, sizes: Sizes) -> usize
    requires sound { Sound table.now }
    requires layout_value { (layout ≡ layout_of table.now) × (sizes ≡ sizes_of table.now) }
    ensures { (result ≡ gates_needed table.now) × (result ≤ 17179869184) }
{
    let frames = layout.frames;
    let mut gates = sizes.outputs * frames;
    for t in 0..frames {
        gates += frame_needs(table, layout, sizes, t);
    }
    gates
}
