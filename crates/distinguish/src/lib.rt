// The words that tell two states of a layer apart (document 02, Point 12): the shortest list after which the outputs differ, and of the shortest the
// first in word order.
#![tactic(auto)]

ghost use Rattle.std.specs.Prelude.{◌≡◌, not, ◌++◌, ◌+◌, ◌-◌, ◌*◌, ◌^◌, ◌≤◌, ◌<◌, eqb, length, drop};
ghost use Rattle.words.specs.Words.{word_at};
ghost use Rattle.verdict.specs.Judgements.{figures};
ghost use Rattle.sizes.specs.Sizes.{inputs, frames};
ghost use Rattle.layered.specs.Search.{least};
ghost use Rattle.layered.specs.Histories.{history_words};
ghost use Rattle.table.specs.Table.{machine};
ghost use Rattle.table.specs.Sound.{TableHeaded, Sound, layout_of};
ghost use Rattle.distinguish.specs.Distinguish.{below, first_list, distinguishing, pair_checked, distinguish_checked, distinguish_result};
ghost use Rattle.distinguish.specs.Theorems.{Distinguishes, FoldedDistinguishes};
ghost use Rattle.distinguish.specs.Pairs.{PairOf};

use positions::{Position, check_place};
use table::head::{entries_below, states_of};
use table::{Layout, check};
use verdict::{Refusal, Verdict, and_then};
use words::read;

// Two states of a layer, and how many entries stand below the layer.
#[derive(Clone, Copy)]
struct Pair {
    layer: usize,
    below: usize,
    first: usize,
    second: usize,
}

// A list of words: how many they are, and its number, which has its first word highest.
#[derive(Clone, Copy)]
struct Sequence {
    length: usize,
    number: usize,
}

// Number 11, of both states.
#[tactic(auto, unfolding(crate::specs::Distinguish::pair_checked))]
fn check_pair(table: &[u8], layout: Layout, layer: usize, first: usize, second: usize) -> Verdict
    requires { TableHeaded table.now × (layout ≡ layout_of table.now) }
    ensures { figures result ≡ pair_checked table.now layer first second }
{
    let placed = check_place(
        table,
        layout,
        Position {
            layer,
            state: first,
        },
    );
    let other = check_place(
        table,
        layout,
        Position {
            layer,
            state: second,
        },
    );
    and_then(placed, other)
}

// Where the entries of a state stand, in the array at `start`, with so many entries below its layer.
fn row(start: usize, below: usize, words: usize, state: usize) -> usize
    requires { start + 2 * (below + state * words) < 2 ^ 64 }
    ensures { result ≡ start + 2 * (below + state * words) }
{
    start + 2 * (below + state * words)
}

// The first word for which two rows of outputs differ, which stand at these byte offsets.
fn first_word(table: &[u8], words: usize, first: usize, second: usize) -> Option<usize>
    requires { (first + 2 * words ≤ length table.now) × (second + 2 * words ≤ length table.now) }
    ensures { result ≡ below words (least words (λ w. not (eqb (word_at table.now (first + 2 * w)) (word_at table.now (second + 2 * w))))) }
{
    for word in 0..words {
        if read(table, first + 2 * word) != read(table, second + 2 * word) {
            return Some(word);
        }
    }
    None
}

// The states that follow two states by the word w.
fn follow(table: &[u8], layout: Layout, pair: Pair, w: usize) -> Pair
    requires sound { Sound table.now × (layout ≡ layout_of table.now) × PairOf table.now pair }
    requires layer_bound { (pair.layer < frames table.now) × (w < 2 ^ inputs table.now) }
    ensures pair { PairOf table.now result }
    ensures layer { result.layer ≡ pair.layer + 1 }
    ensures first { result.first ≡ (machine table.now).next pair.layer pair.first w }
    ensures second { result.second ≡ (machine table.now).next pair.layer pair.second w }
{
    let first = row(layout.nexts, pair.below, layout.words, pair.first);
    let second = row(layout.nexts, pair.below, layout.words, pair.second);
    Pair {
        layer: pair.layer + 1,
        below: pair.below + states_of(table, pair.layer) * layout.words,
        first: read(table, first + 2 * w),
        second: read(table, second + 2 * w),
    }
}

// The first list of so many words that separates two states, by its number. `rest` lists begin with the same word. From equal states nothing
// differs.
fn first_list(table: &[u8], layout: Layout, pair: Pair, count: usize, rest: usize) -> Option<usize>
    requires sound { Sound table.now × (layout ≡ layout_of table.now) × PairOf table.now pair }
    requires le_count { (1 ≤ count) × (pair.layer + count ≤ frames table.now) × (rest ≡ (2 ^ inputs table.now) ^ (count - 1)) }
    ensures { result ≡ below ((2 ^ inputs table.now) ^ count) (first_list (2 ^ inputs table.now) (machine table.now) pair.layer pair.first pair.second count) }
{
    let words = layout.words;
    if pair.first == pair.second {
        return None;
    }
    if count == 1 {
        let first = row(layout.outputs, pair.below, words, pair.first);
        let second = row(layout.outputs, pair.below, words, pair.second);
        return first_word(table, words, first, second);
    }
    let fewer = rest / words;
    for w in 0..words {
        let next = follow(table, layout, pair, w);
        if let Some(number) = first_list(table, layout, next, count - 1, fewer) {
            return Some(w * rest + number);
        }
    }
    None
}

// The shortest list that separates two states, and the first of its length; an empty one where there is none, as the call answers it (`distinguishing`).
fn shortest_list(table: &[u8], layout: Layout, pair: Pair) -> Sequence
    requires { Sound table.now × (layout ≡ layout_of table.now) × PairOf table.now pair }
    ensures words { history_words (2 ^ inputs table.now) result.length result.number ≡ distinguishing table.now pair.layer pair.first pair.second }
    ensures few { result.length ≤ frames table.now - pair.layer }
{
    let words = layout.words;
    let left = layout.frames - pair.layer;
    let mut rest = 1;
    for k in 0..left {
        let length = k + 1;
        if let Some(number) = first_list(table, layout, pair, length, rest) {
            return Sequence { length, number };
        }
        rest *= words;
    }
    Sequence {
        length: 0,
        number: 0,
    }
}

// Stores the words of a list, the last first.
fn store_words(words: usize, list: Sequence, res: &mut [u16])
    requires { (1 ≤ words) × (words ≤ 65536) × (list.length ≤ length res.old) }
    ensures { res.new ≡ history_words words list.length list.number ++ drop list.length res.old }
{
    let mut number = list.number;
    for left in (0..list.length).rev() {
        res[left] = (number % words) as u16;
        number /= words;
    }
}

// The shortest list of words after which the outputs of two states of a layer differ, the first of its length, at the front of the result. The place is
// how many words it has: 0 where every continuation gives both states the same outputs.
#[tactic(auto, using(crate::proofs::Theorems::distinguishes, crate::proofs::Theorems::folded_distinguishes))]
pub fn distinguish(
    table: &[u8],
    layer: usize,
    first: usize,
    second: usize,
    res: &mut [u16],
) -> Verdict
    ensures verdict { figures result ≡ distinguish_checked table.now layer first second (length res.old) }
    ensures res { res.new ≡ distinguish_result table.now layer first second res.old }
    ensures distinguishes { Distinguishes table.now layer first second (length res.old) }
    ensures folded { FoldedDistinguishes table.now layer first second }
{
    check(table)?;
    let layout = Layout::read(table);
    check_pair(table, layout, layer, first, second)?;
    let left = layout.frames - layer;
    if res.len() < left {
        return Err(Refusal::Room(left));
    }
    let pair = Pair {
        layer,
        below: entries_below(table, layout.words, layer),
        first,
        second,
    };
    let list = shortest_list(table, layout, pair);
    store_words(layout.words, list, res);
    Ok(list.length)
}
