// The arrays of a table: number 5 of all entries.
ghost use Rattle.std.specs.Prelude.{◌≡◌, ◌+◌, ◌^◌, ◌<◌, length};
ghost use Rattle.verdict.specs.Judgements.{figures};
ghost use Rattle.sizes.specs.Sizes.{frames};
ghost use Rattle.table.specs.Table.{strays, part_checked, array_checked};
ghost use Rattle.table.specs.Sound.{TableHeaded, bad_by, bound_of, array_at, bad_entry, layout_of};

use super::Layout;
use super::head::{connected_of, states_of};
use verdict::{Refusal, Verdict};
use words::read;

// Whether an output has a bit that is not among the connected ones.
pub fn is_stray(connected: usize, output: usize) -> bool
    ensures { result ≡ strays connected output }
{
    output & connected != output
}

// The two arrays.
#[derive(Clone, Copy)]
pub enum Array {
    Outputs,
    Nexts,
}

// What the entries of a layer are judged by: outputs by the connected ones, next states by the count of the next layer.
#[derive(Clone, Copy)]
enum Bound {
    Connected(usize),
    Count(usize),
}

impl Bound {
    // That of layer t.
    fn of(table: &[u8], layout: Layout, array: Array, t: usize) -> Bound
        requires table_headed { TableHeaded table.now }
        requires layout_value { layout ≡ layout_of table.now }
        requires t_bound { t < frames table.now }
        ensures { result ≡ bound_of table.now array t }
    {
        match array {
            Array::Outputs => Bound::Connected(connected_of(table, layout.frames, t)),
            Array::Nexts => Bound::Count(states_of(table, t + 1)),
        }
    }

    // Whether a word is bad by it.
    fn excludes(self, word: usize) -> bool
        ensures { result ≡ bad_by self word }
    {
        match self {
            Bound::Connected(connected) => is_stray(connected, word),
            Bound::Count(count) => count <= word,
        }
    }
}

// Number 5, of a part of an array that stands at byte offset `at`: its first bad word.
fn check_part(part: &[u8], bound: Bound, at: usize) -> Verdict
    requires { at + length part.now < 2 ^ 64 }
    ensures { figures result ≡ part_checked (bad_by bound) at part.now }
{
    let count = part.len() / 2;
    for i in 0..count {
        if bound.excludes(read(part, 2 * i)) {
            return Err(Refusal::Entry(at + 2 * i));
        }
    }
    Ok(0)
}

// Number 5, of one of the two arrays: the entries of a layer are one part.
pub fn check_array(table: &[u8], layout: Layout, array: Array) -> Verdict
    requires table_headed { TableHeaded table.now }
    requires layout_value { layout ≡ layout_of table.now }
    ensures { figures result ≡ array_checked table.now (array_at table.now array) (bad_entry table.now array) }
{
    let last = layout.frames;
    let mut start = match array {
        Array::Outputs => layout.outputs,
        Array::Nexts => layout.nexts,
    };
    for t in 0..last {
        let end = start + 2 * (states_of(table, t) * layout.words);
        check_part(
            &table[start..end],
            Bound::of(table, layout, array, t),
            start,
        )?;
        start = end;
    }
    Ok(0)
}
