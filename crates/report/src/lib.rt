// The lines that the folding program prints, made in a buffer.
#![tactic(auto)]

ghost use Rattle.std.specs.Prelude.{◌+◌, ◌*◌, ◌≤◌, length};
ghost use Rattle.sizes.specs.Sizes.{frames};
ghost use Rattle.table.specs.Sound.{TableHeaded};
ghost use Rattle.report.specs.Report.{decimal, field, pair_line, layer_lines, total_line, table_lines, refusal_line, line_room, lines_room, Appended};

use sizes::Sizes;
use table::head::{states_below, states_of};

// The length of a buffer into which the lines of every table and of every refusal fit.
#[derive(Drop)]
pub struct Limits;

impl Limits {
    pub const ROOM: usize = 256;
}

// Stores a text from index `at` on. Like the others below it answers the index behind what it stored. Not `write!`: that answers a Result at each text, and
// none of these can fail.
fn append(out: &mut [u8], at: usize, text: &[u8]) -> usize
    requires { at + length text.now ≤ length out.old }
    ensures { Appended out.old at text.now out.new result }
{
    let end = at + text.len();
    out[at..end].copy_from_slice(text);
    end
}

// A number in decimal: all digits but the last are those of its tenth part.
fn append_number(out: &mut [u8], at: usize, number: usize) -> usize
    requires { at + length (decimal number) ≤ length out.old }
    ensures { Appended out.old at (decimal number) out.new result }
{
    let last = if number < 10 {
        at
    } else {
        append_number(out, at, number / 10)
    };
    out[last] = b'0' + (number % 10) as u8;
    last + 1
}

// A number and the byte that ends it.
fn append_field(out: &mut [u8], at: usize, number: usize, mark: u8) -> usize
    requires { at + length (field number mark) ≤ length out.old }
    ensures { Appended out.old at (field number mark) out.new result }
{
    let end = append_number(out, at, number);
    out[end] = mark;
    end + 1
}

// A line of two numbers.
fn append_pair(out: &mut [u8], at: usize, first: usize, second: usize) -> usize
    requires { at + length (pair_line first second) ≤ length out.old }
    ensures { Appended out.old at (pair_line first second) out.new result }
{
    let end = append_field(out, at, first, b' ');
    append_field(out, end, second, b'\n')
}

// The lines of the first `count` layers.
fn append_layers(out: &mut [u8], at: usize, table: &[u8], count: usize) -> usize
    requires table_headed { TableHeaded table.now × (count ≤ frames table.now + 1) }
    requires count_in_bounds { at + line_room * count ≤ length out.old }
    ensures appended { Appended out.old at (layer_lines table.now count) out.new result }
    ensures upper_bound { result ≤ at + line_room * count }
{
    let mut end = at;
    for t in 0..count {
        end = append_pair(out, end, t, states_of(table, t));
    }
    end
}

// The last line of a table.
fn append_total(out: &mut [u8], at: usize, total: usize) -> usize
    requires { at + length (total_line total) ≤ length out.old }
    ensures { Appended out.old at (total_line total) out.new result }
{
    let end = append(out, at, b"total ");
    append_field(out, end, total, b'\n')
}

// Puts the lines of a table at the start of `out`.
pub fn append_table(out: &mut [u8], table: &[u8]) -> usize
    requires lines_room_in_bounds { lines_room ≤ length out.old }
    requires table_headed { TableHeaded table.now }
    ensures { Appended out.old 0 (table_lines table.now) out.new result }
{
    let count = Sizes::read(table).frames + 1;
    let mut end = append(out, 0, b"layer states\n");
    end = append_layers(out, end, table, count);
    append_total(out, end, states_below(table, count))
}

// Puts the line of a refusal at the start of `out`.
pub fn append_refusal(out: &mut [u8], number: usize, place: usize) -> usize
    requires { lines_room ≤ length out.old }
    ensures { Appended out.old 0 (refusal_line number place) out.new result }
{
    let end = append(out, 0, b"refused ");
    append_pair(out, end, number, place)
}
