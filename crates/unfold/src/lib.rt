// Unfolds a table into a circuit that gives its outputs.
#![tactic(auto)]

ghost use Rattle.std.specs.Prelude.{◌≡◌, ◌*◌, ◌+◌, ◌≤◌, length};
ghost use Rattle.words.specs.Words.{stored};
ghost use Rattle.verdict.specs.Judgements.{figures};
ghost use Rattle.sizes.specs.Sizes.{inputs, outputs, frames};
ghost use Rattle.sizes.specs.Sized.{sizes_of};
ghost use Rattle.circuit.specs.Limits.{circuit_head, most_gates};
ghost use Rattle.table.specs.Sound.{Sound, layout_of};
ghost use Rattle.circuit.specs.Circuit.{circuit_words};
ghost use Rattle.unfolded.specs.Unfolded.{drawn, gates_needed, drawn_checked, unfold_checked, unfold_result};
ghost use Rattle.unfold.specs.Unfold.{Promised};

use chains::Target;
use circuit::Limits;
use counting::gates_needed;
use draw::draw;
use sizes::Sizes;
use table::{Layout, check};
use verdict::{Refusal, Verdict};
use words::store_all;

// Writes the circuit to the front of the result: its head, then its gates.
fn write_circuit(table: &[u8], layout: Layout, sizes: Sizes, gates: usize, res: &mut [u8])
    requires sound { Sound table.now }
    requires layout_value { (layout ≡ layout_of table.now) × (sizes ≡ sizes_of table.now) × (gates ≡ gates_needed table.now) }
    requires gates_le_most_gates { (gates ≤ most_gates) × (circuit_head + 4 * gates ≤ length res.old) }
    ensures { res.new ≡ stored 2 res.old 0 (circuit_words (inputs table.now) (outputs table.now) (frames table.now) (drawn table.now)) }
{
    let head = [
        sizes.inputs as u16,
        sizes.outputs as u16,
        sizes.frames as u16,
        gates as u16,
    ];
    store_all(&head, res, 0);
    let target = Target {
        inputs: sizes.inputs,
        words: layout.words,
        outputs: sizes.outputs,
        base: 1 + sizes.inputs * sizes.frames,
        gates,
    };
    draw(table, layout, target, res);
}

// Numbers 8 and 7, of a circuit of so many gates and a result with room for so many bytes.
#[tactic(auto, unfolding(unfolded::specs::Unfolded::drawn_checked))]
fn check_drawn(gates: usize, room: usize) -> Verdict
    requires { gates ≤ 17179869184 }
    ensures { figures result ≡ drawn_checked gates (circuit_head + 4 * gates) room }
{
    let bytes = Limits::HEAD + 4 * gates;
    if Limits::GATES < gates {
        return Err(Refusal::Gates(gates));
    }
    if room < bytes {
        return Err(Refusal::Room(bytes));
    }
    Ok(bytes)
}

// Unfolds a table.
pub fn unfold(table: &[u8], res: &mut [u8]) -> Verdict
    ensures verdict { figures result ≡ unfold_checked table.now (length res.old) }
    ensures res { res.new ≡ unfold_result table.now res.old }
    ensures promised { Promised table.now (figures result) res.new }
{
    check(table)?;
    let layout = Layout::read(table);
    let sizes = Sizes::read(table);
    let gates = gates_needed(table, layout, sizes);
    let bytes = check_drawn(gates, res.len())?;
    write_circuit(table, layout, sizes, gates, res);
    Ok(bytes)
}
