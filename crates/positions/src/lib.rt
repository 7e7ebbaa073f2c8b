// Positions in a table, and their judgement with the word of a step.
#![tactic(auto)]

ghost use Rattle.std.specs.Prelude.{◌≡◌};
ghost use Rattle.verdict.specs.Judgements.{figures};
ghost use Rattle.table.specs.Sound.{TableHeaded, layout_of};
ghost use Rattle.positions.specs.Positions.{place_checked, position_checked};

use table::Layout;
use table::head::states_of;
use verdict::{Refusal, Verdict};

// A position: a layer, and a state of it; in C `tff_position`.
#[repr(C)]
#[derive(Clone, Copy)]
pub struct Position {
    pub layer: usize,
    pub state: usize,
}

impl Position {
    pub fn start() -> Position
        ensures { (result.layer ≡ 0) × (result.state ≡ 0) }
    {
        Position { layer: 0, state: 0 }
    }
}

// Number 11: the table has no such position.
#[tactic(auto, unfolding(crate::specs::Positions::place_checked))]
pub fn check_place(table: &[u8], layout: Layout, position: Position) -> Verdict
    requires table_headed { TableHeaded table.now }
    requires layout_value { layout ≡ layout_of table.now }
    ensures { figures result ≡ place_checked table.now position.layer position.state }
{
    let Position { layer, state } = position;
    if layout.frames < layer || states_of(table, layer) <= state {
        return Err(Refusal::Position(layer));
    }
    Ok(0)
}

// Numbers 11, 10 and 9, of a step.
#[tactic(auto, unfolding(crate::specs::Positions::position_checked))]
pub fn check_position(table: &[u8], layout: Layout, position: Position, word: usize) -> Verdict
    requires table_headed { TableHeaded table.now }
    requires layout_value { layout ≡ layout_of table.now }
    ensures { figures result ≡ position_checked table.now position.layer position.state word }
{
    let last = layout.frames;
    check_place(table, layout, position)?;
    if position.layer == last {
        return Err(Refusal::End(last));
    }
    if layout.words <= word {
        return Err(Refusal::Word(0));
    }
    Ok(0)
}
