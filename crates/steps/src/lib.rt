// Tables stepped, one entry at a time.
#![tactic(auto)]

ghost use Rattle.std.specs.Prelude.{◌≡◌, ◌^◌, ◌<◌};
ghost use Rattle.verdict.specs.Judgements.{figures, answer};
ghost use Rattle.sizes.specs.Sizes.{inputs, frames};
ghost use Rattle.table.specs.Table.{states};
ghost use Rattle.table.specs.Sound.{TableHeaded, layout_of};
ghost use Rattle.steps.specs.Steps.{entry_checked, move_checked, step_after, stepped, position_of, step_figures};
ghost use Rattle.steps.specs.Theorems.{StepReaches, StepsFeed};

use positions::{Position, check_position};
use table::Layout;
use table::entries::is_stray;
use table::head::{check_head, connected_of, entries_below, states_of};
use verdict::{Figures, Refusal};
use words::read;

// A step that was made: the output, and the position moved to.
#[derive(Clone, Copy)]
pub struct Moved {
    pub output: u16,
    pub position: Position,
}

// A step that was refused: why, and the position that it was given, which it hands back.
#[derive(Clone, Copy)]
pub struct Halted {
    pub refusal: Refusal,
    pub position: Position,
}

// What a step answers.
pub type Stepped = Result<Moved, Halted>;

impl From<Halted> for Refusal {
    ghost from_gives = { λ halted refusal. refusal ≡ halted.refusal };

    fn from(halted: Halted) -> Refusal {
        halted.refusal
    }
}

// Document 01's number and place, and the further values that a step returns.
#[derive(Clone, Copy)]
pub struct StepFigures {
    pub number: usize,
    pub place: usize,
    pub output: usize,
    pub layer: usize,
    pub state: usize,
}

impl From<Stepped> for StepFigures {
    ghost from_gives = { λ step figures. figures ≡ step_figures step };

    fn from(step: Stepped) -> StepFigures {
        match step {
            Ok(moved) => StepFigures {
                number: 0,
                place: 0,
                output: moved.output as usize,
                layer: moved.position.layer,
                state: moved.position.state,
            },
            Err(halted) => {
                let Figures { number, place } = Figures::from(halted.refusal);
                StepFigures {
                    number,
                    place,
                    output: 0,
                    layer: halted.position.layer,
                    state: halted.position.state,
                }
            }
        }
    }
}

// A step by the one entry of a position and a word, and number 5 of that entry, output before next state.
fn read_entry(table: &[u8], layout: Layout, position: Position, word: usize) -> Stepped
    requires table_headed { TableHeaded table.now }
    requires layout_value { layout ≡ layout_of table.now }
    requires layer_bound { (position.layer < frames table.now) × (position.state < states table.now position.layer) × (word < 2 ^ inputs table.now) }
    ensures { step_figures result ≡ step_after (entry_checked table.now position.layer position.state word) table.now position.layer position.state word }
{
    let layer = position.layer;
    let below = entries_below(table, layout.words, layer);
    let offset = 2 * (below + (position.state * layout.words + word));
    let output_at = layout.outputs + offset;
    let output = read(table, output_at);
    if is_stray(connected_of(table, layout.frames, layer), output) {
        let refusal = Refusal::Entry(output_at);
        return Err(Halted { refusal, position });
    }
    let next_at = layout.nexts + offset;
    let next = read(table, next_at);
    let moved = Position {
        layer: layer + 1,
        state: next,
    };
    if states_of(table, moved.layer) <= next {
        let refusal = Refusal::Entry(next_at);
        return Err(Halted { refusal, position });
    }
    Ok(Moved {
        output: output as u16,
        position: moved,
    })
}

// The move of a step, in a table whose head is accepted: the position and the word, then the entry are judged.
pub fn move_on(table: &[u8], position: Position, word: u16) -> Stepped
    requires { TableHeaded table.now }
    ensures { step_figures result ≡ step_after (move_checked table.now position.layer position.state word) table.now position.layer position.state word }
{
    let layout = Layout::read(table);
    if let Err(refusal) = check_position(table, layout, position, word as usize) {
        return Err(Halted { refusal, position });
    }
    read_entry(table, layout, position, word as usize)
}

// One step: the head, then the move are judged.
#[tactic(auto, using(crate::proofs::Steps::step_reaches, crate::proofs::Steps::steps_feed))]
pub fn step(table: &[u8], position: Position, word: u16) -> Stepped
    ensures answer { step_figures result ≡ stepped table.now position.layer position.state word }
    ensures reaches { StepReaches table.now }
    ensures feeds { StepsFeed table.now }
{
    if let Err(refusal) = check_head(table) {
        return Err(Halted { refusal, position });
    }
    move_on(table, position, word)
}
