// Quiet hours on the board (document 02, "silent hours"): a table stepped with output 0 in a quiet minute, while the state advances.
#![tactic(auto)]

pub mod windows;

ghost use Rattle.std.specs.Prelude.{◌≡◌};
ghost use Rattle.steps.specs.Steps.{step_figures, position_of};
ghost use Rattle.quiet.specs.Quiet.{quiet_stepped};
ghost use Rattle.quiet.specs.Theorems.{QuietSteps, AfterSilence, QuietAccepts};

use positions::Position;
use steps::{Halted, Moved, Stepped, move_on};
use table::head::check_head;
use windows::{check_time, is_quiet};

// The minutes of a week, and the most windows.
#[derive(Drop)]
pub struct Limits;

impl Limits {
    pub const MINUTES: u16 = 10080;

    pub const WINDOWS: usize = 32;
}

// One step in a minute of the week, by value: the head, then windows and minute, then the move are judged.
#[tactic(auto, using(crate::proofs::Timed::quiet_steps, crate::proofs::Timed::after_silence, crate::proofs::Timed::quiet_accepts))]
pub fn step(table: &[u8], windows: &[u16], minute: u16, position: Position, word: u16) -> Stepped
    ensures answer { step_figures result ≡ quiet_stepped table.now windows.now minute position.layer position.state word }
    ensures steps { QuietSteps table.now windows.now }
    ensures silence { AfterSilence table.now windows.now }
    ensures accepts { QuietAccepts table.now windows.now }
{
    if let Err(refusal) = check_head(table) {
        return Err(Halted { refusal, position });
    }
    if let Err(refusal) = check_time(windows, minute) {
        return Err(Halted { refusal, position });
    }
    let moved = move_on(table, position, word)?;
    if is_quiet(windows, minute) {
        return Ok(Moved { output: 0, ..moved });
    }
    Ok(moved)
}

// The board holds one position, and each impulse moves it on: the position is lent, stepped by value, and stored. A refusal leaves it as it
// was.
pub fn advance(
    table: &[u8],
    windows: &[u16],
    minute: u16,
    position: &mut Position,
    word: u16,
) -> Stepped
    ensures answer { step_figures result ≡ quiet_stepped table.now windows.now minute position.old.layer position.old.state word }
    ensures position { position.new ≡ position_of (quiet_stepped table.now windows.now minute position.old.layer position.old.state word) }
    ensures steps { QuietSteps table.now windows.now }
    ensures silence { AfterSilence table.now windows.now }
    ensures accepts { QuietAccepts table.now windows.now }
{
    let moved = step(table, windows, minute, *position, word)?;
    *position = moved.position;
    Ok(moved)
}
