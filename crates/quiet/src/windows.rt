// Quiet hours: windows in minutes of the week, as one list of numbers, first and last in turn. Monday midnight is minute 0.
ghost use Rattle.std.specs.Prelude.{◌≡◌, ◌*◌, ◌<◌, length};
ghost use Rattle.verdict.specs.Judgements.{figures};
ghost use Rattle.quiet.specs.Windows.{is_bad, windows_checked, time_checked, holds, is_quiet, HoldsRound};

use super::Limits;
use verdict::{Refusal, Verdict};

// Whether a window is bad: its last number is missing, a minute is above 10,079, or its ends are equal.
fn is_bad(window: &[u16]) -> bool
    ensures { result ≡ is_bad window.now 0 }
{
    if window.len() < 2 {
        return true;
    }
    let first = window[0];
    let last = window[1];
    Limits::MINUTES <= first || Limits::MINUTES <= last || first == last
}

// Number 15: the first bad window of the whole list; where none is bad, more windows than there may be.
fn check_windows(windows: &[u16]) -> Verdict
    ensures { figures result ≡ windows_checked windows.now }
{
    for (i, window) in windows.chunks(2).enumerate() {
        if is_bad(window) {
            return Err(Refusal::Window(i));
        }
    }
    let count = (windows.len() + 1) / 2;
    if Limits::WINDOWS < count {
        return Err(Refusal::Window(Limits::WINDOWS));
    }
    Ok(0)
}

// Numbers 15 and 16.
#[tactic(auto, unfolding(crate::specs::Windows::time_checked))]
pub fn check_time(windows: &[u16], minute: u16) -> Verdict
    ensures { figures result ≡ time_checked windows.now minute }
{
    check_windows(windows)?;
    if Limits::MINUTES <= minute {
        return Err(Refusal::Minute(0));
    }
    Ok(0)
}

// Whether a window holds a minute: from its first on, up to its last but without it. A first above the last runs over the week's end.
fn holds(first: u16, last: u16, minute: u16) -> bool
    ensures { result ≡ holds first last minute }
{
    if last < first {
        return first <= minute || minute < last;
    }
    first <= minute && minute < last
}

// Whether a minute is quiet: some window holds it.
#[tactic(auto, using(crate::proofs::Minutes::holds_round))]
pub fn is_quiet(windows: &[u16], minute: u16) -> bool
    ensures quiet { result ≡ is_quiet windows.now minute }
    ensures round { HoldsRound }
{
    for window in windows.chunks_exact(2) {
        if holds(window[0], window[1], minute) {
            return true;
        }
    }
    false
}
