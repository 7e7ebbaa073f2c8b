// What is tried: a candidate, with the table that it is to match.
ghost use Rattle.trial.specs.Tried.{Held, Candidate};

use super::Sought;

// A candidate on trial: the sizes, the table that is to be matched, where the outputs of each of its layers begin, and the candidate's next states.
#[derive(Clone, Copy)]
pub struct Trial<'a> {
    pub sought: Sought,
    pub table: &'a [u8],
    pub starts: &'a [usize],
    pub chosen: &'a [u16],
    ghost held: { Held table.now starts.now sought },
    ghost candidate: { Candidate sought chosen.now },
}
