// A candidate for a machine of all frames, tried on a table: its next states are followed along every history, and what the table's outputs
// demand of its entries is collected.
#![tactic(auto)]

pub mod subject;

ghost use Rattle.std.specs.Prelude.{◌≡◌, suc, ◌/◌, ◌%◌, ◌^◌, ◌≤◌, ◌<◌, length};
ghost use Rattle.trial.specs.Tried.{Leads, Comes};
ghost use Rattle.trial.specs.Trials.{target_in, next_in};
ghost use Rattle.trial.specs.Collected.{Halves, Collected, Walked, Judged};

use subject::Trial;
use table::head::connected_of;
use words::read;

// Sizes of a table and of the machine that is sought: `words` is 2^inputs, `entries` is states * words, `gap` the bytes from an output to its next
// state.
#[derive(Clone, Copy)]
pub struct Sought {
    pub inputs: usize,
    pub words: usize,
    pub frames: usize,
    pub gap: usize,
    pub states: usize,
    pub entries: usize,
}

// The entries of a machine of the most states for words of the most bits.
#[derive(Drop)]
pub struct Limits;

impl Limits {
    pub const ENTRIES: usize = 12;
}

// The table's state, the candidate's, and a bound above the entries that led there.
#[derive(Clone, Copy)]
pub struct Place {
    pub target: usize,
    pub state: usize,
    pub used: usize,
}

// The entry and the output that a history comes to, and that bound.
#[derive(Clone, Copy)]
pub struct Visit {
    pub entry: usize,
    pub out: u16,
    pub used: usize,
}

// A history of frame + 1 words.
#[derive(Clone, Copy)]
pub struct Spot {
    pub frame: usize,
    pub history: usize,
}

impl<'a> Trial<'a> {
    // Where the history h of t words leads.
    fn follow(self, t: usize, h: usize) -> Place
        requires { (t ≤ self.sought.frames) × (h < self.sought.words ^ t) }
        ensures leads { Leads (target_in self.entry) (next_in self.entry) t h result }
        ensures bounds { (result.state < self.entry.sought.states) × (result.used ≤ self.entry.sought.entries) }
    {
        let inputs = self.sought.inputs;
        let words = self.sought.words;
        let mut shift = inputs * t;
        let mut target: usize = 0;
        let mut state: usize = 0;
        let mut used: usize = 0;
        let mut before: usize = 0;
        for i in 0..t {
            shift -= inputs;
            let prefix = h >> shift;
            let word = prefix - before * words;
            let entry = state * words + word;
            if used <= entry {
                used = entry + 1;
            }
            target = read(
                self.table,
                self.sought.gap + (self.starts[i] + 2 * (target * words + word)),
            );
            state = self.chosen[entry] as usize;
            before = prefix;
        }
        Place {
            target,
            state,
            used,
        }
    }

    // What the history h of t + 1 words comes to with its last word.
    pub fn come(self, t: usize, h: usize) -> Visit
        requires { (t < self.sought.frames) × (h < self.sought.words ^ suc t) }
        ensures comes { Comes (target_in self.entry) (next_in self.entry) t (h / self.entry.sought.words) (h % self.entry.sought.words) result }
        ensures bounds { (result.entry < self.entry.sought.entries) × (result.used ≤ self.entry.sought.entries) × (result.out < 65536) }
    {
        let words = self.sought.words;
        let before = h >> self.sought.inputs;
        let word = h - before * words;
        let place = self.follow(t, before);
        let out = read(
            self.table,
            self.starts[t] + 2 * (place.target * words + word),
        );
        Visit {
            entry: place.state * words + word,
            out: out as u16,
            used: place.used,
        }
    }

    // Collects what the histories of t + 1 words demand, `count` of them; answers the first that shows a contradiction.
    fn collect(self, t: usize, count: usize, ones: &mut [u16], zeros: &mut [u16]) -> Option<usize>
        requires t_lt_frames { (t < self.sought.frames) × (count ≡ self.sought.words ^ suc t) }
        requires halves { Halves (target_in self) (next_in self) self.sought.entries ones.old zeros.old t 0 }
        ensures { Collected (target_in self.entry) (next_in self.entry) self.entry.sought.entries ones.new zeros.new t result }
    {
        let mask = connected_of(self.table, self.sought.frames, t) as u16;
        if mask == 0 {
            return None;
        }
        for h in 0..count {
            let visit = self.come(t, h);
            let e = visit.entry;
            let out = visit.out;
            let one = ones[e] | (out & mask);
            let zero = zeros[e] | (!out & mask);
            ones[e] = one;
            zeros[e] = zero;
            if one & zero != 0 {
                return Some(h);
            }
        }
        None
    }

    // Collects what all histories demand; answers the first that shows a contradiction.
    fn walk(self, ones: &mut [u16], zeros: &mut [u16]) -> Option<Spot>
        requires { Halves (target_in self) (next_in self) self.sought.entries ones.old zeros.old 0 0 }
        ensures { Walked (target_in self.entry) (next_in self.entry) self.entry.sought.entries ones.new zeros.new result }
    {
        let frames = self.sought.frames;
        let words = self.sought.words;
        let mut count: usize = 1;
        for t in 0..frames {
            count *= words;
            if let Some(history) = self.collect(t, count, ones, zeros) {
                return Some(Spot { frame: t, history });
            }
        }
        None
    }

    // Tries a candidate on all histories: the bits demanded 1, or the history that showed a contradiction.
    pub fn try_all(self) -> Result<[u16; Limits::ENTRIES], Spot>
        ensures { Judged (target_in self.entry) (next_in self.entry) self.entry.sought.entries result }
    {
        let mut ones = [0; Limits::ENTRIES];
        let mut zeros = [0; Limits::ENTRIES];
        match self.walk(&mut ones, &mut zeros) {
            Some(spot) => Err(spot),
            None => Ok(ones),
        }
    }
}
