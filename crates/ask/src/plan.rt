// The plan of a circuit's table, and what asking for it answers.
ghost use Rattle.std.specs.Prelude.{◌≡◌};
ghost use Rattle.ask.specs.Plan.{plan_numbers, ask_plan};

use survey::Counts;
use verdict::Refusal;

// How many numbers a plan is, and where among them the counts and the bytes stand.
#[derive(Drop)]
pub struct Limits;

impl Limits {
    pub const NUMBERS: usize = sizes::Limits::FRAMES + 5;

    const COUNTS: usize = 3;

    const BYTES: usize = sizes::Limits::FRAMES + 4;
}

// Document 02's record: n, m, T, the counts, and how many bytes the table takes.
#[derive(Clone, Copy)]
pub struct Plan {
    pub inputs: usize,
    pub outputs: usize,
    pub frames: usize,
    pub counts: Counts,
    pub bytes: usize,
}

impl Plan {
    // Its numbers, in this order.
    pub fn numbers(self) -> [u64; Limits::NUMBERS]
        ensures { result ≡ plan_numbers self }
    {
        let counts = self.counts;
        let mut numbers = [0; Limits::NUMBERS];
        numbers[0] = self.inputs as u64;
        numbers[1] = self.outputs as u64;
        numbers[2] = self.frames as u64;
        for t in 0..sizes::Limits::FRAMES + 1 {
            numbers[Limits::COUNTS + t] = counts[t] as u64;
        }
        numbers[Limits::BYTES] = self.bytes as u64;
        numbers
    }
}

// What asking answers.
pub type Asked = Result<Plan, Refusal>;

// The numbers of the plan, zeros where there is none.
pub fn plan_numbers(asked: Asked) -> [u64; Limits::NUMBERS]
    ensures { result ≡ ask_plan asked }
{
    match asked {
        Ok(plan) => plan.numbers(),
        Err(_) => [0; Limits::NUMBERS],
    }
}
