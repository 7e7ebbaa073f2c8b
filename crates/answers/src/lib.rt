// What a call of the C interface leaves in `answer`: number and place, and the further values of a step, of a step of the board, of a price,
// of asking and of a layer's outputs.
#![tactic(auto)]

ghost use Rattle.std.specs.Prelude.{◌≡◌, ◌≤◌, length};
ghost use Rattle.verdict.specs.Judgements.{figures};
ghost use Rattle.ask.specs.Plan.{ask_numbers};
ghost use Rattle.answers.specs.Answer.{verdict_numbers, step_numbers, quiet_numbers, price_numbers, layer_numbers, filled};

use ask::plan::{Asked, plan_numbers};
use price::PriceFigures;
use steps::StepFigures;
use verdict::{Figures, Verdict};
use view::layers::LayerFigures;

// How many numbers a call answers: number and place; a step also output, layer and state; a step of the board also the output; pricing also
// the cents; asking also the plan; a layer's outputs also offset and length.
#[derive(Drop)]
pub struct Limits;

impl Limits {
    pub const VERDICT: usize = 2;

    pub const STEP: usize = 5;

    pub const QUIET: usize = 3;

    pub const PRICE: usize = 3;

    pub const ASK: usize = Limits::VERDICT + ask::plan::Limits::NUMBERS;

    pub const LAYER: usize = 4;
}

// The numbers of a verdict.
pub fn verdict_numbers(verdict: Verdict) -> [u64; Limits::VERDICT]
    ensures { result ≡ verdict_numbers (figures verdict) }
{
    let figures = Figures::from(verdict);
    [figures.number as u64, figures.place as u64]
}

// Those of a step.
pub fn step_numbers(step: StepFigures) -> [u64; Limits::STEP]
    ensures { result ≡ step_numbers step }
{
    [
        step.number as u64,
        step.place as u64,
        step.output as u64,
        step.layer as u64,
        step.state as u64,
    ]
}

// Those of a step of the board: its position is lent beside it.
pub fn quiet_numbers(step: StepFigures) -> [u64; Limits::QUIET]
    ensures { result ≡ quiet_numbers step }
{
    [step.number as u64, step.place as u64, step.output as u64]
}

// Those of a price.
pub fn price_numbers(price: PriceFigures) -> [u64; Limits::PRICE]
    ensures { result ≡ price_numbers price }
{
    [price.number as u64, price.place as u64, price.cents as u64]
}

// Those of a layer's outputs.
pub fn layer_numbers(layer: LayerFigures) -> [u64; Limits::LAYER]
    ensures { result ≡ layer_numbers layer }
{
    [
        layer.number as u64,
        layer.place as u64,
        layer.offset as u64,
        layer.length as u64,
    ]
}

// Those of what asking answers: number and place, then the plan.
pub fn ask_numbers(asked: Asked) -> [u64; Limits::ASK]
    ensures { result ≡ ask_numbers asked }
{
    let mut numbers = [0; Limits::ASK];
    numbers[..Limits::VERDICT].copy_from_slice(&verdict_numbers(asked.map(|_| 0)));
    numbers[Limits::VERDICT..].copy_from_slice(&plan_numbers(asked));
    numbers
}

// Puts numbers into `answer`, which has room for them.
pub fn put(numbers: &[u64], answer: &mut [u64])
    requires { length numbers.now ≤ length answer.old }
    ensures { answer.new ≡ filled numbers.now answer.old }
{
    let end = numbers.len();
    answer[..end].copy_from_slice(numbers);
}
