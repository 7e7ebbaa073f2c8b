// What the folding program prints for the bytes that it reads.
#![tactic(auto)]

ghost use Rattle.std.specs.Prelude.{◌≡◌, ◌++◌, ◌≤◌, length, drop};
ghost use Rattle.verdict.specs.Judgements.{figures};
ghost use Rattle.folded.specs.Folded.{fold_checked, fold_result};
ghost use Rattle.fold.specs.Fold.{Promised};
ghost use Rattle.report.specs.Report.{lines_room};
ghost use Rattle.program.specs.Program.{scratch_lent, nodes_lent, program_lines};

use fold::fold;
use nodes::Node;
use report::{append_refusal, append_table};
use verdict::{Figures, Verdict};

// What is read at most, and what is lent to folding.
#[derive(Drop)]
pub struct Limits;

impl Limits {
    pub const INPUT: usize = 16393;

    const SCRATCH: usize = 8192;

    const NODES: usize = 16384;

    const RESULT: usize = 24576;
}

// Folds an input with scratch and records of its own.
fn fold_here(input: &[u8], res: &mut [u8]) -> Verdict
    ensures verdict { figures result ≡ fold_checked input.now scratch_lent nodes_lent (length res.old) }
    ensures res { res.new ≡ fold_result input.now scratch_lent nodes_lent res.old }
    ensures promised { Promised input.now (figures result) res.new }
{
    let mut scratch = [0; Limits::SCRATCH];
    let mut nodes = [Node {
        level: 0,
        low: 0,
        high: 0,
    }; Limits::NODES];
    fold(input, &mut scratch, &mut nodes, res)
}

// Puts the lines for an input at the start of `out`, and answers how many bytes they are.
pub fn run(input: &[u8], out: &mut [u8]) -> usize
    requires { lines_room ≤ length out.old }
    ensures count { result ≡ length (program_lines input.now) }
    ensures lines { out.new ≡ program_lines input.now ++ drop result out.old }
    ensures within { result ≤ length out.old }
{
    let mut result = [0u8; Limits::RESULT];
    match fold_here(input, &mut result) {
        Ok(written) => append_table(out, &result[..written]),
        Err(refusal) => {
            let Figures { number, place } = Figures::from(refusal);
            append_refusal(out, number, place)
        }
    }
}
