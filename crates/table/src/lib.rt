// Tables of layered states ("sheets" in document 01): the check of a table.
#![tactic(auto)]

pub mod entries;
pub mod head;

ghost use Rattle.std.specs.Prelude.{◌≡◌};
ghost use Rattle.verdict.specs.Judgements.{figures};
ghost use Rattle.table.specs.Table.{checked};
ghost use Rattle.table.specs.Theorems.{LegalTable};

use entries::{Array, check_array};
use head::check_head;
use verdict::Verdict;

// The bytes of n, m and T, the states of layers 0 and T, and the most states of another layer.
#[derive(Drop)]
pub struct Limits;

impl Limits {
    pub const SIZES: usize = 6;

    pub const ENDS: usize = 1;

    pub const STATES: usize = 32768;
}

// What the head says of the arrays: 2^n, T, and the byte offsets of the outputs and of the next states.
#[derive(Clone, Copy)]
pub struct Layout {
    pub words: usize,
    pub frames: usize,
    pub outputs: usize,
    pub nexts: usize,
}

// The verdict on a table.
#[tactic(auto, using(crate::proofs::Accepted::legal_table))]
pub fn check(table: &[u8]) -> Verdict
    ensures verdict { figures result ≡ checked table.now }
    ensures legal { LegalTable table.now }
{
    check_head(table)?;
    let layout = Layout::read(table);
    check_array(table, layout, Array::Outputs)?;
    check_array(table, layout, Array::Nexts)
}
