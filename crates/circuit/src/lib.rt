// Circuits over frames ("charts" in document 01): the format, and every check but that of number 4.
#![tactic(auto)]

ghost use Rattle.std.specs.Prelude.{◌≡◌, false, ℕ, ◌+◌, ◌*◌, ◌-◌, ◌≤◌, ◌<◌, length, IfOk};
ghost use Rattle.verdict.specs.Judgements.{figures};
ghost use Rattle.sizes.specs.Limits.{most_outputs, most_bits};
ghost use Rattle.layered.specs.Search.{least};
ghost use Rattle.circuit.specs.Lists.{bit};
ghost use Rattle.circuit.specs.Circuit.{gates, gate_of_output, unconnected, admissible, head_checked, literals_from, literals_checked, form_within};
ghost use Rattle.circuit.specs.WellFormed.{CircuitHeaded, HeadOf, WellFormed, GateOf, literals_of};

use sizes::{Sizes, is_outside};
use verdict::{Refusal, Verdict};
use words::read;

// The length of a circuit's head, the limit on its gates, the most gates that are folded (those of a network, and one for each place of an output), the
// most signals there can be, and the mark of an unconnected output.
#[derive(Drop)]
pub struct Limits;

impl Limits {
    pub const HEAD: usize = 8;

    pub const GATES: usize = 4096;

    pub const WIRED: usize = Limits::GATES + sizes::Limits::OUTPUTS * sizes::Limits::FRAMES;

    pub const SIGNALS: usize = 1 + sizes::Limits::BITS + Limits::WIRED;

    pub const MARK: usize = 65535;
}

// The sizes of a circuit, with the signal of its first gate and its number of outputs over all frames.
#[derive(Clone, Copy)]
pub struct Head {
    pub inputs: usize,
    pub outputs: usize,
    pub frames: usize,
    pub gates: usize,
    pub base: usize,
    pub total: usize,
}

impl Head {
    pub fn read(circuit: &[u8]) -> Head
        requires { CircuitHeaded circuit.now }
        ensures { HeadOf circuit.now result }
    {
        let sizes = Sizes::read(circuit);
        let gates = read(circuit, 6);
        Head {
            inputs: sizes.inputs,
            outputs: sizes.outputs,
            frames: sizes.frames,
            gates,
            base: 1 + sizes.inputs * sizes.frames,
            total: sizes.outputs * sizes.frames,
        }
    }
}

// Two literals of a gate: those that stand in the circuit, or its operands.
#[derive(Clone, Copy)]
pub struct Gate {
    pub left: usize,
    pub right: usize,
}

// Numbers 1 (head), 2 and 1 of document 01. `most` is the largest n, and `long` the largest T.
pub fn check_head(circuit: &[u8], most: usize, long: usize) -> Verdict
    requires { most ≤ most_bits }
    ensures verdict { figures result ≡ head_checked most long circuit.now }
    ensures headed { IfOk result (λ _. CircuitHeaded circuit.now) }
{
    let length = circuit.len();
    if length < Limits::HEAD {
        return Err(Refusal::Length(length));
    }
    let sizes = Sizes::read(circuit);
    sizes.check(most)?;
    if long < sizes.frames {
        return Err(Refusal::Size(4));
    }
    let gates = read(circuit, 6);
    if is_outside(sizes.outputs * sizes.frames, Limits::GATES, gates) {
        return Err(Refusal::Size(6));
    }
    if length != Limits::HEAD + 4 * gates {
        return Err(Refusal::Length(length));
    }
    Ok(0)
}

// The two literals of gate g, as they stand.
fn read_literals(circuit: &[u8], head: Head, g: usize) -> Gate
    requires circuit_headed { CircuitHeaded circuit.now }
    requires head_of { HeadOf circuit.now head }
    requires g_bound { g < gates circuit.now }
    ensures { result ≡ literals_of circuit.now g }
{
    let left = read(circuit, Limits::HEAD + 2 * g);
    let right = read(circuit, Limits::HEAD + 2 * (head.gates + g));
    Gate { left, right }
}

// Whether the output with gate g is unconnected.
pub fn is_unconnected(circuit: &[u8], head: Head, g: usize) -> bool
    requires circuit_headed { CircuitHeaded circuit.now }
    requires head_of { HeadOf circuit.now head }
    requires circuit_bound { (gate_of_output circuit.now 0 ≤ g) × (g < gates circuit.now) }
    ensures { result ≡ unconnected circuit.now g }
{
    let gate = read_literals(circuit, head, g);
    gate.left == Limits::MARK && gate.right == Limits::MARK
}

// Whether a literal of the output with gate g is admissible.
fn is_admissible(circuit: &[u8], head: Head, g: usize, literal: usize) -> bool
    requires circuit_headed { CircuitHeaded circuit.now }
    requires head_of { HeadOf circuit.now head }
    requires circuit_bound { (gate_of_output circuit.now 0 ≤ g) × (g < gates circuit.now) }
    ensures { result ≡ admissible circuit.now g literal }
{
    let signal = literal / 2;
    if head.base + g <= signal {
        return is_unconnected(circuit, head, g);
    }
    if signal < head.base + (head.gates - head.total) {
        return true;
    }
    let named = signal - head.base;
    !is_unconnected(circuit, head, named)
}

// How many gates there are before the first unconnected output: all, where there is none.
fn first_unconnected(circuit: &[u8], head: Head) -> usize
    requires circuit_headed { CircuitHeaded circuit.now }
    requires head_of { HeadOf circuit.now head }
    ensures { result ≡ least (gates circuit.now) (unconnected circuit.now) }
{
    let first = head.gates - head.total;
    let count = head.gates;
    for g in first..count {
        if is_unconnected(circuit, head, g) {
            return g;
        }
    }
    count
}

// Number 3, of the literals at byte offset `start` of the first `count` gates, none of which is an unconnected output.
fn check_first(circuit: &[u8], head: Head, start: usize, count: usize) -> Verdict
    requires circuit_headed { CircuitHeaded circuit.now }
    requires head_of { HeadOf circuit.now head }
    requires circuit_in_bounds { start + 2 * gates circuit.now ≤ length circuit.now }
    requires count_bound { (count ≤ gates circuit.now) × ((g : ℕ) → g < count → unconnected circuit.now g ≡ false) }
    ensures { figures result ≡ literals_from circuit.now start 0 count }
{
    let base = head.base;
    for g in 0..count {
        let at = start + 2 * g;
        if 2 * (base + g) <= read(circuit, at) {
            return Err(Refusal::Literal(at));
        }
    }
    Ok(0)
}

// Number 3, of the literals there of the outputs from gate `first` on.
fn check_rest(circuit: &[u8], head: Head, start: usize, first: usize) -> Verdict
    requires circuit_headed { CircuitHeaded circuit.now }
    requires head_of { HeadOf circuit.now head }
    requires circuit_in_bounds { start + 2 * gates circuit.now ≤ length circuit.now }
    requires circuit_bound { (gate_of_output circuit.now 0 ≤ first) × (first ≤ gates circuit.now) }
    ensures { figures result ≡ literals_from circuit.now start first (gates circuit.now - first) }
{
    let count = head.gates;
    for g in first..count {
        let at = start + 2 * g;
        if !is_admissible(circuit, head, g, read(circuit, at)) {
            return Err(Refusal::Literal(at));
        }
    }
    Ok(0)
}

// Number 3, of all literals there. Up to the first unconnected output none has to be looked at for what it names.
fn check_literals(circuit: &[u8], head: Head, start: usize, first: usize) -> Verdict
    requires circuit_headed { CircuitHeaded circuit.now }
    requires head_of { HeadOf circuit.now head }
    requires circuit_in_bounds { start + 2 * gates circuit.now ≤ length circuit.now }
    requires first_value { first ≡ least (gates circuit.now) (unconnected circuit.now) }
    ensures { figures result ≡ literals_checked circuit.now start }
{
    check_first(circuit, head, start, first)?;
    check_rest(circuit, head, start, first)
}

// The operands of gate g. Behind the check the mark stands in both literals or in neither, so the left one tells.
pub fn read_gate(circuit: &[u8], head: Head, g: usize) -> Gate
    requires well_formed { WellFormed circuit.now head }
    requires g_bound { g < gates circuit.now }
    ensures { GateOf circuit.now g result }
{
    let gate = read_literals(circuit, head, g);
    if gate.left == Limits::MARK {
        return Gate { left: 0, right: 0 };
    }
    gate
}

// Every check of a circuit but that of number 4. `most` is the largest n, and `long` the largest T.
pub fn check_form(circuit: &[u8], most: usize, long: usize) -> Verdict
    requires { most ≤ most_bits }
    ensures { figures result ≡ form_within most long circuit.now }
{
    check_head(circuit, most, long)?;
    let head = Head::read(circuit);
    let first = first_unconnected(circuit, head);
    check_literals(circuit, head, Limits::HEAD, first)?;
    let rights_at = Limits::HEAD + 2 * head.gates;
    check_literals(circuit, head, rights_at, first)
}

// Bit j of a word.
pub fn is_set(word: usize, j: usize) -> bool
    requires { j < most_outputs }
    ensures { result ≡ bit word j }
{
    (word >> j) % 2 == 1
}
