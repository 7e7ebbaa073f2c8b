// The simulation of a circuit on sequences of input words ("playing" in document 01), all of them side by side.
#![tactic(auto)]

ghost use Rattle.std.specs.Prelude.{◌≡◌, ◌++◌, ℕ, ◌*◌, ◌^◌, ◌≤◌, ◌<◌, length, get_or, drop};
ghost use Rattle.verdict.specs.Judgements.{figures};
ghost use Rattle.sizes.specs.Limits.{most_frames, most_bits};
ghost use Rattle.sizes.specs.Sizes.{inputs, frames};
ghost use Rattle.sizes.specs.Sized.{Fed};
ghost use Rattle.layered.specs.Histories.{history_number};
ghost use Rattle.circuit.specs.WellFormed.{WellFormed};
ghost use Rattle.simulate.specs.Limits.{most_sequences};
ghost use Rattle.simulate.specs.Simulate.{sequence_at, all_output_words, sequences_checked, simulated, simulation_result};
ghost use Rattle.simulate.specs.Theorems.{EachAlone};

use causal::check;
use circuit::Head;
use lanes::{gather, pack_frames, room, store_signals};
use sizes::{check_sequence, power};
use verdict::{Refusal, Verdict};

// The most sequences that are simulated in one call.
#[derive(Drop)]
pub struct Limits;

impl Limits {
    pub const SEQUENCES: usize = 32;
}

// Numbers 13, 12, 9 and 7.
fn check_sequences(
    words: &[u16],
    inputs: usize,
    frames: usize,
    count: usize,
    room: usize,
) -> Verdict
    requires { (inputs ≤ most_bits) × (frames ≤ most_frames) }
    ensures { figures result ≡ sequences_checked inputs frames count words.now room }
{
    if Limits::SEQUENCES < count {
        return Err(Refusal::Sequences(count));
    }
    check_sequence(words, inputs, count * frames, room)
}

// The number of a sequence: its first word is the highest digit.
fn sequence_number(words: &[u16], inputs: usize) -> u16
    requires inputs_le_most_bits { (inputs ≤ most_bits) × (inputs * length words.now ≤ most_bits) }
    requires fed { Fed inputs (length words.now) words.now }
    ensures { result ≡ history_number (2 ^ inputs) 0 words.now }
{
    let base = power(inputs);
    let mut number = 0;
    for word in words {
        number = number * base + *word as usize;
    }
    number as u16
}

// The numbers of `count` sequences that stand one behind the other. Not `chunks`: no clause here rules out 0 frames.
fn sequence_numbers(
    words: &[u16],
    inputs: usize,
    frames: usize,
    count: usize,
) -> [u16; Limits::SEQUENCES]
    requires inputs_le_most_bits { (inputs ≤ most_bits) × (inputs * frames ≤ most_bits) × (frames ≤ most_frames) × (count ≤ most_sequences) }
    requires fed { Fed inputs (count * frames) words.now }
    ensures { (k : ℕ) → k < count → get_or result k 0 ≡ history_number (2 ^ inputs) 0 (sequence_at frames words.now k) }
{
    let mut numbers = [0; Limits::SEQUENCES];
    for k in 0..count {
        numbers[k] = sequence_number(&words[k * frames..k * frames + frames], inputs);
    }
    numbers
}

// Writes the output words on each sequence. The gates are read here, once for all sequences.
fn write_outputs(circuit: &[u8], head: Head, count: usize, words: &[u16], res: &mut [u16])
    requires well_formed { WellFormed circuit.now head }
    requires count_le_most_sequences { (count ≤ most_sequences) × (count * frames circuit.now ≤ length res.old) }
    requires fed { Fed (inputs circuit.now) (count * frames circuit.now) words.now }
    ensures { res.new ≡ all_output_words circuit.now count words.now ++ drop (count * frames circuit.now) res.old }
{
    let inputs = head.inputs;
    let outputs = head.outputs;
    let frames = head.frames;
    let first = head.base + (head.gates - head.total);
    let sequences = sequence_numbers(words, inputs, frames, count);
    let numbers = gather(&sequences[..count]);
    let firsts = [0; 1 + sizes::Limits::BITS];
    let mut lanes = room();
    store_signals(circuit, head, frames, &numbers, &firsts, &mut lanes);
    for k in 0..count {
        let at = k * frames;
        let end = at + frames;
        pack_frames(&lanes, first, outputs, k, &mut res[at..end]);
    }
}

// The outputs of a circuit on each of `count` sequences of input words, which stand one behind the other: one word for each frame.
pub fn simulate(circuit: &[u8], count: usize, words: &[u16], res: &mut [u16]) -> Verdict
    ensures verdict { figures result ≡ simulated circuit.now count words.now (length res.old) }
    ensures res { res.new ≡ simulation_result circuit.now count words.now res.old }
    ensures alone { EachAlone circuit.now }
{
    check(circuit)?;
    let head = Head::read(circuit);
    let written = check_sequences(words, head.inputs, head.frames, count, res.len())?;
    write_outputs(circuit, head, count, words, res);
    Ok(written)
}
