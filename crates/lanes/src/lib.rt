// A circuit on several sequences side by side: of each signal there is a number whose bit j, its lane j, is the signal's value on sequence j.
#![tactic(auto)]

ghost use Rattle.std.specs.Prelude.{◌≡◌, cond, List, [], ℕ, ◌+◌, ◌*◌, ◌-◌, ◌/◌, ◌%◌, ◌^◌, ◌≤◌, ◌<◌, min, ltb, eqb, length, get_or, set, take, drop, replicate};
ghost use Rattle.sizes.specs.Limits.{most_outputs, most_bits};
ghost use Rattle.sizes.specs.Sizes.{frames};
ghost use Rattle.circuit.specs.Limits.{most_signals};
ghost use Rattle.circuit.specs.Lists.{listed, bit, packed};
ghost use Rattle.circuit.specs.Circuit.{all_inputs};
ghost use Rattle.circuit.specs.WellFormed.{WellFormed};
ghost use Rattle.lanes.specs.Limits.{lane_count};
ghost use Rattle.lanes.specs.Lanes.{lane, literal_lanes, sequence, NumberLanes, picked, InputLanes, FrameLanes, Settled, Ready, FirstUses, SignalLanes};

use circuit::{Head, is_set, read_gate};
use std::array;

// How many sequences are simulated side by side, a lane each: the bits of a number; and the bits of a lane's number.
#[derive(Drop)]
pub struct Limits;

impl Limits {
    pub const BITS: usize = 5;

    pub const LANES: usize = 1 << Limits::BITS;

    // Number p has bit p of 0, 1, .. in its lanes.
    const COUNTING: [u32; Limits::BITS] = [
        0xAAAAAAAA, 0xCCCCCCCC, 0xF0F0F0F0, 0xFF00FF00, 0xFFFF0000,
    ];
}

// Room for the lanes of all signals. It holds none yet: the constant's are not zero.
pub fn room() -> [u32; circuit::Limits::SIGNALS]
    ensures { result ≡ replicate most_signals 1 }
{
    [1; circuit::Limits::SIGNALS]
}

// The lanes of bit `place` of the numbers `at`, `at` + 1, ..
fn counting_lanes(at: usize, place: usize) -> u32
    requires { (at % lane_count ≡ 0) × (place < most_bits) }
    ensures { (j : ℕ) → j < lane_count → bit result j ≡ bit (at + j) place }
{
    if place < Limits::BITS {
        return Limits::COUNTING[place];
    }
    if is_set(at, place) { u32::MAX } else { 0 }
}

// The lanes of the numbers `at`, `at` + 1, ..: one for each of the bits that are named.
pub fn neighbours(at: usize, bits: &[usize]) -> [u32; sizes::Limits::BITS]
    requires { (at % lane_count ≡ 0) × (most_bits ≤ length bits.now) × ((p : ℕ) → p < most_bits → get_or bits.now p 0 < most_bits) }
    ensures { NumberLanes result (λ j. picked bits.now (at + j)) }
{
    array::from_fn(|place| counting_lanes(at, bits[place]))
}

// The lanes of bit `place` of the histories.
fn gathered_lanes(histories: &[u16], place: usize) -> u32
    requires { (length histories.now ≤ lane_count) × (place < most_bits) }
    ensures { result ≡ packed (lane place histories.now) }
{
    let mut lanes: u32 = 0;
    for j in (0..histories.len()).rev() {
        lanes = 2 * lanes + ((histories[j] >> place) % 2) as u32;
    }
    lanes
}

// The lanes of the histories: a number for each bit. Lanes beyond them have history 0.
pub fn gather(histories: &[u16]) -> [u32; sizes::Limits::BITS]
    requires { length histories.now ≤ lane_count }
    ensures { NumberLanes result (λ j. get_or histories.now j 0) }
{
    array::from_fn(|place| gathered_lanes(histories, place))
}

// The lanes of input k, from 0, of a frame on histories of t words, which zero words follow.
fn input_lanes(inputs: usize, t: usize, numbers: &[u32], frame: usize, k: usize) -> u32
    requires { (1 ≤ frame) × (k < inputs) × (t * inputs ≤ most_bits) × (most_bits ≤ length numbers.now) }
    ensures { (T : ℕ) (h : ℕ → ℕ) → t ≤ T → NumberLanes numbers.now h → (j : ℕ) → j < lane_count → bit result j ≡ bit (get_or (sequence (2 ^ inputs) T t (h j)) (frame - 1) 0) k }
{
    if t < frame {
        return 0;
    }
    numbers[(t - frame) * inputs + k]
}

// Notes that gate g names the literal's signal, where this is an input or the constant.
fn note_use(firsts: &mut [usize], base: usize, literal: usize, g: usize)
    requires { base ≤ length firsts.old }
    ensures { firsts.new ≡ cond (ltb (literal / 2) base) (set firsts.old (literal / 2) g) firsts.old }
{
    let signal = literal / 2;
    if signal < base {
        firsts[signal] = g;
    }
}

// The first gate that names each input, or the number of gates: no gate before it depends on the input.
pub fn first_uses(circuit: &[u8], head: Head) -> [usize; 1 + sizes::Limits::BITS]
    requires { WellFormed circuit.now head }
    ensures { FirstUses circuit.now 0 result }
{
    let base = head.base;
    let gates = head.gates;
    let mut firsts = [gates; 1 + sizes::Limits::BITS];
    for g in (0..gates).rev() {
        let gate = read_gate(circuit, head, g);
        note_use(&mut firsts, base, gate.left, g);
        note_use(&mut firsts, base, gate.right, g);
    }
    firsts
}

// The first gate that may have another value where an input had the lanes `before` and has `after`, if it was `start` without this input, and
// `first` is the first that names it.
fn restart(start: usize, before: u32, after: u32, first: usize) -> usize
    ensures { result ≡ cond (eqb before after) start (min start first) }
{
    if before == after {
        start
    } else {
        start.min(first)
    }
}

// Stores the lanes of the inputs of a frame, behind those of the frames before it. Answers the first gate whose lanes may no longer be right, if it
// was `start` before.
fn store_frame(
    inputs: usize,
    t: usize,
    frame: usize,
    numbers: &[u32],
    firsts: &[usize],
    start: usize,
    lanes: &mut [u32],
) -> usize
    requires le_frame { (1 ≤ frame) × (t * inputs ≤ most_bits) × (frame * inputs ≤ most_bits) }
    requires most_bits_in_bounds { (most_bits ≤ length numbers.now) × (most_bits < length firsts.now) × (most_bits < length lanes.old) }
    ensures inputs { (T : ℕ) (h : ℕ → ℕ) → t ≤ T → NumberLanes numbers.now h → InputLanes inputs T t h ((frame - 1) * inputs) lanes.old → InputLanes inputs T t h (frame * inputs) lanes.new }
    ensures settled { (b : List ℕ) → frame * inputs ≤ all_inputs b → FirstUses b 0 firsts.now → Settled b lanes.old start → Settled b lanes.new result }
    ensures start { (result ≤ start) × (get_or lanes.new 0 0 ≡ get_or lanes.old 0 0) }
{
    let first = 1 + (frame - 1) * inputs;
    let mut least = start;
    for k in 0..inputs {
        let s = first + k;
        let after = input_lanes(inputs, t, numbers, frame, k);
        least = restart(least, lanes[s], after, firsts[s]);
        lanes[s] = after;
    }
    least
}

// Stores the lanes of the constant and of all inputs, frame by frame. Answers the first gate whose lanes may no longer be right.
fn store_inputs(head: Head, t: usize, numbers: &[u32], firsts: &[usize], lanes: &mut [u32]) -> usize
    requires le_inputs { (1 ≤ head.inputs) × (head.frames * head.inputs ≤ most_bits) × (t ≤ head.frames) }
    requires most_bits_in_bounds { (most_bits ≤ length numbers.now) × (most_bits < length firsts.now) × (most_bits < length lanes.old) }
    ensures inputs { (h : ℕ → ℕ) → NumberLanes numbers.now h → InputLanes head.inputs head.frames t h (head.frames * head.inputs) lanes.new }
    ensures settled { (b : List ℕ) → WellFormed b head → FirstUses b 0 firsts.now → Ready b lanes.old → Settled b lanes.new result }
    ensures start { (result ≤ head.gates) × (get_or lanes.new 0 0 ≡ 0) }
    ensures frames { (h : ℕ → ℕ) → NumberLanes numbers.now h → FrameLanes head.inputs head.frames t h lanes.new }
{
    let frames = head.frames;
    let mut start = if lanes[0] == 0 { head.gates } else { 0 };
    lanes[0] = 0;
    for f in 0..frames {
        start = store_frame(head.inputs, t, f + 1, numbers, firsts, start, lanes);
    }
    start
}

// The lanes of a literal whose signal has these lanes.
fn literal_lanes(lanes: u32, literal: usize) -> u32
    ensures { result ≡ literal_lanes lanes literal }
{
    if literal % 2 == 1 { !lanes } else { lanes }
}

// Stores the lanes of all signals on the histories of t words that the numbers have in their lanes. Gates before the first that names a changed
// input have their lanes already. All evaluation of gates is here.
pub fn store_signals(
    circuit: &[u8],
    head: Head,
    t: usize,
    numbers: &[u32],
    firsts: &[usize],
    lanes: &mut [u32],
)
    requires well_formed { WellFormed circuit.now head }
    requires t_bound { (t ≤ frames circuit.now) × (most_bits ≤ length numbers.now) × (most_bits < length firsts.now) × (most_signals ≤ length lanes.old) }
    requires first_uses { FirstUses circuit.now 0 firsts.now × Ready circuit.now lanes.old }
    ensures signals { (h : ℕ → ℕ) → NumberLanes numbers.now h → SignalLanes circuit.now t h lanes.new }
    ensures ready { Ready circuit.now lanes.new }
{
    let count = head.gates;
    let base = head.base;
    let start = store_inputs(head, t, numbers, firsts, lanes);
    for g in start..count {
        let gate = read_gate(circuit, head, g);
        let left = gate.left;
        let right = gate.right;
        lanes[base + g] = literal_lanes(lanes[left / 2], left)
            & literal_lanes(lanes[right / 2], right);
    }
}

// The word whose bits are lane j of the `count` signals at `at`, lowest first.
fn pack_lane(lanes: &[u32], at: usize, count: usize, j: usize) -> u16
    requires { (count ≤ most_outputs) × (at + count ≤ length lanes.now) × (j < lane_count) }
    ensures { result ≡ packed (take count (drop at (lane j lanes.now))) }
{
    let mut word: u16 = 0;
    for k in (0..count).rev() {
        word = 2 * word + ((lanes[at + k] >> j) % 2) as u16;
    }
    word
}

// Stores the words of lane j, one to a place: each has the next `count` signals from `at` on.
pub fn pack_frames(lanes: &[u32], at: usize, count: usize, j: usize, words: &mut [u16])
    requires count_le_most_outputs { (count ≤ most_outputs) × (j < lane_count) }
    requires words_in_bounds { at + count * length words.old ≤ length lanes.now }
    ensures { words.new ≡ listed [] (λ t. packed (take count (drop (at + count * t) (lane j lanes.now)))) (length words.old) }
{
    let frames = words.len();
    for t in 0..frames {
        words[t] = pack_lane(lanes, at + count * t, count, j);
    }
}
