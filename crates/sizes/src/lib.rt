// The sizes that circuits and tables begin with, and the words that are fed to either: their judgement.
#![tactic(auto)]

ghost use Rattle.std.specs.Prelude.{◌≡◌, ◌^◌, ◌≤◌, length};
ghost use Rattle.verdict.specs.Judgements.{figures};
ghost use Rattle.sizes.specs.Limits.{most_bits};
ghost use Rattle.sizes.specs.Sizes.{outside, sizes_checked, words_checked, sequence_checked};
ghost use Rattle.sizes.specs.Sized.{sizes_of};

use verdict::{Refusal, Verdict};
use words::read;

// n, m and T of document 01.
#[derive(Clone, Copy)]
pub struct Sizes {
    pub inputs: usize,
    pub outputs: usize,
    pub frames: usize,
}

// The limits on them: of n, of m, of T, and of n·T.
#[derive(Drop)]
pub struct Limits;

impl Limits {
    pub const INPUTS: usize = 8;

    pub const OUTPUTS: usize = 16;

    pub const FRAMES: usize = 16;

    pub const BITS: usize = 16;
}

impl Sizes {
    pub fn read(bytes: &[u8]) -> Sizes
        requires { 6 ≤ length bytes.now }
        ensures { result ≡ sizes_of bytes.now }
    {
        let inputs = read(bytes, 0);
        let outputs = read(bytes, 2);
        let frames = read(bytes, 4);
        Sizes {
            inputs,
            outputs,
            frames,
        }
    }

    // Number 2. `most` is the largest n.
    pub fn check(self, most: usize) -> Verdict
        requires { most ≤ most_bits }
        ensures { figures result ≡ sizes_checked most self.inputs self.outputs self.frames }
    {
        if is_outside(1, most, self.inputs) {
            return Err(Refusal::Size(0));
        }
        if is_outside(1, Limits::OUTPUTS, self.outputs) {
            return Err(Refusal::Size(2));
        }
        if is_outside(1, Limits::FRAMES, self.frames) {
            return Err(Refusal::Size(4));
        }
        if Limits::BITS < self.inputs * self.frames {
            return Err(Refusal::Size(4));
        }
        Ok(0)
    }
}

// 2 to the power of `bits`.
pub fn power(bits: usize) -> usize
    requires { bits ≤ most_bits }
    ensures { result ≡ 2 ^ bits }
{
    1 << bits
}

// Whether x is out of the limits low and high.
pub fn is_outside(low: usize, high: usize, x: usize) -> bool
    ensures { result ≡ outside low high x }
{
    x < low || high < x
}

// Number 9: the first word that is too large.
fn check_words(words: &[u16], inputs: usize) -> Verdict
    requires { inputs ≤ most_bits }
    ensures { figures result ≡ words_checked inputs words.now }
{
    let limit = power(inputs);
    for (t, word) in words.iter().enumerate() {
        if limit <= *word as usize {
            return Err(Refusal::Word(t));
        }
    }
    Ok(0)
}

// Numbers 12, 9 and 7, of a list that is to have as many words as there are frames, and a result with room for so many words.
#[tactic(auto, unfolding(crate::specs::Sizes::sequence_checked))]
pub fn check_sequence(words: &[u16], inputs: usize, frames: usize, room: usize) -> Verdict
    requires { inputs ≤ most_bits }
    ensures { figures result ≡ sequence_checked inputs frames words.now room }
{
    if words.len() != frames {
        return Err(Refusal::Count(words.len()));
    }
    check_words(words, inputs)?;
    if room < frames {
        return Err(Refusal::Room(frames));
    }
    Ok(frames)
}
