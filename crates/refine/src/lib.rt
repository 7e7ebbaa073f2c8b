// Candidates numbered anew by their numbers so far and their rows, and a path for each new number.
#![tactic(auto)]

ghost use Rattle.std.specs.Prelude.{◌≡◌, ◌+◌, ◌*◌, ◌/◌, ◌<◌};
ghost use Rattle.diagrams.specs.Numbering.{first_same};
ghost use Rattle.refine.specs.Rows.{Placed, Refined};
ghost use Rattle.refine.specs.Buckets.{test_in, hash_in, bucket, Linked};
ghost use Rattle.refine.specs.Collecting.{Collectable, Collecting, Collected};

// As many buckets as there are hashes, a link for each candidate, of which there are no more, and the factor of the hash.
#[derive(Drop)]
struct Limits;

impl Limits {
    const BUCKETS: usize = 8161;

    const LINKS: usize = 32768;

    const FACTOR: usize = 3001;
}

// Where `count` candidates lie: the number of candidate c in scratch at `numbers` + c, room for another at `copy` + c, and part i of its row,
// which has `parts`, in work at `ids` + c * parts + i.
#[derive(Clone, Copy)]
pub struct Rows {
    pub count: usize,
    pub parts: usize,
    pub copy: usize,
    pub numbers: usize,
    pub ids: usize,
}

// The hash of the copied number and the row of c.
fn row_hash(scratch: &[u16], work: &[u32], rows: Rows, c: usize) -> usize
    requires placed { Placed scratch.now work.now rows }
    requires c_lt_count { c < rows.count }
    ensures { result ≡ hash_in scratch.now work.now rows c c }
{
    let parts = rows.parts;
    let copy = rows.copy;
    let row = rows.ids + c * parts;
    let mut hash = scratch[copy + c] as usize % Limits::BUCKETS;
    for i in 0..parts {
        hash = (hash * Limits::FACTOR + work[row + i] as usize) % Limits::BUCKETS;
    }
    hash
}

// The first candidate that is the same as c, sought along the bucket of its hash, which starts at `start` and goes on by links. Two rows differ
// as soon as one part tells them apart.
fn seek(scratch: &[u16], work: &[u32], rows: Rows, links: &[u16], start: u16, c: usize) -> usize
    requires placed { Placed scratch.now work.now rows }
    requires c_lt_count { c < rows.count }
    requires linked { Linked (test_in scratch.now work.now rows c) (hash_in scratch.now work.now rows c) links.now c }
    requires start_value { start ≡ bucket (test_in scratch.now work.now rows c) (hash_in scratch.now work.now rows c) (hash_in scratch.now work.now rows c c) c }
    ensures { result ≡ first_same (test_in scratch.now work.now rows c) c }
{
    let parts = rows.parts;
    let copy = rows.copy;
    let row = rows.ids + c * parts;
    let mut rest = start as usize;
    // A bucket is a chain of numbers in a fixed array, as there is no heap: an iterator over it would only wrap this loop.
    'earlier: while 0 < rest {
        let g = rest - 1;
        rest = links[g] as usize;
        if scratch[copy + g] != scratch[copy + c] {
            continue 'earlier;
        }
        let other = rows.ids + g * parts;
        for i in 0..parts {
            if work[other + i] != work[row + i] {
                continue 'earlier;
            }
        }
        return g;
    }
    c
}

// Gives each candidate its new number, and answers how many there are. Its number so far is copied, so that later ones can still be compared with
// it. The first candidate of each kind is in the bucket of its hash, the latest foremost, so that a candidate is compared with few others.
pub fn refine(scratch: &mut [u16], work: &[u32], rows: Rows) -> usize
    requires { Placed scratch.old work.now rows }
    ensures { Refined scratch.old scratch.new work.now rows result }
{
    let count = rows.count;
    let copy = rows.copy;
    let numbers = rows.numbers;
    let mut buckets = [0u16; Limits::BUCKETS];
    let mut links = [0u16; Limits::LINKS];
    let mut fresh: u16 = 0;
    for c in 0..count {
        scratch[copy + c] = scratch[numbers + c];
        let hash = row_hash(scratch, work, rows, c);
        let start = buckets[hash];
        let g = seek(scratch, work, rows, &links, start, c);
        let mut number = fresh;
        if g < c {
            number = scratch[numbers + g];
        } else {
            fresh += 1;
            links[c] = start;
            buckets[hash] = (c + 1) as u16;
        }
        scratch[numbers + c] = number;
    }
    fresh as usize
}

// Collects the paths of the new candidates of a state, the first of which has the number `fresh`, and answers the next number. A candidate is new
// exactly where its number is the next.
fn collect_words(
    scratch: &mut [u16],
    rows: Rows,
    from: usize,
    fan: usize,
    bits: usize,
    state: usize,
    fresh: usize,
) -> usize
    requires collectable { Collectable scratch.old rows from fan bits }
    requires state_bound { state < rows.count / fan }
    requires collecting { Collecting scratch.old scratch.old rows from fan bits (state * fan) fresh }
    ensures { Collecting scratch.old scratch.new rows from fan bits (state * fan + fan) result }
{
    let path = scratch[from + state] as usize;
    let first = rows.numbers + state * fan;
    let mut next = fresh;
    for w in 0..fan {
        if scratch[first + w] as usize == next {
            let at = rows.copy + next;
            scratch[at] = (path + (w << bits)) as u16;
            next += 1;
        }
    }
    next
}

// Stores at `copy` + k the path of the first candidate with the number k: that of its state, of which they stand from `from` on, and the word
// behind it, `bits` higher.
pub fn collect(scratch: &mut [u16], rows: Rows, from: usize, fan: usize, bits: usize)
    requires { Collectable scratch.old rows from fan bits }
    ensures { Collected scratch.old scratch.new rows from fan bits }
{
    let count = rows.count;
    let states = count / fan;
    let mut fresh: usize = 0;
    for state in 0..states {
        fresh = collect_words(scratch, rows, from, fan, bits, state, fresh);
    }
}
