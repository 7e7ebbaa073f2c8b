// Words of 16 and of 32 bits in byte slices, low byte first.
#![tactic(auto)]

ghost use Rattle.std.specs.Prelude.{◌≡◌, ◌∷◌, [], ◌+◌, ◌*◌, ◌^◌, ◌≤◌, ◌<◌, length};
ghost use Rattle.words.specs.Words.{number_at, word_at, stored};

// The word of 16 bits at byte offset `at`.
pub fn read(bytes: &[u8], at: usize) -> usize
    requires { at + 1 < length bytes.now }
    ensures { (result ≡ word_at bytes.now at) × (result < 65536) }
{
    let low = bytes[at] as usize;
    let high = bytes[at + 1] as usize;
    low + 256 * high
}

// Stores a word of 16 bits at byte offset `at`.
pub fn store(bytes: &mut [u8], at: usize, word: u16)
    requires { at + 1 < length bytes.old }
    ensures { bytes.new ≡ stored 2 bytes.old at (word ∷ []) }
{
    bytes[at] = (word % 256) as u8;
    bytes[at + 1] = (word / 256 % 256) as u8;
}

// Stores the numbers, one behind the other, from byte offset `at` on.
pub fn store_all(numbers: &[u16], bytes: &mut [u8], at: usize)
    requires { at + 2 * length numbers.now ≤ length bytes.old }
    ensures { bytes.new ≡ stored 2 bytes.old at numbers.now }
{
    for (i, number) in numbers.iter().enumerate() {
        store(bytes, at + 2 * i, *number);
    }
}

// The word of 32 bits at byte offset `at`.
pub fn read32(bytes: &[u8], at: usize) -> usize
    requires { at + 3 < length bytes.now }
    ensures { (result ≡ number_at 4 bytes.now at) × (result < 2 ^ 32) }
{
    read(bytes, at) + 65536 * read(bytes, at + 2)
}

// Stores a word of 32 bits at byte offset `at`.
pub fn store32(bytes: &mut [u8], at: usize, word: u32)
    requires { at + 3 < length bytes.old }
    ensures { bytes.new ≡ stored 4 bytes.old at (word ∷ []) }
{
    store(bytes, at, (word % 65536) as u16);
    store(bytes, at + 2, (word / 65536 % 65536) as u16);
}
