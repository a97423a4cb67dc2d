// Eight bytes as one number, the first byte lowest. A name is taken in such words, and all that is asked of it is asked of the number.
ghost use Rattle.std.specs.Prelude.{true, ◌≡◌, ◌+◌, ◌≤◌, ◌<◌, length, take, drop};
ghost use Rattle.name.specs.Words.{word_of, Ascii, zero_in};

// How many bytes a word has.
pub(crate) const WORD: usize = 8;

// The top bit of each byte of a word.
const TOP_BITS: u64 = 0x8080_8080_8080_8080;

// What is left from `at` on, where that is fewer than eight bytes, with zeros behind it.
fn last_word(s: &[u8], at: usize) -> u64
    requires { (at ≤ length s.now) × (length s.now < at + 8) }
    ensures { result ≡ word_of (take 8 (drop at s.now)) }
{
    u64::from_le_bytes([
        wire::byte_at(s, at),
        wire::byte_at(s, at + 1),
        wire::byte_at(s, at + 2),
        wire::byte_at(s, at + 3),
        wire::byte_at(s, at + 4),
        wire::byte_at(s, at + 5),
        wire::byte_at(s, at + 6),
        0,
    ])
}

// The next eight bytes, or those that are left. Reading a name looks at its bytes nowhere else, and at each once.
pub(crate) fn word_at(s: &[u8], at: usize) -> u64
    requires { at ≤ length s.now }
    ensures { result ≡ word_of (take 8 (drop at s.now)) }
{
    match s[at..].first_chunk() {
        Some(word) => u64::from_le_bytes(*word),
        None => last_word(s, at),
    }
}

// Whether no byte has its top bit.
pub(crate) fn is_ascii(word: u64) -> bool
    ensures { result ≡ true → Ascii 8 word }
{
    word & TOP_BITS == 0
}

// How many bytes stand before the first zero: taken from 80, only a zero leaves the top bit, and none borrows from the next byte.
pub(crate) fn zero_in(word: u64) -> usize
    requires { Ascii 8 word }
    ensures { result ≡ zero_in 8 word }
{
    let zeros = (TOP_BITS - word) & TOP_BITS;
    (u64::trailing_zeros(zeros) / 8) as usize
}
