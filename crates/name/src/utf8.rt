// Well-formed UTF-8, a byte at a time: the first byte of a character decides what may follow.
ghost use Rattle.std.specs.Prelude.{◌≡◌};
ghost use Rattle.name.specs.Utf8.{lead_of, trailed, step, marked, whole_chars};

// What the next byte has to be.
#[derive(Clone, Copy)]
pub enum Expect {
    // The first byte of a character; the text may also end here.
    Lead,
    // A byte in low..=high, and after it `more` bytes in 80..=bf.
    Trail { low: u8, high: u8, more: u8 },
    // Nothing: the bytes so far are no text.
    Malformed,
}

fn lead(b: u8) -> Expect
    ensures { result ≡ lead_of b }
{
    match b {
        0x00..=0x7f => Expect::Lead,
        0xc2..=0xdf => trail(0x80, 0xbf, 0),
        0xe0 => trail(0xa0, 0xbf, 1),
        0xe1..=0xec | 0xee..=0xef => trail(0x80, 0xbf, 1),
        0xed => trail(0x80, 0x9f, 1),
        0xf0 => trail(0x90, 0xbf, 2),
        0xf1..=0xf3 => trail(0x80, 0xbf, 2),
        0xf4 => trail(0x80, 0x8f, 2),
        _ => Expect::Malformed,
    }
}

fn trail(low: u8, high: u8, more: u8) -> Expect
    ensures { result ≡ Expect.Trail low high more }
{
    Expect::Trail { low, high, more }
}

// After a byte that was expected, with `more` to follow.
fn after_trail(more: u8) -> Expect
    ensures { result ≡ trailed more }
{
    if more == 0 {
        Expect::Lead
    } else {
        trail(0x80, 0xbf, more - 1)
    }
}

pub(crate) fn next(expect: Expect, b: u8) -> Expect
    ensures { result ≡ step expect b }
{
    match expect {
        Expect::Lead => lead(b),
        Expect::Trail { low, high, more } => {
            if b < low {
                return Expect::Malformed;
            }
            if high < b {
                return Expect::Malformed;
            }
            after_trail(more)
        }
        Expect::Malformed => Expect::Malformed,
    }
}

// Characters are whole up to `at` where the next byte may begin one, and else as far as they were.
pub(crate) fn mark(expect: Expect, at: usize, whole: usize) -> usize
    ensures { result ≡ marked expect at whole }
{
    match expect {
        Expect::Lead => at,
        Expect::Trail { .. } => whole,
        Expect::Malformed => whole,
    }
}

// How many leading bytes form whole well-formed characters.
pub fn whole_characters(s: &[u8]) -> usize
    ensures { result ≡ whole_chars s.now }
{
    let mut expect = Expect::Lead;
    let mut whole = 0;
    for (i, b) in s.iter().enumerate() {
        expect = next(expect, *b);
        whole = mark(expect, i + 1, whole);
    }
    whole
}
