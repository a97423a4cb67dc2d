// One pass over the bytes of a name: where it ends, and how many of its bytes form whole characters.
ghost use Rattle.std.specs.Prelude.{true, ◌≡◌, ◌≤◌, length};
ghost use Rattle.name.specs.Words.{Ascii};
ghost use Rattle.name.specs.Name.{walked_of};

use crate::utf8::Expect;
use crate::words::WORD;
use crate::{utf8, words};

// The bytes before the first zero, or all: how many, and how many of them form whole characters.
#[derive(Clone, Copy)]
pub(crate) struct Walked {
    pub(crate) len: usize,
    pub(crate) whole: usize,
}

// Whether a character may begin here and each byte of the word is one, or a zero.
fn skips(expect: Expect, word: u64) -> bool
    ensures { result ≡ true → (expect ≡ Expect.Lead) × Ascii 8 word }
{
    matches!(expect, Expect::Lead) && words::is_ascii(word)
}

// Each turn takes the next eight bytes, each once, and works on the word that they make. No word is taken behind the zero's.
pub(crate) fn walk(s: &[u8]) -> Walked
    requires { length s.now ≤ 64 }
    ensures { result ≡ walked_of s.now }
{
    let mut expect = Expect::Lead;
    let mut whole = 0;
    for at in (0..s.len()).step_by(WORD) {
        let mut word = words::word_at(s, at);
        let mut end = at;
        if skips(expect, word) {
            end += words::zero_in(word);
            whole = end;
        } else {
            while word % 0x100 != 0 {
                let b = (word % 0x100) as u8;
                end += 1;
                expect = utf8::next(expect, b);
                whole = utf8::mark(expect, end, whole);
                word /= 0x100;
            }
        }
        if end < at + WORD {
            return Walked { len: end, whole };
        }
    }
    Walked {
        len: s.len(),
        whole,
    }
}
