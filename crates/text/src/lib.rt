// Text put into a lent buffer: words, numbers in decimal, bytes in hex. What runs past the buffer's end is left out,
// and the text then ends at its end.
#![tactic(auto)]

ghost use Rattle.std.specs.Prelude.{◌≡◌, ◌++◌, ◌+◌, ◌<◌, min, length, take};
ghost use Rattle.std.proofs.lemmas.List.Edits.{sets};
ghost use Rattle.text.specs.Put.{Put, emptied};
ghost use Rattle.text.specs.Digits.{decimal, hex_digit, hex_byte, hex};

// A byte in hex has two digits.
const HEX_BYTE: usize = 2;

// The text so far is the first `len` bytes of the buffer.
#[derive(Drop)]
pub struct Text<'a> {
    pub bytes: &'a mut [u8],
    pub len: usize,
}

// The place behind n bytes at `at`, or the end where they run past it.
fn place_behind(end: usize, at: usize, n: usize) -> usize
    ensures { result ≡ min (at + n) end }
{
    at.saturating_add(n).min(end)
}

fn hex_digit(x: u8) -> u8
    requires { x < 16 }
    ensures { (result ≡ hex_digit x) × (result < 0x100) }
{
    if x < 10 { b'0' + x } else { b'a' + (x - 10) }
}

// As one number of two bytes: a copy of two bytes would cost more.
fn put_hex_byte(bytes: &mut [u8], at: usize, b: u8)
    ensures { bytes.new ≡ sets bytes.old at (hex_byte b) }
{
    let high = hex_digit(b / 16) as u16;
    let low = hex_digit(b % 16) as u16;
    wire::put_u16(bytes, at, high * 0x100 + low);
}

impl<'a> Text<'a> {
    // No text yet, in the whole buffer.
    pub fn new(bytes: &'a mut [u8]) -> Text<'a>
        ensures empty { result.len ≡ 0 }
        ensures bytes { result.bytes.now ≡ bytes.old }
        ensures same_reference { result.bytes.ghost_name ≡ bytes.entry.ghost_name }
    {
        Text { bytes, len: 0 }
    }

    // The text so far.
    pub fn written(&self) -> &[u8]
        ensures { result.now ≡ take self.now.len self.now.bytes.now }
    {
        &self.bytes[..self.len.min(self.bytes.len())]
    }

    // The text goes, and the buffer's bytes stay.
    pub fn clear(&mut self)
        ensures { self.new ≡ emptied self.old }
    {
        self.len = 0;
    }

    pub fn put(&mut self, s: &[u8])
        ensures { Put self.old self.new s.now }
    {
        wire::copy(self.bytes, self.len, s);
        self.len = place_behind(self.bytes.len(), self.len, s.len());
    }

    pub fn put_decimal(&mut self, n: u64)
        ensures { Put self.old self.new (decimal n) }
    {
        let mut digits = itoa::Buffer::new();
        self.put(digits.format(n).as_bytes());
    }

    // A word, and a number behind it.
    pub fn put_field(&mut self, word: &[u8], n: u64)
        ensures { Put self.old self.new (word.now ++ decimal n) }
    {
        self.put(word);
        self.put_decimal(n);
    }

    // Two digits a byte, in lower case; `-` where there are no bytes. Each byte has its own place, and the text ends
    // behind the last: a place moved on at each byte costs half as much again.
    pub fn put_hex(&mut self, s: &[u8])
        ensures { Put self.old self.new (hex s.now) }
    {
        if s.is_empty() {
            return self.put(b"-");
        }
        for (i, b) in s.iter().enumerate() {
            put_hex_byte(self.bytes, self.len.saturating_add(HEX_BYTE * i), *b);
        }
        self.len = place_behind(self.bytes.len(), self.len, HEX_BYTE * s.len());
    }
}
