// Big-endian numbers and runs of bytes in a lent slice. Every call takes every place: a byte past the end
// reads as zero, and is not written.
#![tactic(auto)]

pub mod constants;
pub mod layout;

ghost use Rattle.std.specs.Prelude.{◌≡◌, ◌≤◌, min, length};
ghost use Rattle.std.proofs.lemmas.List.Edits.{sets};
ghost use Rattle.wire.specs.Fields.{byte_at, u16_at, u32_at, part_of, be16, be32};

pub fn byte_at(s: &[u8], at: usize) -> u8
    ensures { result ≡ byte_at s.now at }
{
    s.get(at).copied().unwrap_or(0)
}

#[tactic(auto, using(crate::proofs::Laws::u16_past), unfolding(crate::specs::Fields::u16_at))]
pub fn u16_at(s: &[u8], at: usize) -> u16
    ensures { result ≡ u16_at s.now at }
{
    if s.len() <= at {
        return 0;
    }
    u16::from_be_bytes([byte_at(s, at), byte_at(s, at + 1)])
}

#[tactic(auto, using(crate::proofs::Laws::u32_past), unfolding(crate::specs::Fields::u16_at, crate::specs::Fields::u32_at))]
pub fn u32_at(s: &[u8], at: usize) -> u32
    ensures { result ≡ u32_at s.now at }
{
    if s.len() <= at {
        return 0;
    }
    u32::from_be_bytes([
        byte_at(s, at),
        byte_at(s, at + 1),
        byte_at(s, at + 2),
        byte_at(s, at + 3),
    ])
}

// The len bytes from start on, or no bytes where they run past the end.
pub fn part(s: &[u8], start: usize, len: usize) -> &[u8]
    ensures { result.now ≡ part_of s.now start len }
{
    if s.len() < start {
        return &s[0..0];
    }
    if s.len() - start < len {
        return &s[0..0];
    }
    &s[start..start + len]
}

// The smaller of two numbers. The theorem `least` of crates/demands/proofs/Settled.antt speaks of this call.
pub fn least(a: usize, b: usize) -> usize
    ensures { result ≡ min a b }
{
    a.min(b)
}

// As a loop under one bound this compiles to wide moves; `copy_from_slice` would call the C library's memmove.
fn copy_run(buf: &mut [u8], src: &[u8])
    requires { length src.now ≤ length buf.old }
    ensures { buf.new ≡ sets buf.old 0 src.now }
{
    for (i, b) in src.iter().enumerate() {
        buf[i] = *b;
    }
}

pub fn copy(buf: &mut [u8], at: usize, src: &[u8])
    ensures { buf.new ≡ sets buf.old at src.now }
{
    if buf.len() < at {
        return;
    }
    let n = least(src.len(), buf.len() - at);
    copy_run(&mut buf[at..], &src[..n]);
}

// Two stores: hex text is put by this call, for which a copy of two bytes costs twice as much.
pub fn put_u16(buf: &mut [u8], at: usize, v: u16)
    ensures { buf.new ≡ sets buf.old at (be16 v) }
{
    if buf.len() <= at {
        return;
    }
    let [high, low] = v.to_be_bytes();
    buf[at] = high;
    if at + 1 < buf.len() {
        buf[at + 1] = low;
    }
}

pub fn put_u32(buf: &mut [u8], at: usize, v: u32)
    ensures { buf.new ≡ sets buf.old at (be32 v) }
{
    copy(buf, at, &u32::to_be_bytes(v));
}
