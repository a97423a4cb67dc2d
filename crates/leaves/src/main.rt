// Vectors for the leaves: universes and their addresses, UTF-8 at the boundary of every range, names in their field and at writing.
#![tactic(auto)]

ghost use Rattle.std.specs.Prelude.{◌<◌, ◌^◌};

use refusal::Refusal;
use std::io;

// An address and its port as one number, or 0 where there is none.
fn address_number(universe: u16) -> u64
    ensures { result < 2 ^ 33 }
{
    match universe::universe_to_ipv4_multicast_addr(universe) {
        Err(_) => 0,
        Ok(a) => {
            let address = u32::from_be_bytes([a.highest, a.second, a.third, a.lowest]);
            address as u64 + a.port as u64
        }
    }
}

// All 65,536 answers folded into one number; the crate's own answers gave the number that is expected.
fn all_universes(rt: &impl Print) -> io::Result<()> {
    let mut sum: u64 = 7;
    for universe in 0..=u16::MAX {
        sum = (sum * 31 + address_number(universe)) % 4_294_967_291;
    }
    println!(rt; "universes {sum}")
}

fn address(rt: &impl Print, universe: u16) -> io::Result<()> {
    print!(rt; "{universe}")?;
    match universe::universe_to_ipv4_multicast_addr(universe) {
        Err(r) => refusal(rt, r),
        Ok(a) => println!(rt;
            " address {}.{}.{}.{} port {}",
            a.highest, a.second, a.third, a.lowest, a.port
        ),
    }
}

fn refusal(rt: &impl Print, r: Refusal) -> io::Result<()> {
    println!(rt; " refused {} place {} value {}", r.number, r.place, r.value)
}

// How many of the bytes are whole characters.
fn utf8(rt: &impl Print, s: &[u8]) -> io::Result<()> {
    println!(rt; "utf8 {} of {}", name::whole_characters(s), s.len())
}

fn field(rt: &impl Print, s: &[u8]) -> io::Result<()> {
    print!(rt; "field")?;
    match name::parse_source_name_str(s) {
        Err(r) => refusal(rt, r),
        Ok(len) => println!(rt; " name of {len}"),
    }
}

fn written(rt: &impl Print, s: &[u8]) -> io::Result<()> {
    print!(rt; "written")?;
    match name::check_source_name(s) {
        Err(r) => refusal(rt, r),
        Ok(()) => println!(rt; " passed"),
    }
}

fn addresses(rt: &impl Print) -> io::Result<()> {
    address(rt, 0)?;
    address(rt, 1)?;
    address(rt, 63999)?;
    address(rt, 64000)?;
    address(rt, 64213)?;
    address(rt, 64214)?;
    address(rt, 64215)?;
    address(rt, 65535)
}

fn one_and_two_bytes(rt: &impl Print) -> io::Result<()> {
    utf8(rt, b"")?;
    utf8(rt, b"\x00\x7f")?;
    utf8(rt, b"\x80")?;
    utf8(rt, b"\xc1\x80")?;
    utf8(rt, b"\xc2\x7f")?;
    utf8(rt, b"\xc2\x80")?;
    utf8(rt, b"\xdf\xbf")?;
    utf8(rt, b"\xdf\xc0")?;
    utf8(rt, b"\xc3\xa9")?;
    utf8(rt, b"\xc0\x80")
}

fn three_bytes(rt: &impl Print) -> io::Result<()> {
    utf8(rt, b"\xe0\x9f\xbf")?;
    utf8(rt, b"\xe0\xa0\x80")?;
    utf8(rt, b"\xe0\xbf\xbf")?;
    utf8(rt, b"\xe1\x80\x80")?;
    utf8(rt, b"\xec\xbf\xbf")?;
    utf8(rt, b"\xed\x9f\xbf")?;
    utf8(rt, b"\xed\xa0\x80")?;
    utf8(rt, b"\xee\x80\x80")?;
    utf8(rt, b"\xef\xbf\xbf")?;
    utf8(rt, b"\xef\xbf\xc0")
}

fn four_bytes(rt: &impl Print) -> io::Result<()> {
    utf8(rt, b"\xf0\x8f\xbf\xbf")?;
    utf8(rt, b"\xf0\x90\x80\x80")?;
    utf8(rt, b"\xf1\x80\x80\x80")?;
    utf8(rt, b"\xf3\xbf\xbf\xbf")?;
    utf8(rt, b"\xf4\x80\x80\x80")?;
    utf8(rt, b"\xf4\x8f\xbf\xbf")?;
    utf8(rt, b"\xf4\x90\x80\x80")?;
    utf8(rt, b"\xf5\x80\x80\x80")?;
    utf8(rt, b"FOH\xe2\x82\x28")
}

fn names(rt: &impl Print) -> io::Result<()> {
    let text = [b'n'; 64];
    let mut cut = [b'n'; 64];
    cut[63] = 0;
    let mut bad = [0xff; 64];
    bad[0] = b'n';
    bad[1] = 0;
    field(rt, &text)?;
    field(rt, &cut)?;
    field(rt, &bad)?;
    field(rt, &[0; 64])?;
    bad[1] = 0xc3;
    bad[2] = 0;
    field(rt, &bad)?;
    // Of 65 bytes the first 64 are the field, and the zero behind them ends no name.
    let mut long = [b'n'; 65];
    long[64] = 0;
    field(rt, &long)?;
    written(rt, b"")?;
    written(rt, &text[0..63])?;
    written(rt, &text)?;
    written(rt, &cut[60..64])?;
    written(rt, &bad[3..5])?;
    written(rt, b"FOH\xe2\x82\x28")
}

// A field that begins with these bytes, with a zero behind them and then bytes that no name has.
fn field_of(rt: &impl Print, front: &[u8]) -> io::Result<()> {
    let mut all = [0xff; 64];
    wire::copy(&mut all, 0, front);
    wire::copy(&mut all, front.len(), b"\0");
    field(rt, &all)
}

// Names are looked through eight bytes at a time: what ends, goes over and breaks off around the eighth byte.
fn names_around_eight(rt: &impl Print) -> io::Result<()> {
    field_of(rt, b"seven 7")?;
    field_of(rt, b"eight  8")?;
    field_of(rt, b"seven 7\xc3\xa9")?;
    field_of(rt, b"seven 7\xc3")?;
    field_of(rt, b"seven 7\xe2\x82\xac and more")?;
    field_of(rt, b"five5\xf0\x9f\x92\xa1")?;
    field_of(rt, b"five5\xf0\x9f\x92")?;
    field_of(rt, b"\xc3\xa9 in front")?;
    field_of(rt, b"eight  8ninth\xff, text")?;
    field_of(rt, b"sixteen bytes  6\xed\xa0\x80")
}

// Slices that end before, at and behind the eighth byte, with a zero and without.
fn names_that_are_short(rt: &impl Print) -> io::Result<()> {
    field(rt, b"")?;
    field(rt, b"ab\0")?;
    field(rt, b"abc")?;
    field(rt, b"abcdef\xff")?;
    field(rt, b"abcdefg\0")?;
    written(rt, b"n\xc3\xa9")?;
    written(rt, b"nn\xe2\x82\xac")?;
    written(rt, b"nnn\xf0\x9f\x92\xa1")?;
    written(rt, b"nnnn\xc3")?;
    written(rt, b"nnnnnn\xff")?;
    written(rt, b"nnnnn\0n")?;
    written(rt, b"eight  8\xc3\xa9 end")
}

fn main(rt: HostRuntime) -> io::Result<()> {
    all_universes(&rt)?;
    addresses(&rt)?;
    one_and_two_bytes(&rt)?;
    three_bytes(&rt)?;
    four_bytes(&rt)?;
    names(&rt)?;
    names_around_eight(&rt)?;
    names_that_are_short(&rt)
}
