// A datagram that is read: every field, and all bytes of what it carries.
ghost use Rattle.std.specs.Prelude.{◌≡◌, ◌++◌};
ghost use Rattle.std.proofs.lemmas.List.Edits.{sets};
ghost use Rattle.discovery.specs.Universes.{universe_bytes};
ghost use Rattle.text.specs.Put.{Put};
ghost use Rattle.text.specs.Digits.{hex};
ghost use Rattle.probe.specs.Answers.{data_answer, synchronization_answer};

use packet::{DataRecord, DiscoveryRecord, Packet, Reading, SynchronizationRecord};
use text::Text;

const MOST_UNIVERSES: usize = 512;

const UNIVERSE_BYTES: usize = 2;

fn put_bytes(out: &mut Text, word: &[u8], s: &[u8])
    ensures { Put out.old out.new (word.now ++ hex s.now) }
{
    out.put(word);
    out.put_hex(s);
}

// `N data cid C name H prio P sync A seq S flags F univ U values V`
fn put_data(out: &mut Text, n: u64, datagram: &[u8], reading: Reading, x: DataRecord)
    ensures { Put out.old out.new (data_answer n datagram.now reading x) }
{
    field_text::put_named(out, n, b" data cid ", &reading.cid);
    put_bytes(out, b" name ", parts::name(datagram, reading));
    field_text::put_data_fields(out, x.fields);
    put_bytes(out, b" values ", parts::values(datagram, reading));
    out.put(b"\n");
}

// Spells numbers as they stand in a datagram.
fn spell_numbers(bytes: &mut [u8], numbers: &[u16])
    ensures { bytes.new ≡ sets bytes.old 0 (universe_bytes numbers.now) }
{
    for (i, n) in numbers.iter().enumerate() {
        wire::put_u16(bytes, UNIVERSE_BYTES * i, *n);
    }
}

// The bytes of a datagram's universes, as many as can be copied out of it.
fn put_universes(out: &mut Text, datagram: &[u8]) {
    let mut universes = [0; MOST_UNIVERSES];
    let count = parts::copy_universes(datagram, &mut universes).unwrap_or(0);
    let numbers = &universes[..wire::least(count, MOST_UNIVERSES)];
    let mut bytes = [0; UNIVERSE_BYTES * MOST_UNIVERSES];
    spell_numbers(&mut bytes, numbers);
    put_bytes(
        out,
        b" universes ",
        &bytes[..UNIVERSE_BYTES * numbers.len()],
    );
}

// `N disc cid C name H page P last L universes V`
fn put_discovery(out: &mut Text, n: u64, datagram: &[u8], reading: Reading, x: DiscoveryRecord) {
    field_text::put_named(out, n, b" disc cid ", &reading.cid);
    put_bytes(out, b" name ", parts::name(datagram, reading));
    field_text::put_page(out, x.fields);
    put_universes(out, datagram);
    out.put(b"\n");
}

// `N sync cid C seq S addr A`
fn put_synchronization(out: &mut Text, n: u64, reading: Reading, x: SynchronizationRecord)
    ensures { Put out.old out.new (synchronization_answer n reading x) }
{
    field_text::put_named(out, n, b" sync cid ", &reading.cid);
    field_text::put_synchronization_fields(out, x.fields);
    out.put(b"\n");
}

// The line of a datagram, by what it is read as.
pub fn put_reading(out: &mut Text, n: u64, datagram: &[u8]) {
    let reading = packet::parse(datagram);
    match reading.packet {
        Packet::Data(x) => put_data(out, n, datagram, reading, x),
        Packet::Synchronization(x) => put_synchronization(out, n, reading, x),
        Packet::Discovery(x) => put_discovery(out, n, datagram, reading, x),
        Packet::Refused(r) => line::put_refused(out, n, r),
    }
}
