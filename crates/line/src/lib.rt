// The lines that tell what was read: one for each entry of a capture, and a last one.
#![tactic(auto)]

ghost use Rattle.std.specs.Prelude.{◌≡◌};
ghost use Rattle.text.specs.Put.{Put};
ghost use Rattle.line.specs.Lines.{data_line, synchronization_line, discovery_line, refused_line, line_of, last_word, last_line};

use capture::Ending;
use packet::{DataRecord, DiscoveryRecord, Packet, Reading, SynchronizationRecord};
use refusal::Refusal;
use text::Text;

fn put_data(out: &mut Text, n: u64, name: &[u8], x: DataRecord)
    ensures { Put out.old out.new (data_line n name.now x) }
{
    field_text::put_named(out, n, b" data name ", name);
    field_text::put_data_fields(out, x.fields);
    out.put_field(b" values ", x.values.len as u64);
    out.put(b"\n");
}

fn put_synchronization(out: &mut Text, n: u64, x: SynchronizationRecord)
    ensures { Put out.old out.new (synchronization_line n x) }
{
    out.put_decimal(n);
    out.put(b" sync");
    field_text::put_synchronization_fields(out, x.fields);
    out.put(b"\n");
}

fn put_discovery(out: &mut Text, n: u64, name: &[u8], x: DiscoveryRecord)
    ensures { Put out.old out.new (discovery_line n name.now x) }
{
    field_text::put_named(out, n, b" disc name ", name);
    field_text::put_page(out, x.fields);
    out.put_field(b" count ", (x.universes.len / 2) as u64);
    out.put(b"\n");
}

pub fn put_refused(out: &mut Text, n: u64, refusal: Refusal)
    ensures { Put out.old out.new (refused_line n refusal) }
{
    out.put_decimal(n);
    field_text::put_refusal(out, refusal);
    out.put(b"\n");
}

// The line of entry n, which is the datagram of which this is the reading.
pub fn put_line(out: &mut Text, n: u64, datagram: &[u8], reading: Reading)
    ensures { Put out.old out.new (line_of n datagram.now reading) }
{
    match reading.packet {
        Packet::Data(x) => put_data(out, n, parts::name(datagram, reading), x),
        Packet::Synchronization(x) => put_synchronization(out, n, x),
        Packet::Discovery(x) => put_discovery(out, n, parts::name(datagram, reading), x),
        Packet::Refused(r) => put_refused(out, n, r),
    }
}

fn last_word(ending: Ending) -> &'static [u8]
    ensures { result.now ≡ last_word ending }
{
    match ending {
        Ending::End => b"end ",
        Ending::Cut => b"cut ",
        Ending::Bad => b"bad ",
    }
}

// The last line, after n whole entries.
pub fn put_last_line(out: &mut Text, ending: Ending, n: u64)
    ensures { Put out.old out.new (last_line ending n) }
{
    out.put_field(last_word(ending), n);
    out.put(b"\n");
}
