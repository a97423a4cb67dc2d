// What is read of a handful of datagrams: a line with the case, the kind and the CID, one with the plain fields, and
// one with the name and the values as a viewer shows them.
#![tactic(auto)]

use discovery::DiscoveryFields;
use extended::synchronization::SynchronizationFields;
use framing::DataFields;
use parts::plain::{Fields, Kind};
use std::io;
use text::Text;

const LINE_ROOM: usize = 4096;

const CID: [u8; 16] = [1, 2, 3, 4, 5, 6, 7, 8, 9, 10, 11, 12, 13, 14, 15, 16];

// A place in a name field behind the name, and the place of the priority.
const BEHIND_THE_NAME: usize = 60;

const PRIORITY: usize = 108;

fn put_kind(out: &mut Text, kind: Kind) {
    match kind {
        Kind::Data => out.put(b": data"),
        Kind::Synchronization => out.put(b": synchronization"),
        Kind::Discovery => out.put(b": discovery"),
        Kind::Refused => out.put(b": refused"),
    }
}

fn put_fields(out: &mut Text, fields: Fields) {
    match fields {
        Fields::Data(x) => field_text::put_data_fields(out, x),
        Fields::Synchronization(x) => field_text::put_synchronization_fields(out, x),
        Fields::Discovery(x) => field_text::put_page(out, x),
        Fields::Refused(r) => field_text::put_refusal(out, r),
    }
}

fn show(rt: &impl Print, words: &[u8], datagram: &[u8]) -> io::Result<()> {
    let reading = packet::parse(datagram);
    let plain = parts::plain::plain_of(reading);
    let mut room = [0; LINE_ROOM];
    let mut out = Text::new(&mut room);
    out.put(words);
    put_kind(&mut out, parts::plain::kind_of(reading));
    out.put(b" from ");
    out.put_hex(&plain.cid);
    out.put(b"\n");
    put_fields(&mut out, plain.fields);
    out.put(b"\n name ");
    out.put_hex(view::viewed_name(datagram));
    out.put(b" values ");
    out.put_hex(view::viewed_values(datagram));
    out.put(b"\n");
    rt.write_all(out.written())
}

fn data_cases(rt: &impl Print) -> io::Result<()> {
    let mut buf = [0xee; 140];
    let fields = DataFields {
        priority: 100,
        synchronization_address: 8000,
        sequence_number: 7,
        preview_data: false,
        stream_terminated: true,
        force_synchronization: false,
        universe: 63999,
    };
    let _ = pack::pack_data(&mut buf, CID, fields, b"F\xc3\xb6H", b"\x00\x01\xff");
    show(rt, b"a name and three values", wire::part(&buf, 0, 128))?;
    show(rt, b"the same, and bytes behind the packet", &buf)?;
    show(rt, b"the same, one byte short", wire::part(&buf, 0, 127))?;
    wire::copy(&mut buf, BEHIND_THE_NAME, b"\x55");
    show(
        rt,
        b"the same, and a byte behind the name",
        wire::part(&buf, 0, 128),
    )?;
    wire::copy(&mut buf, PRIORITY, &[201]);
    show(rt, b"the same, priority 201", wire::part(&buf, 0, 128))
}

fn bare_case(rt: &impl Print) -> io::Result<()> {
    let mut buf = [0xee; 126];
    let fields = DataFields {
        priority: 0,
        synchronization_address: 0,
        sequence_number: 255,
        preview_data: true,
        stream_terminated: false,
        force_synchronization: true,
        universe: 1,
    };
    let _ = pack::pack_data(&mut buf, CID, fields, b"", b"\x00");
    show(rt, b"no name and a start code alone", &buf)
}

fn synchronization_case(rt: &impl Print) -> io::Result<()> {
    let mut buf = [0xee; 49];
    let fields = SynchronizationFields {
        sequence_number: 7,
        synchronization_address: 8000,
    };
    let _ = pack::pack_synchronization(&mut buf, CID, fields);
    show(rt, b"a sync packet", &buf)
}

fn discovery_case(rt: &impl Print) -> io::Result<()> {
    let mut buf = [0xee; 124];
    let fields = DiscoveryFields {
        page: 1,
        last_page: 2,
    };
    let _ = pack::pack_discovery(&mut buf, CID, fields, b"FOH", &[5, 9]);
    show(rt, b"a name and two universes", &buf)
}

fn main(rt: HostRuntime) -> io::Result<()> {
    data_cases(&rt)?;
    bare_case(&rt)?;
    synchronization_case(&rt)?;
    discovery_case(&rt)?;
    show(&rt, b"nothing", b"")
}
