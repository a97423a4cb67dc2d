// Packets as the writers put them: a line for each case with the answer, and then the whole buffer, filled with ee before the call.
#![tactic(auto)]

ghost use Rattle.std.specs.Prelude.{◌≡◌, length};

use discovery::DiscoveryFields;
use extended::synchronization::SynchronizationFields;
use framing::DataFields;
use refusal::Refusal;
use std::io;
use text::Text;

const UNTOUCHED: u8 = 0xee;

const MOST_ROOM: usize = 1200;

const LINE_ROOM: usize = 4096;

const CID: [u8; 16] = [1, 2, 3, 4, 5, 6, 7, 8, 9, 10, 11, 12, 13, 14, 15, 16];

fn put_answer(out: &mut Text, packed: Result<usize, Refusal>) {
    match packed {
        Ok(n) => out.put_field(b": packed ", n as u64),
        Err(r) => {
            out.put_field(b": refused ", r.number as u64);
            out.put_field(b" value ", r.value as u64);
        }
    }
}

fn show(
    rt: &impl Print,
    words: &[u8],
    packed: Result<usize, Refusal>,
    buf: &[u8],
) -> io::Result<()> {
    let mut room = [0; LINE_ROOM];
    let mut out = Text::new(&mut room);
    out.put(words);
    put_answer(&mut out, packed);
    out.put(b"\n");
    out.put_hex(buf);
    out.put(b"\n");
    rt.write_all(out.written())
}

fn data_into(
    rt: &impl Print,
    words: &[u8],
    buf: &mut [u8],
    name: &[u8],
    values: &[u8],
    fields: DataFields,
) -> io::Result<()> {
    let packed = pack::pack_data(buf, CID, fields, name, values);
    show(rt, words, packed, buf)
}

fn plain_fields() -> DataFields {
    DataFields {
        priority: 201,
        synchronization_address: 0x1234,
        sequence_number: 7,
        preview_data: false,
        stream_terminated: false,
        force_synchronization: false,
        universe: 0xabcd,
    }
}

// A data packet into a buffer of room bytes.
fn data(rt: &impl Print, words: &[u8], room: usize, name: &[u8], values: &[u8]) -> io::Result<()> {
    let mut space = [UNTOUCHED; MOST_ROOM];
    if room > MOST_ROOM {
        return Ok(());
    }
    data_into(rt, words, &mut space[0..room], name, values, plain_fields())
}

fn option_case(
    rt: &impl Print,
    words: &[u8],
    preview: bool,
    terminated: bool,
    force: bool,
) -> io::Result<()> {
    let mut space = [UNTOUCHED; 126];
    let mut fields = plain_fields();
    fields.preview_data = preview;
    fields.stream_terminated = terminated;
    fields.force_synchronization = force;
    data_into(rt, words, &mut space, b"", b"\x00", fields)
}

fn synchronization(rt: &impl Print, words: &[u8], room: usize) -> io::Result<()> {
    let mut space = [UNTOUCHED; 64];
    if room > 64 {
        return Ok(());
    }
    let fields = SynchronizationFields {
        sequence_number: 7,
        synchronization_address: 8000,
    };
    let buf = &mut space[0..room];
    let packed = pack::pack_synchronization(buf, CID, fields);
    show(rt, words, packed, buf)
}

fn discovery(
    rt: &impl Print,
    words: &[u8],
    room: usize,
    name: &[u8],
    universes: &[u16],
) -> io::Result<()> {
    let mut space = [UNTOUCHED; MOST_ROOM];
    if room > MOST_ROOM {
        return Ok(());
    }
    let fields = DiscoveryFields {
        page: 2,
        last_page: 1,
    };
    let buf = &mut space[0..room];
    let packed = pack::pack_discovery(buf, CID, fields, name, universes);
    show(rt, words, packed, buf)
}

fn names_and_values(rt: &impl Print) -> io::Result<()> {
    let name = [b'n'; 64];
    let values = [0x55; 514];
    data(
        rt,
        b"(l) name of 63 bytes",
        130,
        &name[0..63],
        &values[0..2],
    )?;
    data(rt, b"(l) name of 64 bytes", 130, &name, &values[0..2])?;
    data(rt, b"(m) 513 values", 640, b"FOH", &values[0..513])?;
    data(rt, b"(m) 514 values", 640, b"FOH", &values)?;
    data(rt, b"one value", 130, b"FOH", b"\x00")?;
    data(rt, b"no values", 130, b"FOH", b"")?;
    data(rt, b"no values and one byte too little", 124, b"FOH", b"")?;
    data(rt, b"a name with a zero", 130, b"a\x00b", b"")?;
    data(rt, b"a malformed name", 130, b"FOH\xc3", b"")?;
    discovery(rt, b"disc, a malformed name", 130, b"FOH\xc3", &[1])?;
    data(
        rt,
        b"a name of 64 bytes and one byte too little",
        124,
        &name,
        b"",
    )
}

fn rooms(rt: &impl Print) -> io::Result<()> {
    synchronization(rt, b"sync into 48 bytes", 48)?;
    synchronization(rt, b"sync into 49 bytes", 49)?;
    synchronization(rt, b"sync into 53 bytes", 53)?;
    data(rt, b"data into 127 bytes", 127, b"FOH", b"\x00\x01\x02")?;
    data(rt, b"data into 128 bytes", 128, b"FOH", b"\x00\x01\x02")?;
    data(rt, b"data into 131 bytes", 131, b"FOH", b"\x00\x01\x02")?;
    discovery(rt, b"disc into 123 bytes", 123, b"FOH", &[1, 2])?;
    discovery(rt, b"disc into 124 bytes", 124, b"FOH", &[1, 2])?;
    discovery(rt, b"disc into 127 bytes", 127, b"FOH", &[1, 2])
}

fn options(rt: &impl Print) -> io::Result<()> {
    option_case(rt, b"options 000", false, false, false)?;
    option_case(rt, b"options 001", false, false, true)?;
    option_case(rt, b"options 010", false, true, false)?;
    option_case(rt, b"options 011", false, true, true)?;
    option_case(rt, b"options 100", true, false, false)?;
    option_case(rt, b"options 101", true, false, true)?;
    option_case(rt, b"options 110", true, true, false)?;
    option_case(rt, b"options 111", true, true, true)
}

// One universe more than a packet takes, each 125 above the one before it.
fn many_universes() -> [u16; 513]
    ensures { 513 ≡ length result }
{
    let mut many = [0; 513];
    for (i, u) in many.iter_mut().enumerate() {
        *u = i as u16 * 125;
    }
    many
}

fn universes(rt: &impl Print) -> io::Result<()> {
    let many = many_universes();
    discovery(rt, b"no universes", 121, b"", &many[0..0])?;
    discovery(rt, b"512 universes", 1146, b"FOH", &many[0..512])?;
    discovery(rt, b"513 universes", 1146, b"FOH", &many)?;
    discovery(rt, b"(k) universes 5,5", 124, b"FOH", &[5, 5])?;
    discovery(rt, b"(k) universes 5,3", 124, b"FOH", &[5, 3])?;
    discovery(rt, b"universes 1,5,3,3", 128, b"FOH", &[1, 5, 3, 3])
}

fn main(rt: HostRuntime) -> io::Result<()> {
    names_and_values(&rt)?;
    rooms(&rt)?;
    options(&rt)?;
    universes(&rt)
}
