// A packet that is written: how long it is, and the whole buffer; or the refusal, and whether the buffer was kept.
ghost use Rattle.std.specs.Prelude.{◌<◌};

use discovery::DiscoveryFields;
use extended::synchronization::SynchronizationFields;
use framing::DataFields;
use refusal::Refusal;
use text::Text;

// What a buffer is filled with before the call, so that a byte left alone can be told.
pub const UNTOUCHED: u8 = 0xee;

pub const MOST_ROOM: usize = 2048;

// No entry has room for more.
const MOST_LISTED: usize = 4096;

// A request: the buffer's length, the CID, a packet's own fields, and for two of the kinds a name with its length in
// front, and a list up to the end.
const CID: usize = 2;

const FIELDS: usize = 18;

const DATA_NAME: usize = 25;

const DISCOVERY_NAME: usize = 20;

// What is written.
#[derive(Clone, Copy)]
pub enum Kind {
    Data,
    Synchronization,
    Discovery,
}

// Why nothing is: the writer refuses, or the probe has no room for the list.
#[derive(Clone, Copy)]
pub enum Unpacked {
    Refused(Refusal),
    TooLong,
}

pub fn room(asked: &[u8]) -> usize {
    wire::u16_at(asked, 0) as usize
}

fn cid(asked: &[u8]) -> [u8; 16] {
    let mut bytes = [0; 16];
    wire::copy(&mut bytes, 0, wire::part(asked, CID, 16));
    bytes
}

fn name_at(asked: &[u8], at: usize) -> &[u8]
    requires { at < 256 }
{
    wire::part(asked, at + 1, wire::byte_at(asked, at) as usize)
}

// What stands behind a name.
fn list_at(asked: &[u8], at: usize) -> &[u8]
    requires { at < 256 }
{
    let start = at + 1 + wire::byte_at(asked, at) as usize;
    if asked.len() < start {
        return &asked[0..0];
    }
    &asked[start..]
}

fn data_fields(asked: &[u8]) -> DataFields {
    let options = wire::byte_at(asked, FIELDS + 4);
    DataFields {
        priority: wire::byte_at(asked, FIELDS),
        synchronization_address: wire::u16_at(asked, FIELDS + 1),
        sequence_number: wire::byte_at(asked, FIELDS + 3),
        preview_data: options / 0x80 % 2 == 1,
        stream_terminated: options / 0x40 % 2 == 1,
        force_synchronization: options / 0x20 % 2 == 1,
        universe: wire::u16_at(asked, FIELDS + 5),
    }
}

fn is_kept(buf: &[u8]) -> bool {
    buf.iter().all(|b| *b == UNTOUCHED)
}

fn pack_data(asked: &[u8], buf: &mut [u8]) -> Result<usize, Refusal> {
    pack::pack_data(
        buf,
        cid(asked),
        data_fields(asked),
        name_at(asked, DATA_NAME),
        list_at(asked, DATA_NAME),
    )
}

fn pack_synchronization(asked: &[u8], buf: &mut [u8]) -> Result<usize, Refusal> {
    let fields = SynchronizationFields {
        sequence_number: wire::byte_at(asked, FIELDS),
        synchronization_address: wire::u16_at(asked, FIELDS + 1),
    };
    pack::pack_synchronization(buf, cid(asked), fields)
}

fn pack_discovery(asked: &[u8], buf: &mut [u8]) -> Result<usize, Unpacked> {
    let fields = DiscoveryFields {
        page: wire::byte_at(asked, FIELDS),
        last_page: wire::byte_at(asked, FIELDS + 1),
    };
    let list = list_at(asked, DISCOVERY_NAME);
    let count = list.len() / 2;
    if MOST_LISTED < count {
        return Err(Unpacked::TooLong);
    }
    let mut universes = [0; MOST_LISTED];
    discovery::copy_universes(list, &mut universes);
    pack::pack_discovery(
        buf,
        cid(asked),
        fields,
        name_at(asked, DISCOVERY_NAME),
        &universes[0..count],
    )
    .map_err(Unpacked::Refused)
}

// Packs what is asked into a buffer.
pub fn pack(kind: Kind, asked: &[u8], buf: &mut [u8]) -> Result<usize, Unpacked> {
    match kind {
        Kind::Data => pack_data(asked, buf).map_err(Unpacked::Refused),
        Kind::Synchronization => pack_synchronization(asked, buf).map_err(Unpacked::Refused),
        Kind::Discovery => pack_discovery(asked, buf),
    }
}

// `N packed L B`; or a refusal's line with a word more; or `N too long`.
pub fn put_packed(out: &mut Text, n: u64, packed: Result<usize, Unpacked>, buf: &[u8]) {
    out.put_decimal(n);
    match packed {
        Ok(len) => {
            out.put_field(b" packed ", len as u64);
            out.put(b" ");
            out.put_hex(buf);
            out.put(b"\n");
        }
        Err(Unpacked::Refused(r)) => {
            field_text::put_refusal(out, r);
            out.put(if is_kept(buf) {
                b" kept\n"
            } else {
                b" spoilt\n"
            });
        }
        Err(Unpacked::TooLong) => out.put(b" too long\n"),
    }
}
