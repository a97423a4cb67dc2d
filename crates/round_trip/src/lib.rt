// There and back in code: a packet is written into the buffer, and the buffer is read as it is then. `answer` and `bytes` say what is
// answered and left on every input, `returned` what was demanded: a record within the readable limits comes back.
#![tactic(auto)]

mod of_2009;

ghost use Rattle.std.specs.Prelude.{◌≡◌, ◌++◌, ◌≤◌, length, drop, Ok};
ghost use Rattle.pack.specs.Writing.{data_length, synchronization_length, discovery_length};
ghost use Rattle.demands.specs.Content.{content_of, data_content, synchronization_content, discovery_content};
ghost use Rattle.demands.specs.Limits.{ReadableData, ReadableSynchronization, ReadableDiscovery};
ghost use Rattle.round_trip.specs.Trip.{data_packed, synchronization_packed, discovery_packed, data_left, synchronization_left, discovery_left, read_after, copied_after, out_after};

use discovery::DiscoveryFields;
use extended::synchronization::SynchronizationFields;
use framing::DataFields;
pub use of_2009::{data_trip_2009, discovery_trip_2009, synchronization_trip_2009};
use packet::{Packet, Reading};
use refusal::Refusal;

// Reads what a write left. A refused write is answered as a refused reading.
fn read_after(packed: Result<usize, Refusal>, buf: &[u8]) -> Reading
    ensures { result ≡ read_after packed buf.now }
{
    match packed {
        Err(r) => Reading {
            cid: [0; 16],
            packet: Packet::Refused(r),
        },
        Ok(_) => packet::parse(buf),
    }
}

pub fn data_trip(
    buf: &mut [u8],
    cid: [u8; 16],
    fields: DataFields,
    name: &[u8],
    values: &[u8],
) -> Reading
    ensures answer { result ≡ read_after (data_packed buf.old name.now values.now) buf.new }
    ensures bytes { buf.new ≡ data_left buf.old cid fields name.now values.now }
    ensures returned { ReadableData cid fields name.now values.now → data_length values.now ≤ length buf.old → content_of buf.new result ≡ data_content cid fields name.now values.now }
{
    let packed = pack::pack_data(buf, cid, fields, name, values);
    read_after(packed, buf)
}

pub fn synchronization_trip(buf: &mut [u8], cid: [u8; 16], fields: SynchronizationFields) -> Reading
    ensures answer { result ≡ read_after (synchronization_packed buf.old) buf.new }
    ensures bytes { buf.new ≡ synchronization_left buf.old cid fields }
    ensures returned { ReadableSynchronization cid fields → synchronization_length ≤ length buf.old → content_of buf.new result ≡ synchronization_content cid fields }
{
    let packed = pack::pack_synchronization(buf, cid, fields);
    read_after(packed, buf)
}

pub fn discovery_trip(
    buf: &mut [u8],
    cid: [u8; 16],
    fields: DiscoveryFields,
    name: &[u8],
    universes: &[u16],
) -> Reading
    ensures answer { result ≡ read_after (discovery_packed buf.old name.now universes.now) buf.new }
    ensures bytes { buf.new ≡ discovery_left buf.old cid fields name.now universes.now }
    ensures returned { ReadableDiscovery cid fields name.now universes.now → discovery_length universes.now ≤ length buf.old → content_of buf.new result ≡ discovery_content cid fields name.now universes.now }
{
    let packed = pack::pack_discovery(buf, cid, fields, name, universes);
    read_after(packed, buf)
}

// The universes of the written packet are copied out of the buffer, and the numbers behind them stay as found.
pub fn universes_trip(
    buf: &mut [u8],
    cid: [u8; 16],
    fields: DiscoveryFields,
    name: &[u8],
    universes: &[u16],
    out: &mut [u16],
) -> Result<usize, Refusal>
    ensures answer { result ≡ copied_after (discovery_packed buf.old name.now universes.now) buf.new (length out.old) }
    ensures bytes { buf.new ≡ discovery_left buf.old cid fields name.now universes.now }
    ensures numbers { out.new ≡ out_after result buf.new out.old }
    ensures returned { ReadableDiscovery cid fields name.now universes.now → discovery_length universes.now ≤ length buf.old → length universes.now ≤ length out.old → (result ≡ Ok (length universes.now)) × (out.new ≡ universes.now ++ drop (length universes.now) out.old) }
{
    pack::pack_discovery(buf, cid, fields, name, universes)?;
    parts::copy_universes(buf, out)
}
