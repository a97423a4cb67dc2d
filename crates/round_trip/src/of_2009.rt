// The same with the reader of 2009: it returns a data record without the two fields that it does not know, and refuses what was written of
// the other two kinds by the root vector.
ghost use Rattle.std.specs.Prelude.{◌≡◌, ◌≤◌, length};
ghost use Rattle.pack.specs.Writing.{data_length, synchronization_length, discovery_length};
ghost use Rattle.edition2009.specs.Editions.{dropped_fields};
ghost use Rattle.demands.specs.Content2009.{content_with2009, data_content2009, refused_by_vector};
ghost use Rattle.demands.specs.Limits.{ReadableData, ReadableSynchronization, ReadableDiscovery};
ghost use Rattle.round_trip.specs.Trip.{data_packed, synchronization_packed, discovery_packed, data_left, synchronization_left, discovery_left, read_after2009};

use discovery::DiscoveryFields;
use edition2009::{Packet2009, Reading2009};
use extended::synchronization::SynchronizationFields;
use framing::DataFields;
use refusal::Refusal;

// Reads what a write left. A refused write is answered as a refused reading.
fn read_after_2009(packed: Result<usize, Refusal>, buf: &[u8]) -> Reading2009
    ensures { result ≡ read_after2009 packed buf.now }
{
    match packed {
        Err(r) => Reading2009 {
            cid: [0; 16],
            packet: Packet2009::Refused(r),
        },
        Ok(_) => edition2009::parse(buf),
    }
}

pub fn data_trip_2009(
    buf: &mut [u8],
    cid: [u8; 16],
    fields: DataFields,
    name: &[u8],
    values: &[u8],
) -> Reading2009
    ensures answer { result ≡ read_after2009 (data_packed buf.old name.now values.now) buf.new }
    ensures bytes { buf.new ≡ data_left buf.old cid fields name.now values.now }
    ensures returned { ReadableData cid fields name.now values.now → data_length values.now ≤ length buf.old → content_with2009 buf.new result.cid result.packet ≡ data_content2009 cid (dropped_fields fields) name.now values.now }
{
    let packed = pack::pack_data(buf, cid, fields, name, values);
    read_after_2009(packed, buf)
}

pub fn synchronization_trip_2009(
    buf: &mut [u8],
    cid: [u8; 16],
    fields: SynchronizationFields,
) -> Reading2009
    ensures answer { result ≡ read_after2009 (synchronization_packed buf.old) buf.new }
    ensures bytes { buf.new ≡ synchronization_left buf.old cid fields }
    ensures returned { ReadableSynchronization cid fields → synchronization_length ≤ length buf.old → result ≡ refused_by_vector buf.new }
{
    let packed = pack::pack_synchronization(buf, cid, fields);
    read_after_2009(packed, buf)
}

pub fn discovery_trip_2009(
    buf: &mut [u8],
    cid: [u8; 16],
    fields: DiscoveryFields,
    name: &[u8],
    universes: &[u16],
) -> Reading2009
    ensures answer { result ≡ read_after2009 (discovery_packed buf.old name.now universes.now) buf.new }
    ensures bytes { buf.new ≡ discovery_left buf.old cid fields name.now universes.now }
    ensures returned { ReadableDiscovery cid fields name.now universes.now → discovery_length universes.now ≤ length buf.old → result ≡ refused_by_vector buf.new }
{
    let packed = pack::pack_discovery(buf, cid, fields, name, universes);
    read_after_2009(packed, buf)
}
