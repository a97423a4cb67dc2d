// What a reading says beside its parts: of what kind the packet is, and its plain fields.
ghost use Rattle.std.specs.Prelude.{◌≡◌};
ghost use Rattle.parts.specs.Plain.{kind_of, fields_of, plain_of};

use discovery::DiscoveryFields;
use extended::synchronization::SynchronizationFields;
use framing::DataFields;
use packet::{Packet, Reading};
use refusal::Refusal;

// The four answers of `Packet`, which document 01 has as one enum: the kinds, and then each with its plain fields.
#[derive(Clone, Copy)]
pub enum Kind {
    Data,
    Synchronization,
    Discovery,
    Refused,
}

#[derive(Clone, Copy)]
pub enum Fields {
    Data(DataFields),
    Synchronization(SynchronizationFields),
    Discovery(DiscoveryFields),
    Refused(Refusal),
}

// A record without its spans.
#[derive(Clone, Copy)]
pub struct Plain {
    pub cid: [u8; 16],
    pub fields: Fields,
}

pub fn kind_of(reading: Reading) -> Kind
    ensures { result ≡ kind_of reading.packet }
{
    match reading.packet {
        Packet::Data(_) => Kind::Data,
        Packet::Synchronization(_) => Kind::Synchronization,
        Packet::Discovery(_) => Kind::Discovery,
        Packet::Refused(_) => Kind::Refused,
    }
}

fn fields_of(packet: Packet) -> Fields
    ensures { result ≡ fields_of packet }
{
    match packet {
        Packet::Data(x) => Fields::Data(x.fields),
        Packet::Synchronization(x) => Fields::Synchronization(x.fields),
        Packet::Discovery(x) => Fields::Discovery(x.fields),
        Packet::Refused(r) => Fields::Refused(r),
    }
}

pub fn plain_of(reading: Reading) -> Plain
    ensures { result ≡ plain_of reading }
{
    let cid = reading.cid;
    Plain {
        cid,
        fields: fields_of(reading.packet),
    }
}
