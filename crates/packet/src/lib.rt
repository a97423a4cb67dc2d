// A whole datagram: what it is read as.
#![tactic(auto)]

ghost use Rattle.std.specs.Prelude.{◌≡◌};
ghost use Rattle.packet.specs.Packet.{data_packet_of, extended_packet_of, packet_of, cid_in, reading_of};

use discovery::DiscoveryFields;
use extended::Extended;
use extended::synchronization::SynchronizationFields;
use framing::DataFields;
use pdu::Edition;
use refusal::Refusal;
use wire::constants::{E131_CID_FIELD_LENGTH, VECTOR_ROOT_E131_DATA};
use wire::layout::{
    CID_START, FRAMING_START, PREAMBLE_LENGTH, SOURCE_NAME_START, UNIVERSES_START, VALUES_START,
};

// Where something stands in a datagram.
#[repr(C)]
#[derive(Clone, Copy, Default)]
pub struct Span {
    pub start: usize,
    pub len: usize,
}

// Each edition has fields of its own.
#[derive(Clone, Copy)]
pub struct DataRecord<F = DataFields> {
    pub fields: F,
    pub name: Span,
    pub values: Span,
}

#[derive(Clone, Copy)]
pub struct SynchronizationRecord {
    pub fields: SynchronizationFields,
}

// The universes are numbers of two bytes each.
#[derive(Clone, Copy)]
pub struct DiscoveryRecord {
    pub fields: DiscoveryFields,
    pub name: Span,
    pub universes: Span,
}

// An enum of four answers with the CID beside it, as document 01 has it: `editions` of edition2009 and the demands speak
// of its cases.
#[derive(Clone, Copy)]
pub enum Packet {
    Data(DataRecord),
    Synchronization(SynchronizationRecord),
    Discovery(DiscoveryRecord),
    Refused(Refusal),
}

// The sender's CID stands beside what was read; it is sixteen zeros at a refusal.
#[derive(Clone, Copy)]
pub struct Reading<P = Packet> {
    pub cid: [u8; 16],
    pub packet: P,
}

// The framing layer of a data packet, whose part is p.
fn parse_data(p: &[u8]) -> Packet
    ensures { result ≡ data_packet_of p.now }
{
    match framing::parse(p, Edition::E2018) {
        Err(r) => Packet::Refused(r),
        Ok(layer) => Packet::Data(DataRecord {
            fields: framing::fields(p),
            name: Span {
                start: SOURCE_NAME_START,
                len: layer.name,
            },
            values: Span {
                start: VALUES_START,
                len: layer.values,
            },
        }),
    }
}

// The framing layer under the extended root vector, whose part is p; root's part has `whole` bytes.
fn parse_extended(p: &[u8], whole: usize) -> Packet
    ensures { result ≡ extended_packet_of whole p.now }
{
    match extended::parse(p, whole) {
        Err(r) => Packet::Refused(r),
        Ok(Extended::Synchronization(fields)) => {
            Packet::Synchronization(SynchronizationRecord { fields })
        }
        Ok(Extended::Discovery(layer)) => Packet::Discovery(DiscoveryRecord {
            fields: layer.fields,
            name: Span {
                start: SOURCE_NAME_START,
                len: layer.name,
            },
            universes: Span {
                start: UNIVERSES_START,
                len: 2 * layer.universes as usize,
            },
        }),
    }
}

// What a datagram is read as, without the CID.
pub fn parse_packet(datagram: &[u8]) -> Packet
    ensures { result ≡ packet_of datagram.now }
{
    match root::parse(datagram, Edition::E2018) {
        Err(r) => Packet::Refused(r),
        Ok(layer) => {
            let part = &datagram[FRAMING_START..PREAMBLE_LENGTH + layer.end];
            if layer.vector == VECTOR_ROOT_E131_DATA {
                parse_data(part)
            } else {
                parse_extended(part, datagram.len() - PREAMBLE_LENGTH)
            }
        }
    }
}

// The bytes at a datagram's CID, or zeros where it is too short for one.
pub fn cid(datagram: &[u8]) -> [u8; 16]
    ensures { result ≡ cid_in datagram.now }
{
    let mut bytes = [0; 16];
    wire::copy(
        &mut bytes,
        0,
        wire::part(datagram, CID_START, E131_CID_FIELD_LENGTH),
    );
    bytes
}

// Reads a datagram, whatever it is. No byte of it is copied but the CID.
pub fn parse(datagram: &[u8]) -> Reading
    ensures { result ≡ reading_of datagram.now }
{
    match parse_packet(datagram) {
        Packet::Refused(r) => Reading {
            cid: [0; 16],
            packet: Packet::Refused(r),
        },
        Packet::Data(x) => Reading {
            cid: cid(datagram),
            packet: Packet::Data(x),
        },
        Packet::Synchronization(x) => Reading {
            cid: cid(datagram),
            packet: Packet::Synchronization(x),
        },
        Packet::Discovery(x) => Reading {
            cid: cid(datagram),
            packet: Packet::Discovery(x),
        },
    }
}
