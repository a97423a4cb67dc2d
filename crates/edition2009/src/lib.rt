// A whole datagram as the edition of 2009 reads it: data packets only, and neither the synchronization address
// nor the option to force synchronization.
#![tactic(auto)]

ghost use Rattle.std.specs.Prelude.{◌≡◌};
ghost use Rattle.parts.specs.Parts.{shown_at};
ghost use Rattle.edition2009.specs.Packet.{fields2009_of, data_packet2009_of, packet2009_of, reading2009_of};
ghost use Rattle.edition2009.specs.Parts.{name_span, values_span};

use framing::{OPTIONS_FIELD_INDEX, PRIORITY_INDEX, SEQ_NUM_INDEX, UNIVERSE_INDEX};
use packet::{DataRecord, Reading, Span};
use pdu::Edition;
use refusal::Refusal;
use wire::constants::{E131_PREVIEW_DATA_OPTION_BIT_MASK, E131_STREAM_TERMINATION_OPTION_BIT_MASK};
use wire::layout::{FRAMING_START, PREAMBLE_LENGTH, SOURCE_NAME_START, VALUES_START};

#[repr(C)]
#[derive(Clone, Copy, Default)]
pub struct DataFields2009 {
    pub priority: u8,
    pub sequence_number: u8,
    pub preview_data: bool,
    pub stream_terminated: bool,
    pub universe: u16,
}

// An enum with the CID beside it, as document 01 has it and `Packet` is: `dropped` and `editions` set case beside case.
#[derive(Clone, Copy)]
pub enum Packet2009 {
    Data(DataRecord<DataFields2009>),
    Refused(Refusal),
}

pub type Reading2009 = Reading<Packet2009>;

// The plain fields of the framing layer whose part is p; where it was refused they mean nothing.
fn fields(p: &[u8]) -> DataFields2009
    ensures { result ≡ fields2009_of p.now }
{
    let options = wire::byte_at(p, OPTIONS_FIELD_INDEX);
    DataFields2009 {
        priority: wire::byte_at(p, PRIORITY_INDEX),
        sequence_number: wire::byte_at(p, SEQ_NUM_INDEX),
        preview_data: options / E131_PREVIEW_DATA_OPTION_BIT_MASK % 2 == 1,
        stream_terminated: options / E131_STREAM_TERMINATION_OPTION_BIT_MASK % 2 == 1,
        universe: wire::u16_at(p, UNIVERSE_INDEX),
    }
}

// The framing layer, whose part is p.
fn parse_data(p: &[u8]) -> Packet2009
    ensures { result ≡ data_packet2009_of p.now }
{
    match framing::parse(p, Edition::E2009) {
        Err(r) => Packet2009::Refused(r),
        Ok(layer) => Packet2009::Data(DataRecord {
            fields: fields(p),
            name: Span {
                start: SOURCE_NAME_START,
                len: layer.name,
            },
            values: Span {
                start: VALUES_START,
                len: layer.values,
            },
        }),
    }
}

// A root layer that this edition takes has the vector of a data packet.
fn parse_packet(datagram: &[u8]) -> Packet2009
    ensures { result ≡ packet2009_of datagram.now }
{
    match root::parse(datagram, Edition::E2009) {
        Err(r) => Packet2009::Refused(r),
        Ok(layer) => parse_data(&datagram[FRAMING_START..PREAMBLE_LENGTH + layer.end]),
    }
}

// Reads a datagram, whatever it is. No byte of it is copied but the CID.
pub fn parse(datagram: &[u8]) -> Reading2009
    ensures { result ≡ reading2009_of datagram.now }
{
    match parse_packet(datagram) {
        Packet2009::Refused(r) => Reading {
            cid: [0; 16],
            packet: Packet2009::Refused(r),
        },
        Packet2009::Data(x) => Reading {
            cid: packet::cid(datagram),
            packet: Packet2009::Data(x),
        },
    }
}

// Beside those of `parts`: a trait with both spans, and an impl for each packet, would be longer than these four calls.
fn name_span(packet: Packet2009) -> Span
    ensures { result ≡ name_span packet }
{
    match packet {
        Packet2009::Data(x) => x.name,
        Packet2009::Refused(_) => Span::default(),
    }
}

fn values_span(packet: Packet2009) -> Span
    ensures { result ≡ values_span packet }
{
    match packet {
        Packet2009::Data(x) => x.values,
        Packet2009::Refused(_) => Span::default(),
    }
}

// The name, as the part of the datagram that it occupies; empty where there is none.
pub fn name(datagram: &[u8], reading: Reading2009) -> &[u8]
    ensures { result.now ≡ shown_at datagram.now (name_span reading.packet) }
{
    parts::shown(datagram, name_span(reading.packet))
}

// The values, likewise.
pub fn values(datagram: &[u8], reading: Reading2009) -> &[u8]
    ensures { result.now ≡ shown_at datagram.now (values_span reading.packet) }
{
    parts::shown(datagram, values_span(reading.packet))
}
