// Answers as Rust and C take them: the C interface knows no enum that carries values, no Option and no Result. So an enum
// is a number and, beside it, the record of every case, with zeros in those that the number does not name.
#![tactic(auto)]

ghost use Rattle.std.specs.Prelude.{◌≡◌};
ghost use Rattle.c_answers.specs.Answers.{found_of, found2009_of, outcome_of, refusal_of, address_of};

use discovery::DiscoveryFields;
use edition2009::{DataFields2009, Packet2009, Reading2009};
use extended::synchronization::SynchronizationFields;
use framing::DataFields;
use packet::{Packet, Reading, Span};
use refusal::Refusal;
use universe::Ipv4Address;

// The kinds of packet.
const REFUSED: u8 = 0;

const DATA: u8 = 1;

const SYNCHRONIZATION: u8 = 2;

const DISCOVERY: u8 = 3;

#[repr(C)]
#[derive(Clone, Copy, Default)]
pub struct Found {
    pub kind: u8,
    pub cid: [u8; 16],
    pub refusal: Refusal,
    pub data_fields: DataFields,
    pub synchronization_fields: SynchronizationFields,
    pub discovery_fields: DiscoveryFields,
    pub name: Span,
    pub values: Span,
    pub universes: Span,
}

#[repr(C)]
#[derive(Clone, Copy, Default)]
pub struct Found2009 {
    pub kind: u8,
    pub cid: [u8; 16],
    pub refusal: Refusal,
    pub data_fields: DataFields2009,
    pub name: Span,
    pub values: Span,
}

// The plain part of a packet that is to be written.
#[repr(C)]
#[derive(Clone, Copy)]
pub struct DataHeader {
    pub cid: [u8; 16],
    pub fields: DataFields,
}

#[repr(C)]
#[derive(Clone, Copy)]
pub struct SynchronizationHeader {
    pub cid: [u8; 16],
    pub fields: SynchronizationFields,
}

#[repr(C)]
#[derive(Clone, Copy)]
pub struct DiscoveryHeader {
    pub cid: [u8; 16],
    pub fields: DiscoveryFields,
}

// How many bytes or numbers were written; none at a refusal. A refusal's number is 0 where there is none.
#[repr(C)]
#[derive(Clone, Copy, Default)]
pub struct Outcome {
    pub refusal: Refusal,
    pub count: usize,
}

#[repr(C)]
#[derive(Clone, Copy, Default)]
pub struct Address {
    pub refusal: Refusal,
    pub address: Ipv4Address,
}

pub fn flatten(reading: Reading) -> Found
    ensures { result ≡ found_of reading }
{
    let cid = reading.cid;
    // A value of its own: matched in its place it would be copied by calls.
    let packet = reading.packet;
    match packet {
        Packet::Data(x) => Found {
            kind: DATA,
            cid,
            data_fields: x.fields,
            name: x.name,
            values: x.values,
            ..Found::default()
        },
        Packet::Synchronization(x) => Found {
            kind: SYNCHRONIZATION,
            cid,
            synchronization_fields: x.fields,
            ..Found::default()
        },
        Packet::Discovery(x) => Found {
            kind: DISCOVERY,
            cid,
            discovery_fields: x.fields,
            name: x.name,
            universes: x.universes,
            ..Found::default()
        },
        Packet::Refused(refusal) => Found {
            kind: REFUSED,
            refusal,
            ..Found::default()
        },
    }
}

pub fn flatten_2009(reading: Reading2009) -> Found2009
    ensures { result ≡ found2009_of reading }
{
    let cid = reading.cid;
    match reading.packet {
        Packet2009::Data(x) => Found2009 {
            kind: DATA,
            cid,
            data_fields: x.fields,
            name: x.name,
            values: x.values,
            ..Found2009::default()
        },
        Packet2009::Refused(refusal) => Found2009 {
            kind: REFUSED,
            refusal,
            ..Found2009::default()
        },
    }
}

// Of a write or a copy.
pub fn outcome_of(answer: Result<usize, Refusal>) -> Outcome
    ensures { result ≡ outcome_of answer }
{
    match answer {
        Ok(count) => Outcome {
            count,
            ..Outcome::default()
        },
        Err(refusal) => Outcome {
            refusal,
            ..Outcome::default()
        },
    }
}

pub fn refusal_of(checked: Result<(), Refusal>) -> Refusal
    ensures { result ≡ refusal_of checked }
{
    match checked {
        Ok(()) => Refusal::default(),
        Err(refusal) => refusal,
    }
}

pub fn address_of(multicast: Result<Ipv4Address, Refusal>) -> Address
    ensures { result ≡ address_of multicast }
{
    match multicast {
        Ok(address) => Address {
            address,
            ..Address::default()
        },
        Err(refusal) => Address {
            refusal,
            ..Address::default()
        },
    }
}
