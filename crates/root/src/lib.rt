// The preamble and the root layer, in both editions.
#![tactic(auto)]

ghost use Rattle.std.specs.Prelude.{◌≡◌, Err};
ghost use Rattle.refusal.specs.Check.{refusal, checked_of, preamble as preamble_place};
ghost use Rattle.root.specs.Root.{preamble_checks, vector_checks, body_of, layer_of, root_of};

use pdu::{Edition, VectorLength};
use refusal::Refusal;
use wire::constants::{
    E131_POSTAMBLE_SIZE, E131_PREAMBLE_SIZE, VECTOR_ROOT_E131_DATA, VECTOR_ROOT_E131_EXTENDED,
};
use wire::layout::{PREAMBLE_LENGTH, ROOT_LENGTH};

// "ASC-E1.17" and three zeros, four bytes at a time.
const ACN_PACKET_IDENTIFIER_START: u32 = 0x4153_432d;

const ACN_PACKET_IDENTIFIER_MIDDLE: u32 = 0x4531_2e31;

const ACN_PACKET_IDENTIFIER_END: u32 = 0x3700_0000;

// A root layer that is read: its vector, and where it ends, from its own first byte.
#[derive(Clone, Copy)]
pub struct RootLayer {
    pub vector: u32,
    pub end: usize,
}

// The preamble's place, said once: at each refusal it would be no plainer.
fn refuse_preamble<T>(number: u8) -> Result<T, Refusal>
    ensures { result ≡ Err (refusal number preamble_place 0) }
{
    refusal::refuse(number, refusal::PREAMBLE, 0)
}

fn check_preamble(datagram: &[u8]) -> Result<(), Refusal>
    ensures { result ≡ checked_of (preamble_checks datagram.now) }
{
    if datagram.len() < PREAMBLE_LENGTH {
        return refuse_preamble(refusal::PART_TOO_SHORT);
    }
    if wire::u16_at(datagram, 0) != E131_PREAMBLE_SIZE {
        return refuse_preamble(refusal::INVALID_DATA);
    }
    if wire::u16_at(datagram, 2) != E131_POSTAMBLE_SIZE {
        return refuse_preamble(refusal::INVALID_DATA);
    }
    if wire::u32_at(datagram, 4) != ACN_PACKET_IDENTIFIER_START {
        return refuse_preamble(refusal::INVALID_DATA);
    }
    if wire::u32_at(datagram, 8) != ACN_PACKET_IDENTIFIER_MIDDLE {
        return refuse_preamble(refusal::INVALID_DATA);
    }
    if wire::u32_at(datagram, 12) != ACN_PACKET_IDENTIFIER_END {
        return refuse_preamble(refusal::INVALID_DATA);
    }
    Ok(())
}

// The 2009 edition knows data packets only.
fn check_vector(vector: u32, edition: Edition) -> Result<(), Refusal>
    ensures { result ≡ checked_of (vector_checks edition vector) }
{
    if vector == VECTOR_ROOT_E131_DATA {
        return Ok(());
    }
    let refused = refusal::refuse(refusal::INVALID_VECTOR, refusal::ROOT, vector);
    match edition {
        Edition::E2009 => refused,
        Edition::E2018 => {
            if vector == VECTOR_ROOT_E131_EXTENDED {
                return Ok(());
            }
            refused
        }
    }
}

// The checks after the layer's start.
fn parse_body(p: &[u8], edition: Edition, length: u16, vector: u32) -> Result<RootLayer, Refusal>
    ensures { result ≡ body_of edition p.now length vector }
{
    let end = length as usize;
    if p.len() < end {
        return refusal::refuse(refusal::LENGTH_BEYOND_PART, refusal::ROOT, length as u32);
    }
    check_vector(vector, edition)?;
    if end < ROOT_LENGTH {
        return refusal::refuse(refusal::MISSING_FIELD, refusal::ROOT, 0);
    }
    Ok(RootLayer { vector, end })
}

fn parse_layer(p: &[u8], edition: Edition) -> Result<RootLayer, Refusal>
    ensures { result ≡ layer_of edition p.now }
{
    let info = pdu::pdu_info(p, VectorLength::Four, refusal::ROOT)?;
    parse_body(p, edition, info.length, info.vector)
}

// Reads the preamble and the layer.
pub fn parse(datagram: &[u8], edition: Edition) -> Result<RootLayer, Refusal>
    ensures { result ≡ root_of edition datagram.now }
{
    check_preamble(datagram)?;
    parse_layer(&datagram[PREAMBLE_LENGTH..], edition)
}
