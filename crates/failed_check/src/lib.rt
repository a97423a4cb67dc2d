// Which check refuses a datagram, and at which byte of it. A reader answers a number and a place. Where several checks
// have both in common, what the reader looked at is looked at again: so reading pays nothing for it.
#![tactic(auto)]

mod data_framing;
mod dmp_layer;
mod extended_framing;
mod outer;
mod universe_list;

ghost use Rattle.std.specs.Prelude.{◌≡◌};
ghost use Rattle.pdu.specs.Head.{length_of};
ghost use Rattle.framing.specs.Data.{data_checks};
ghost use Rattle.extended.specs.Extended.{extended_checks};
ghost use Rattle.failed_check.specs.Tell.{identity, told_by, told_of, framed_checks};

use pdu::Edition;
use refusal::{Identity, Reason, Refusal};
use wire::constants::VECTOR_ROOT_E131_DATA;
use wire::layout::{FRAMING_START, PREAMBLE_LENGTH};

// What the reader answers, and which of its checks it is.
#[derive(Clone, Copy)]
pub struct Fault {
    pub refusal: Refusal,
    pub check: Identity,
}

pub(crate) fn at(reason: Reason, byte: usize) -> Identity
    ensures { result ≡ identity reason byte }
{
    Identity { reason, byte }
}

// The twelve bits of a layer's length, in its part p.
pub(crate) fn layer_length(p: &[u8]) -> usize
    ensures { result ≡ length_of p.now }
{
    (wire::u16_at(p, 0) % 0x1000) as usize
}

// The framing layer of a data packet, whose part is p.
fn tell_data(p: &[u8], edition: Edition) -> Option<Fault>
    ensures { result ≡ told_by (data_checks edition p.now) }
{
    match framing::parse(p, edition) {
        Ok(_) => None,
        Err(refusal) => {
            let check = crate::data_framing::find(p, edition, refusal);
            Some(Fault { refusal, check })
        }
    }
}

// The framing layer under the extended root vector, whose part is p; root's part has `whole` bytes.
fn tell_extended(p: &[u8], whole: usize) -> Option<Fault>
    ensures { result ≡ told_by (extended_checks whole p.now) }
{
    match extended::parse(p, whole) {
        Ok(_) => None,
        Err(refusal) => {
            let check = crate::extended_framing::find(p, whole, refusal);
            Some(Fault { refusal, check })
        }
    }
}

// The framing layer that edition and root vector name.
fn tell_framing(p: &[u8], edition: Edition, vector: u32, whole: usize) -> Option<Fault>
    ensures { result ≡ told_by (framed_checks edition vector whole p.now) }
{
    match edition {
        Edition::E2009 => tell_data(p, Edition::E2009),
        Edition::E2018 => {
            if vector == VECTOR_ROOT_E131_DATA {
                tell_data(p, Edition::E2018)
            } else {
                tell_extended(p, whole)
            }
        }
    }
}

// Tells the check that refuses a datagram, or that none does.
pub fn tell(datagram: &[u8], edition: Edition) -> Option<Fault>
    ensures { result ≡ told_of edition datagram.now }
{
    match root::parse(datagram, edition) {
        Err(refusal) => {
            let check = crate::outer::find(datagram, edition, refusal);
            Some(Fault { refusal, check })
        }
        Ok(layer) => {
            let part = &datagram[FRAMING_START..PREAMBLE_LENGTH + layer.end];
            tell_framing(
                part,
                edition,
                layer.vector,
                datagram.len() - PREAMBLE_LENGTH,
            )
        }
    }
}
