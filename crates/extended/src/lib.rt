// The framing layers under the extended root vector: what is told before the kind of packet is known.
#![tactic(auto)]

pub mod synchronization;
pub mod universe_discovery;

ghost use Rattle.std.specs.Prelude.{◌≡◌};
ghost use Rattle.extended.specs.Extended.{extended_of, body_of};

use crate::synchronization::SynchronizationFields;
use crate::universe_discovery::DiscoveryFraming;
use pdu::VectorLength;
use refusal::Refusal;
use wire::constants::{VECTOR_E131_EXTENDED_DISCOVERY, VECTOR_E131_EXTENDED_SYNCHRONIZATION};

#[derive(Clone, Copy)]
pub enum Extended {
    Synchronization(SynchronizationFields),
    Discovery(DiscoveryFraming),
}

// The checks after the layer's start. The length is first held against root's whole part, `whole` bytes.
fn parse_body(p: &[u8], whole: usize, length: u16, vector: u32) -> Result<Extended, Refusal>
    ensures { result ≡ body_of whole p.now length vector }
{
    if whole < length as usize {
        return refusal::refuse(refusal::LENGTH_BEYOND_PART, refusal::FRAMING, length as u32);
    }
    if vector == VECTOR_E131_EXTENDED_SYNCHRONIZATION {
        let fields = crate::synchronization::parse(p, length)?;
        return Ok(Extended::Synchronization(fields));
    }
    if vector == VECTOR_E131_EXTENDED_DISCOVERY {
        // As a match: `?` would move the layer through memory.
        return match crate::universe_discovery::parse(p, length) {
            Err(r) => Err(r),
            Ok(layer) => Ok(Extended::Discovery(layer)),
        };
    }
    refusal::refuse(refusal::INVALID_VECTOR, refusal::FRAMING, vector)
}

// Reads the layer whose part is p.
pub fn parse(p: &[u8], whole: usize) -> Result<Extended, Refusal>
    ensures { result ≡ extended_of whole p.now }
{
    let info = pdu::pdu_info(p, VectorLength::Four, refusal::FRAMING)?;
    parse_body(p, whole, info.length, info.vector)
}
