// Which universes have a multicast address, and which address that is.
#![tactic(auto)]

ghost use Rattle.std.specs.Prelude.{◌≡◌};
ghost use Rattle.refusal.specs.Check.{checked_of};
ghost use Rattle.universe.specs.Universe.{universe_checks, multicast_of};

use refusal::Refusal;
use wire::constants::{
    ACN_SDT_MULTICAST_PORT, E131_DISCOVERY_UNIVERSE, E131_MAX_MULTICAST_UNIVERSE,
    E131_MIN_MULTICAST_UNIVERSE, E131_MULTICAST_IPV4_HIGHEST_BYTE, E131_MULTICAST_IPV4_SECOND_BYTE,
};

// Four bytes of an IPv4 address, highest first, and a port.
#[repr(C)]
#[derive(Clone, Copy, Default)]
pub struct Ipv4Address {
    pub highest: u8,
    pub second: u8,
    pub third: u8,
    pub lowest: u8,
    pub port: u16,
}

pub fn is_universe_in_range(universe: u16) -> Result<(), Refusal>
    ensures { result ≡ checked_of (universe_checks universe) }
{
    if universe == E131_DISCOVERY_UNIVERSE {
        return Ok(());
    }
    if universe < E131_MIN_MULTICAST_UNIVERSE || E131_MAX_MULTICAST_UNIVERSE < universe {
        return refusal::refuse(
            refusal::NO_MULTICAST_ADDRESS,
            refusal::NOWHERE,
            universe as u32,
        );
    }
    Ok(())
}

pub fn universe_to_ipv4_multicast_addr(universe: u16) -> Result<Ipv4Address, Refusal>
    ensures { result ≡ multicast_of universe }
{
    is_universe_in_range(universe)?;
    let [third, lowest] = universe.to_be_bytes();
    Ok(Ipv4Address {
        highest: E131_MULTICAST_IPV4_HIGHEST_BYTE,
        second: E131_MULTICAST_IPV4_SECOND_BYTE,
        third,
        lowest,
        port: ACN_SDT_MULTICAST_PORT,
    })
}
