// What Rust and C link, under the names of the proved calls of `ledgerwren`, each of which it hands on.
#![tactic(auto)]

ghost use Rattle.std.specs.Prelude.{◌≡◌, length};
ghost use Rattle.refusal.specs.Check.{checked_of};
ghost use Rattle.universe.specs.Universe.{universe_checks, multicast_of};
ghost use Rattle.packet.specs.Packet.{packet_of, reading_of};
ghost use Rattle.parts.specs.Parts.{copied_of, universes_in, after_copy};
ghost use Rattle.pack.specs.Writing.{data_bytes, synchronization_bytes, discovery_bytes, after_pack};
ghost use Rattle.edition2009.specs.Packet.{reading2009_of};
ghost use Rattle.c_answers.specs.Answers.{found_of, found2009_of, outcome_of, refusal_of, address_of};
ghost use Rattle.ledgerwren.specs.Answers.{data_answer, synchronization_answer, discovery_answer};

use c_answers::{
    Address, DataHeader, DiscoveryHeader, Found, Found2009, Outcome, SynchronizationHeader,
};
use refusal::Refusal;

#[unsafe(no_mangle)]
pub extern "C" fn ledgerwren1_parse(datagram: &[u8]) -> Found
    ensures { result ≡ found_of (reading_of datagram.now) }
{
    ledgerwren::ledgerwren1_parse(datagram)
}

#[unsafe(no_mangle)]
pub extern "C" fn ledgerwren1_parse_2009(datagram: &[u8]) -> Found2009
    ensures { result ≡ found2009_of (reading2009_of datagram.now) }
{
    ledgerwren::ledgerwren1_parse_2009(datagram)
}

// Fills `out` with the universes that a datagram lists. At a refusal `out` is left as found.
#[unsafe(no_mangle)]
pub extern "C" fn ledgerwren1_copy_universes(datagram: &[u8], out: &mut [u16]) -> Outcome
    ensures answer { result ≡ outcome_of (copied_of (packet_of datagram.now) (length out.old)) }
    ensures filled { out.new ≡ after_copy (copied_of (packet_of datagram.now) (length out.old)) (universes_in datagram.now) out.old }
{
    ledgerwren::ledgerwren1_copy_universes(datagram, out)
}

// The writers: the packet in front of `buf` and the rest as found, or all as found at a refusal.
#[unsafe(no_mangle)]
pub extern "C" fn ledgerwren1_pack_data(
    buf: &mut [u8],
    header: DataHeader,
    name: &[u8],
    values: &[u8],
) -> Outcome
    ensures answer { result ≡ outcome_of (data_answer (length buf.old) name.now values.now) }
    ensures bytes { buf.new ≡ after_pack (data_answer (length buf.old) name.now values.now) (data_bytes header.cid header.fields name.now values.now) buf.old }
{
    ledgerwren::ledgerwren1_pack_data(buf, header, name, values)
}

#[unsafe(no_mangle)]
pub extern "C" fn ledgerwren1_pack_synchronization(
    buf: &mut [u8],
    header: SynchronizationHeader,
) -> Outcome
    ensures answer { result ≡ outcome_of (synchronization_answer (length buf.old)) }
    ensures bytes { buf.new ≡ after_pack (synchronization_answer (length buf.old)) (synchronization_bytes header.cid header.fields) buf.old }
{
    ledgerwren::ledgerwren1_pack_synchronization(buf, header)
}

#[unsafe(no_mangle)]
pub extern "C" fn ledgerwren1_pack_discovery(
    buf: &mut [u8],
    header: DiscoveryHeader,
    name: &[u8],
    universes: &[u16],
) -> Outcome
    ensures answer { result ≡ outcome_of (discovery_answer (length buf.old) name.now universes.now) }
    ensures bytes { buf.new ≡ after_pack (discovery_answer (length buf.old) name.now universes.now) (discovery_bytes header.cid header.fields name.now universes.now) buf.old }
{
    ledgerwren::ledgerwren1_pack_discovery(buf, header, name, universes)
}

#[unsafe(no_mangle)]
pub extern "C" fn ledgerwren1_is_universe_in_range(universe: u16) -> Refusal
    ensures { result ≡ refusal_of (checked_of (universe_checks universe)) }
{
    ledgerwren::ledgerwren1_is_universe_in_range(universe)
}

#[unsafe(no_mangle)]
pub extern "C" fn ledgerwren1_universe_to_ipv4_multicast_addr(universe: u16) -> Address
    ensures { result ≡ address_of (multicast_of universe) }
{
    ledgerwren::ledgerwren1_universe_to_ipv4_multicast_addr(universe)
}
