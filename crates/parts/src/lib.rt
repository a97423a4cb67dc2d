// The parts of a datagram that a reading shows, and its universes copied out.
#![tactic(auto)]

pub mod plain;

ghost use Rattle.std.specs.Prelude.{◌≡◌, length, Err};
ghost use Rattle.refusal.specs.Check.{refusal, nowhere};
ghost use Rattle.packet.specs.Packet.{packet_of};
ghost use Rattle.parts.specs.Parts.{shown_at, name_span, values_span, spans_of, copied_of, listed_at, universes_in, after_copy};

use packet::{DiscoveryRecord, Packet, Reading, Span};
use refusal::Refusal;

#[derive(Clone, Copy)]
pub struct Spans {
    pub name: Span,
    pub values: Span,
}

// What stands at a span, or nothing where the span runs past the datagram.
pub fn shown(datagram: &[u8], span: Span) -> &[u8]
    ensures { result.now ≡ shown_at datagram.now span }
{
    wire::part(datagram, span.start, span.len)
}

fn name_span(packet: Packet) -> Span
    ensures { result ≡ name_span packet }
{
    match packet {
        Packet::Data(x) => x.name,
        Packet::Discovery(x) => x.name,
        Packet::Synchronization(_) | Packet::Refused(_) => Span::default(),
    }
}

fn values_span(packet: Packet) -> Span
    ensures { result ≡ values_span packet }
{
    match packet {
        Packet::Data(x) => x.values,
        Packet::Discovery(_) | Packet::Synchronization(_) | Packet::Refused(_) => Span::default(),
    }
}

// Reads a datagram, whatever it is, and gives the spans that were found.
pub fn spans_in(datagram: &[u8]) -> Spans
    ensures { result ≡ spans_of (packet_of datagram.now) }
{
    let packet = packet::parse_packet(datagram);
    Spans {
        name: name_span(packet),
        values: values_span(packet),
    }
}

// The name, as the part of the datagram that it occupies; empty where there is none.
pub fn name(datagram: &[u8], reading: Reading) -> &[u8]
    ensures { result.now ≡ shown_at datagram.now (name_span reading.packet) }
{
    shown(datagram, name_span(reading.packet))
}

// The values, likewise.
pub fn values(datagram: &[u8], reading: Reading) -> &[u8]
    ensures { result.now ≡ shown_at datagram.now (values_span reading.packet) }
{
    shown(datagram, values_span(reading.packet))
}

fn refuse_copy<T>() -> Result<T, Refusal>
    ensures { result ≡ Err (refusal 31 nowhere 0) }
{
    refusal::refuse(refusal::NO_UNIVERSES_COPIED, refusal::NOWHERE, 0)
}

fn copy_listed(datagram: &[u8], x: DiscoveryRecord, out: &mut [u16]) -> Result<usize, Refusal>
    ensures answer { result ≡ copied_of (Packet.Discovery x) (length out.old) }
    ensures filled { out.new ≡ after_copy result (listed_at datagram.now x.universes) out.old }
{
    let span = x.universes;
    let count = span.len / 2;
    if out.len() < count {
        return refuse_copy();
    }
    discovery::copy_universes(shown(datagram, span), out);
    Ok(count)
}

// Reads a datagram, fills `out` with its universes and tells how many they are. At a refusal `out` is left as found.
pub fn copy_universes(datagram: &[u8], out: &mut [u16]) -> Result<usize, Refusal>
    ensures answer { result ≡ copied_of (packet_of datagram.now) (length out.old) }
    ensures filled { out.new ≡ after_copy result (universes_in datagram.now) out.old }
{
    match packet::parse_packet(datagram) {
        Packet::Discovery(x) => copy_listed(datagram, x, out),
        Packet::Data(_) | Packet::Synchronization(_) | Packet::Refused(_) => refuse_copy(),
    }
}
