// A viewer keeps the lent datagram beside the spans found in it, so that nobody shows the parts of one datagram by
// the spans of another. Its calls are thin: `parts` finds the spans and says what is shown.
#![tactic(auto)]

ghost use Rattle.std.specs.Prelude.{◌≡◌};
ghost use Rattle.packet.specs.Packet.{packet_of};
ghost use Rattle.parts.specs.Parts.{shown_at, name_span, values_span};

use packet::Span;

#[derive(Clone, Copy)]
pub struct Viewer<'a> {
    datagram: &'a [u8],
    name: Span,
    values: Span,
}

// Reads a datagram, whatever it is, and keeps it with the spans found.
pub fn view<'a>(datagram: &'a [u8]) -> Viewer<'a>
    ensures { (result.datagram ≡ datagram.entry) × (result.name ≡ name_span (packet_of datagram.now)) × (result.values ≡ values_span (packet_of datagram.now)) }
{
    let spans = parts::spans_in(datagram);
    Viewer {
        datagram,
        name: spans.name,
        values: spans.values,
    }
}

// The name, as the part of the datagram that it occupies; empty where there is none.
// README names this crate as one to use, so `view::name` and `view::values` stay functions of a viewer.
pub fn name<'a>(viewer: Viewer<'a>) -> &'a [u8]
    ensures { result.now ≡ shown_at viewer.entry.datagram.now viewer.entry.name }
{
    parts::shown(viewer.datagram, viewer.name)
}

// The values, likewise.
pub fn values<'a>(viewer: Viewer<'a>) -> &'a [u8]
    ensures { result.now ≡ shown_at viewer.entry.datagram.now viewer.entry.values }
{
    parts::shown(viewer.datagram, viewer.values)
}

// What a datagram's viewer shows. A caller of these holds no viewer, so its own proof needs no walk.
pub fn viewed_name(datagram: &[u8]) -> &[u8]
    ensures { result.now ≡ shown_at datagram.now (name_span (packet_of datagram.now)) }
{
    name(view(datagram))
}

pub fn viewed_values(datagram: &[u8]) -> &[u8]
    ensures { result.now ≡ shown_at datagram.now (values_span (packet_of datagram.now)) }
{
    values(view(datagram))
}
