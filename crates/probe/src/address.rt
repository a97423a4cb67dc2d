// The range of universes, and their multicast addresses.
ghost use Rattle.text.specs.Put.{Put};
ghost use Rattle.universe.specs.Universe.{multicast_of};
ghost use Rattle.probe.specs.Answers.{dotted, address_line, address_answer};

use text::Text;
use universe::Ipv4Address;

fn put_dotted(out: &mut Text, address: Ipv4Address)
    ensures { Put out.old out.new (dotted address) }
{
    out.put_field(b" address ", address.highest as u64);
    out.put_field(b".", address.second as u64);
    out.put_field(b".", address.third as u64);
    out.put_field(b".", address.lowest as u64);
}

// `N address a.b.c.d port P`
fn put_found(out: &mut Text, n: u64, address: Ipv4Address)
    ensures { Put out.old out.new (address_line n address) }
{
    out.put_decimal(n);
    put_dotted(out, address);
    out.put_field(b" port ", address.port as u64);
    out.put(b"\n");
}

// The address, or the refusal.
pub fn put_address(out: &mut Text, n: u64, universe: u16)
    ensures { Put out.old out.new (address_answer n (multicast_of universe)) }
{
    match universe::universe_to_ipv4_multicast_addr(universe) {
        Err(r) => line::put_refused(out, n, r),
        Ok(address) => put_found(out, n, address),
    }
}
