// The sequence numbers of data packets, followed for each source in a lent table. What becomes of a packet is the rules'
// to say; the calls here walk the table.
#![tactic(auto)]

ghost use Rattle.std.specs.Prelude.{◌≡◌};
ghost use Rattle.follow_rules.specs.Table.{spot_of};
ghost use Rattle.follower.specs.Follow.{heard_of, carried_out, after, follow_heard, follow_of};

use follow_rules::{Decision, Entry, Followed, Heard, Kind, Sent, Spot, Totals};
use packet::Packet;

// What the follower hears of a datagram.
#[tactic(auto, unfolding(crate::specs::Follow::heard_of))]
pub fn listen(datagram: &[u8]) -> Heard
    ensures { result ≡ heard_of datagram.now }
{
    let reading = packet::parse(datagram);
    let cid = reading.cid;
    let kind = match reading.packet {
        Packet::Data(x) => Kind::Data(Sent {
            universe: x.fields.universe,
            sequence_number: x.fields.sequence_number,
            stream_terminated: x.fields.stream_terminated,
        }),
        Packet::Synchronization(_) | Packet::Discovery(_) => Kind::Other,
        Packet::Refused(r) => Kind::Unreadable(r),
    };
    Heard { cid, kind }
}

// What a table has of the source of a packet: one walk, which ends at the source's own entry.
#[tactic(auto, using(crate::proofs::Scanned::walk_steps))]
fn find(table: &[Entry], heard: Heard) -> Spot
    ensures { result ≡ spot_of table.now heard.cid heard.kind }
{
    let mut spot = follow_rules::unseen();
    for (at, entry) in table.iter().enumerate() {
        if !follow_rules::seeks(spot, heard) {
            return spot;
        }
        spot = follow_rules::look(spot, at, *entry, heard);
    }
    spot
}

// Stores an entry, where that was decided.
fn put(table: &mut [Entry], decision: Decision)
    ensures { table.new ≡ carried_out table.old decision }
{
    if let Some(stored) = follow_rules::stores_within(decision, table.len()) {
        table[stored.at] = stored.entry;
    }
}

// Follows a datagram by what was heard of it: it takes the totals and gives back the next.
#[tactic(auto, unfolding(crate::specs::Follow::follow_heard))]
pub fn follow_heard(table: &mut [Entry], totals: Totals, heard: Heard) -> Followed
    ensures { after table.new result ≡ follow_heard table.old totals heard }
{
    let spot = find(table, heard);
    let decision = follow_rules::decide(totals, heard, spot);
    put(table, decision);
    decision.followed
}

// Follows a datagram, whatever it is, in any table.
#[tactic(auto, unfolding(crate::specs::Follow::follow_of))]
pub fn follow(table: &mut [Entry], totals: Totals, datagram: &[u8]) -> Followed
    ensures { after table.new result ≡ follow_of table.old totals datagram.now }
{
    let heard = listen(datagram);
    follow_heard(table, totals, heard)
}
