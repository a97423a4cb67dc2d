// The rules by which sequence numbers are followed: what becomes of a packet, by the totals so far and by what a table
// of sources has of its source.
#![tactic(auto)]

ghost use Rattle.std.specs.Prelude.{◌≡◌, IfSome, IfNone};
ghost use Rattle.refusal.specs.Check.{outcome};
ghost use Rattle.refusal.proofs.Tests.{Holds, Fails};
ghost use Rattle.follow_rules.specs.Totals.{zero_totals, full, accept_of, discard_of, refuse_of};
ghost use Rattle.follow_rules.specs.Table.{free_entry, ours};
ghost use Rattle.follow_rules.specs.Walk.{ours_of, seeks_of, look_of};
ghost use Rattle.follow_rules.specs.Rules.{kept_of, stay_of, accepted_at, counted_of, data_of, decision_of, stored_within};
ghost use Rattle.follow_rules.specs.declared.Spot.TheVariants.{Neither};

use refusal::{NOWHERE, Refusal};

// The follower's own refusals, by the numbers of request 02, which lines tell.
pub const TOTAL_AT_LARGEST: u8 = 40;

pub const NO_FREE_ENTRY: u8 = 41;

// A table's entry for a source, which is a CID and a universe: its last number. A free entry may hold anything: document
// 01 asks for structs with a used mark, so `used` is a field and not an Option.
#[derive(Clone, Copy, Default)]
pub struct Entry {
    pub cid: [u8; 16],
    pub universe: u16,
    pub last: u8,
    pub used: bool,
}

// What is followed of a data packet. The CID stands beside it in `Heard`, since `listen` tells that of every datagram.
#[derive(Clone, Copy)]
pub struct Sent {
    pub universe: u16,
    pub sequence_number: u8,
    pub stream_terminated: bool,
}

#[derive(Clone, Copy)]
pub enum Kind {
    Data(Sent),
    Other,
    Unreadable(Refusal),
}

// What is heard of a datagram.
#[derive(Clone, Copy)]
pub struct Heard {
    pub cid: [u8; 16],
    pub kind: Kind,
}

// What became of a datagram. A refusal of reading's own is told apart from those of the follower.
#[derive(Clone, Copy)]
pub enum Answer {
    Accepted,
    Discarded,
    Refused(Refusal),
    NotData,
    Unreadable(Refusal),
}

// How many data packets were accepted, discarded, and refused for want of room. Taken and given back by value, as
// document 01 has it.
#[derive(Clone, Copy, Default)]
pub struct Totals {
    pub accepted: u64,
    pub discarded: u64,
    pub room_refused: u64,
}

// Totals with room: each may grow by one.
#[derive(Clone, Copy)]
struct Open {
    totals: Totals,
    ghost room: { Fails (full totals) },
}

// What a datagram gives back: the answer, and the next totals.
#[derive(Clone, Copy)]
pub struct Followed {
    pub answer: Answer,
    pub totals: Totals,
}

// What a table has of a source: its first entry, with its last number; or else the first free one.
#[derive(Clone, Copy)]
pub enum Spot {
    Ours { at: usize, last: u8 },
    Free { at: usize },
    Neither,
}

// An entry, and where in the table it is stored.
#[derive(Clone, Copy)]
pub struct Stored {
    pub at: usize,
    pub entry: Entry,
}

// What is to be done: what is stored, if anything is; and what is given back.
#[derive(Clone, Copy)]
pub struct Decision {
    pub stored: Option<Stored>,
    pub followed: Followed,
}

impl Entry {
    // An entry that no source has, zeroed.
    pub fn free() -> Entry
        ensures { result ≡ free_entry }
    {
        Entry::default()
    }

    // Whether a source uses the entry.
    fn is_of(self, cid: [u8; 16], universe: u16) -> bool
        ensures { result ≡ ours cid universe self }
    {
        self.used && self.universe == universe && cid::same(self.cid, cid)
    }
}

impl Totals {
    pub fn zero() -> Totals
        ensures { result ≡ zero_totals }
    {
        Totals::default()
    }

    // Whether any total is at its largest number.
    pub fn full(self) -> bool
        ensures { result ≡ outcome (full self) }
    {
        self.accepted == u64::MAX || self.discarded == u64::MAX || self.room_refused == u64::MAX
    }

    // The totals as those with room, where no total is at its largest number.
    fn with_room(self) -> Option<Open>
        ensures totals { IfSome result (λ o. o.totals ≡ self) }
        ensures none { IfNone result (Holds (full self)) }
    {
        if self.full() {
            return None;
        }
        Some(Open { totals: self })
    }
}

impl Open {
    fn accept(self) -> Totals
        ensures { result ≡ accept_of self.totals }
    {
        Totals {
            accepted: self.totals.accepted + 1,
            ..self.totals
        }
    }

    fn discard(self) -> Totals
        ensures { result ≡ discard_of self.totals }
    {
        Totals {
            discarded: self.totals.discarded + 1,
            ..self.totals
        }
    }

    fn refuse(self) -> Totals
        ensures { result ≡ refuse_of self.totals }
    {
        Totals {
            room_refused: self.totals.room_refused + 1,
            ..self.totals
        }
    }
}

// Whether the entry is one of the source that is heard.
fn is_ours(entry: Entry, heard: Heard) -> bool
    ensures { result ≡ ours_of heard.cid heard.kind entry }
{
    matches!(heard.kind, Kind::Data(sent) if entry.is_of(heard.cid, sent.universe))
}

// Nothing is found yet. It stays a call because docs/OPEN.md names it among the public ones.
pub fn unseen() -> Spot
    ensures { result ≡ Neither }
{
    Spot::Neither
}

// Whether the search goes on: the source's own entry ends it, and for what is no data packet there is none.
pub fn seeks(spot: Spot, heard: Heard) -> bool
    ensures { result ≡ seeks_of spot heard.kind }
{
    matches!(heard.kind, Kind::Data(_)) && !matches!(spot, Spot::Ours { .. })
}

// What a table has of a packet's source, once entry `at` is looked at, too.
pub fn look(spot: Spot, at: usize, entry: Entry, heard: Heard) -> Spot
    ensures { result ≡ look_of spot at entry heard.cid heard.kind }
{
    if is_ours(entry, heard) {
        return Spot::Ours {
            at,
            last: entry.last,
        };
    }
    if entry.used {
        return spot;
    }
    match spot {
        Spot::Neither => Spot::Free { at },
        _ => spot,
    }
}

// What an accepted packet leaves in its entry: its number, or nothing where it says that its source ends.
fn kept(cid: [u8; 16], sent: Sent) -> Entry
    ensures { result ≡ kept_of cid sent }
{
    if sent.stream_terminated {
        return Entry::free();
    }
    Entry {
        cid,
        universe: sent.universe,
        last: sent.sequence_number,
        used: true,
    }
}

// The table stays.
fn stay(totals: Totals, answer: Answer) -> Decision
    ensures { result ≡ stay_of totals answer }
{
    Decision {
        stored: None,
        followed: Followed { answer, totals },
    }
}

// A packet is accepted, and what it leaves is stored.
fn accept_at(at: usize, before: Open, cid: [u8; 16], sent: Sent) -> Decision
    ensures { result ≡ accepted_at at before.totals cid sent }
{
    Decision {
        stored: Some(Stored {
            at,
            entry: kept(cid, sent),
        }),
        followed: Followed {
            answer: Answer::Accepted,
            totals: before.accept(),
        },
    }
}

// A data packet that is counted, by what the table has of its source.
fn count(before: Open, cid: [u8; 16], sent: Sent, spot: Spot) -> Decision
    ensures { result ≡ counted_of before.totals cid sent spot }
{
    match spot {
        Spot::Ours { last, .. } if sequence::late(sent.sequence_number, last) => {
            stay(before.discard(), Answer::Discarded)
        }
        Spot::Ours { at, .. } | Spot::Free { at } => accept_at(at, before, cid, sent),
        Spot::Neither => stay(
            before.refuse(),
            Answer::Refused(Refusal::new(NO_FREE_ENTRY, NOWHERE, 0)),
        ),
    }
}

#[tactic(auto, unfolding(refusal::specs::Check::choose))]
fn decide_data(totals: Totals, cid: [u8; 16], sent: Sent, spot: Spot) -> Decision
    ensures { result ≡ data_of totals cid sent spot }
{
    let Some(before) = totals.with_room() else {
        return stay(
            totals,
            Answer::Refused(Refusal::new(TOTAL_AT_LARGEST, NOWHERE, 0)),
        );
    };
    count(before, cid, sent, spot)
}

// What becomes of a datagram, and what it moves.
pub fn decide(totals: Totals, heard: Heard, spot: Spot) -> Decision
    ensures { result ≡ decision_of totals heard.cid heard.kind spot }
{
    match heard.kind {
        Kind::Data(sent) => decide_data(totals, heard.cid, sent, spot),
        Kind::Other => stay(totals, Answer::NotData),
        Kind::Unreadable(r) => stay(totals, Answer::Unreadable(r)),
    }
}

// What is stored in a table of `len` entries. A decision may name any number: whoever carries it out asks first.
pub fn stores_within(decision: Decision, len: usize) -> Option<Stored>
    ensures { result ≡ stored_within decision.stored len }
{
    decision.stored.filter(|stored| stored.at < len)
}
