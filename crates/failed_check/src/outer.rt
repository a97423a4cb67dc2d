// The preamble and the root layer.
ghost use Rattle.std.specs.Prelude.{◌≡◌};
ghost use Rattle.refusal.specs.Check.{preamble as preamble_place, root as root_place};
ghost use Rattle.failed_check.specs.Tell.{vector_identity, outer_checks, Refuses, Names};

use crate::at;
use pdu::Edition;
use refusal::{Field, Identity, Reason, Refusal, Room, Start, Value, VectorIn};
use wire::constants::{E131_POSTAMBLE_SIZE, E131_PREAMBLE_SIZE};
use wire::layout::{PREAMBLE_LENGTH, VECTOR_INDEX};

const POSTAMBLE_START: usize = 2;

const IDENTIFIER_START: usize = 4;

const VECTOR_START: usize = PREAMBLE_LENGTH + VECTOR_INDEX;

fn in_preamble(d: &[u8], edition: Edition, refusal: Refusal) -> Identity
    requires { Refuses (outer_checks edition d.now) refusal × (refusal.place ≡ preamble_place) }
    ensures { Names (outer_checks edition d.now) refusal result }
{
    if refusal.number == refusal::PART_TOO_SHORT {
        return at(Reason::TooShort(Start::Preamble), 0);
    }
    if wire::u16_at(d, 0) != E131_PREAMBLE_SIZE {
        return at(Reason::NotAllowed(Value::PreambleSize), 0);
    }
    if wire::u16_at(d, POSTAMBLE_START) != E131_POSTAMBLE_SIZE {
        return at(Reason::NotAllowed(Value::PostambleSize), POSTAMBLE_START);
    }
    at(Reason::NotAllowed(Value::Identifier), IDENTIFIER_START)
}

// The vector is none that the edition reads.
fn of_vector(edition: Edition) -> Identity
    ensures { result ≡ vector_identity edition }
{
    match edition {
        Edition::E2018 => at(Reason::Vector(VectorIn::Root), VECTOR_START),
        Edition::E2009 => at(Reason::Vector(VectorIn::Root2009), VECTOR_START),
    }
}

fn in_root(d: &[u8], edition: Edition, refusal: Refusal) -> Identity
    requires { Refuses (outer_checks edition d.now) refusal × (refusal.place ≡ root_place) }
    ensures { Names (outer_checks edition d.now) refusal result }
{
    match refusal.number {
        refusal::PART_TOO_SHORT => at(Reason::TooShort(Start::Layer), PREAMBLE_LENGTH),
        refusal::INVALID_FLAGS => at(Reason::Flags, PREAMBLE_LENGTH),
        refusal::LENGTH_BEYOND_PART => at(Reason::Beyond(Room::Part), PREAMBLE_LENGTH),
        refusal::INVALID_VECTOR => of_vector(edition),
        _ => at(Reason::Missing(Field::Cid), PREAMBLE_LENGTH),
    }
}

pub(crate) fn find(d: &[u8], edition: Edition, refusal: Refusal) -> Identity
    requires { Refuses (outer_checks edition d.now) refusal }
    ensures { Names (outer_checks edition d.now) refusal result }
{
    if refusal.place == refusal::PREAMBLE {
        in_preamble(d, edition, refusal)
    } else {
        in_root(d, edition, refusal)
    }
}
