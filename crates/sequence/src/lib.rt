// Sequence numbers have eight bits and wrap. How far one is from another, and whether it comes too late.
#![tactic(auto)]

ghost use Rattle.std.specs.Prelude.{◌≡◌};
ghost use Rattle.sequence.specs.Sequence.{signed_of, difference_of, late_of};

// A difference of at most 0 is late; one so far below 0 and further is a source that started anew.
const LATE_ABOVE: i8 = -20;

const LATE_UP_TO: i8 = 0;

// The new number minus the last, in eight bits, wrapping, read as signed.
pub fn difference(new: u8, last: u8) -> i8
    ensures { result ≡ signed_of (difference_of new last) }
{
    new.wrapping_sub(last).cast_signed()
}

// Whether a number is one to discard after the last one (E1.31-2018, section 6.7.2).
#[tactic(auto, unfolding(crate::specs::Sequence::late_of))]
pub fn late(new: u8, last: u8) -> bool
    ensures { result ≡ late_of new last }
{
    let distance = difference(new, last);
    distance <= LATE_UP_TO && LATE_ABOVE < distance
}
