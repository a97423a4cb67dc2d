// Which names a pattern picks: a star takes any run of characters, also none, a question mark one whole character, any
// other character itself, and all of the name is taken.
#![tactic(auto)]

ghost use Rattle.std.specs.Prelude.{◌≡◌, [], ◌∷◌};
ghost use Rattle.refusal.specs.Check.{checked_of};
ghost use Rattle.name_pattern.specs.Pattern.{pattern_checks, picks_of};
ghost use Rattle.name_pattern.specs.Walk.{star_byte, Tells, Inside, beyond, Fits, Says, verdict_of};

use name::whole_characters;
use refusal::Refusal;

// Numbers as in `refusal`.
pub const PATTERN_TOO_LONG: u8 = 45;

pub const PATTERN_NOT_UTF8: u8 = 46;

const LONGEST_PATTERN: usize = 63;

pub const STAR: u8 = b'*';

const QUESTION: u8 = b'?';

const FIRST_CONTINUATION: u8 = 0x80;

const LAST_CONTINUATION: u8 = 0xbf;

#[derive(Clone, Copy)]
enum Outcome {
    Taken,
    // The pattern does not take the name from here.
    NotHere,
    // Nor does it from any byte further on, so that no star before it need look there.
    Nowhere,
}

// Whether the name begins inside a character.
fn inside(name: &[u8]) -> bool
    ensures { Tells result (Inside name.now) }
{
    name.first()
        .is_some_and(|b| FIRST_CONTINUATION <= *b && *b <= LAST_CONTINUATION)
}

// A pattern that is used up has taken the name where nothing of it is left.
fn used_up(name: &[u8]) -> Outcome
    ensures { Says result [] name.now }
{
    match name {
        [] => Outcome::Taken,
        _ => Outcome::NotHere,
    }
}

// A star that was reached has looked at all that is left of the name.
fn verdict(taken: bool) -> Outcome
    ensures { result ≡ verdict_of taken }
{
    if taken {
        Outcome::Taken
    } else {
        Outcome::Nowhere
    }
}

// Behind a star: whether the pattern takes the name from here or from a byte further on.
#[cycle(literal_rest_star)]
fn star(pattern: &[u8], name: &[u8]) -> bool
    ensures { Tells result (Fits (star_byte ∷ pattern.now) name.now) }
{
    for from in 0..=name.len() {
        let here = literal(pattern, &name[from..]);
        match here {
            Outcome::Taken => return true,
            Outcome::Nowhere => return false,
            Outcome::NotHere => {}
        }
    }
    false
}

// Whether the pattern takes the name from here.
#[cycle(literal_rest_star)]
fn literal(pattern: &[u8], name: &[u8]) -> Outcome
    ensures { Says result pattern.now name.now }
{
    let [c, behind @ ..] = pattern else {
        return used_up(name);
    };
    if *c == STAR {
        return verdict(star(behind, name));
    }
    let [b, left @ ..] = name else {
        return Outcome::Nowhere;
    };
    if *c == QUESTION {
        if inside(name) {
            return Outcome::NotHere;
        }
        return rest(behind, left);
    }
    if c != b {
        return Outcome::NotHere;
    }
    literal(behind, left)
}

// The same behind the character that the name begins inside of, if it does.
#[cycle(literal_rest_star)]
fn rest(pattern: &[u8], name: &[u8]) -> Outcome
    ensures { Says result pattern.now (beyond name.now) }
{
    if inside(name) {
        return rest(pattern, &name[1..]);
    }
    literal(pattern, name)
}

// Whether a pattern may be asked with.
pub fn check_pattern(pattern: &[u8]) -> Result<(), Refusal>
    ensures { result ≡ checked_of (pattern_checks pattern.now) }
{
    if LONGEST_PATTERN < pattern.len() {
        return refusal::refuse(PATTERN_TOO_LONG, refusal::NOWHERE, 0);
    }
    if whole_characters(pattern) != pattern.len() {
        return refusal::refuse(PATTERN_NOT_UTF8, refusal::NOWHERE, 0);
    }
    Ok(())
}

// Whether a pattern picks a name. One that may not be asked with picks nothing, and what is no UTF-8 is not picked. The
// calls go a few deeper for each byte of the pattern, so that its limit bounds the stack, however long the name is.
pub fn picks(pattern: &[u8], name: &[u8]) -> bool
    ensures { result ≡ picks_of pattern.now name.now }
{
    if check_pattern(pattern).is_err() || whole_characters(name) != name.len() {
        return false;
    }
    matches!(literal(pattern, name), Outcome::Taken)
}
