// What every call answers: what it gives, or why it refuses. The definitions stand in specs/Answer.antt,
// laws in proofs/.
#![tactic(auto)]

ghost use Rattle.std.specs.Prelude.{Some};
ghost use Rattle.answer.specs.Answer.{NumberOf, line_of};

use std::error::Error;
use std::fmt;

// Why a call refuses. Its number is document 01's; docs/REFUSALS.md says what each means and what to
// do about it.
#[derive(Clone, Copy, Debug, PartialEq, Eq, Drop)]
pub enum Refusal {
    // The header, a host record or the last event is incomplete.
    Incomplete = 1,
    // There are fewer than 2 hosts, or more than 32.
    Hosts = 2,
    // There are too many liars for so few hosts.
    Liars = 3,
    // A bit that has to be zero is not.
    NotZero = 4,
    // A number is no host's, or a kind, phase or stage has no name.
    Unnamed = 5,
    // The receiver, or the host whose turn it is, is a liar.
    Liar = 6,
    // A frame's version is 1.
    Version = 7,
    // A round is none of the sixteen.
    Round = 8,
    // A value is none, or neither in stage 0.
    Value = 9,
    // The host is broken.
    Broken = 10,
    // The sender is honest and has not broadcast the frame.
    Unsent = 11,
    // Another AUX of the sender is recorded.
    OtherAux = 12,
    // Too little memory is lent, or a lent record is out of range.
    Lent = 13,
}

impl From<Refusal> for u8 {
    ghost from_gives = { NumberOf };

    fn from(refusal: Refusal) -> u8 {
        refusal as u8
    }
}

// "refused C".
impl fmt::Display for Refusal {
    ghost output = { λ refusal. Some (line_of refusal) };

    fn fmt<W: fmt::Write>(&self, f: &mut fmt::Formatter<W>) -> fmt::Result {
        write!(f, "refused {}", u8::from(*self))
    }
}

impl Error for Refusal {}
