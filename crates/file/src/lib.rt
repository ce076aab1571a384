// A run file's bytes: its header, its host records and its events, each read at its place.
//
// Each call takes every value of its parameters' types and answers document 01's refusal where it
// has one. Nothing is copied out of the bytes but numbers.
#![tactic(auto)]

mod bits;

ghost use Rattle.std.specs.Prelude.{◌≡◌};
ghost use Rattle.answer.specs.Answer.{guarded, says};
ghost use Rattle.file.specs.Layouts.{three_at};
ghost use Rattle.file.specs.Reading.{piece_guards, Heads, Enrols, Shows, Allows};

use answer::Refusal;
use host::Host;
use quorum::World;

// The kinds of events.
pub const DELIVER: u8 = 0;

pub const TURN: u8 = 2;

// An event's fields: kind DELIVER or TURN; the receiver, or the host whose turn it is; a packed
// frame, or 0 for a turn. Any numbers may stand here: `check` says what is no event.
// Kept: numbers, since `check` and `table::step` answer for every one of them.
#[derive(Clone, Copy, Debug, PartialEq, Eq, Drop)]
pub struct Event {
    pub kind: u8,
    pub spare: u8,
    pub host: u8,
    pub word: u16,
}

// The world of the header: refusals 1, 2, 3, 4.
#[tactic(auto, unfolding(crate::specs::Reading::heading, quorum::specs::World::checking))]
pub fn header_of(bytes: &[u8]) -> Result<World, Refusal>
    ensures { Heads bytes.now result }
{
    let [high, low, ..] = *bytes else {
        return Err(Refusal::Incomplete);
    };
    let word = u16::from_be_bytes([high, low]);
    let world = bits::world_of(word);
    quorum::check(world)?;
    if word & 0x7f != 0 {
        return Err(Refusal::NotZero);
    }
    Ok(world)
}

// The host record at a place, as it starts: refusals 1, 4.
#[tactic(auto, unfolding(crate::specs::Reading::enrolling))]
pub fn record_at(bytes: &[u8], at: usize) -> Result<Host, Refusal>
    ensures { Enrols bytes.now at result }
{
    let number = three_at(bytes, at)?;
    if bits::bad_record(number) {
        return Err(Refusal::NotZero);
    }
    Ok(bits::host_of(number))
}

// The event at a place, or none where no bytes are left: refusal 1 where they end within it.
#[tactic(auto, unfolding(crate::specs::Reading::event_at, crate::specs::Reading::event_in))]
pub fn event_at(bytes: &[u8], at: usize) -> Option<Result<Event, Refusal>>
    ensures { Shows bytes.now at result }
{
    if bytes.len() <= at {
        return None;
    }
    Some(three_at(bytes, at).map(bits::event_of))
}

// Whether an event is one of this world: refusals 4, 5.
#[tactic(auto, unfolding(crate::specs::Reading::allowing))]
pub fn check(event: Event, world: World) -> Result<(), Refusal>
    ensures { Allows event world result }
{
    if bits::bad_event(event) {
        return Err(Refusal::NotZero);
    }
    if world.n <= u32::from(event.host) {
        return Err(Refusal::Unnamed);
    }
    Ok(())
}

// The three bytes at a place, as a number: refusal 1 where fewer are left.
fn three_at(bytes: &[u8], at: usize) -> Result<u32, Refusal>
    ensures { says result ≡ guarded (piece_guards bytes.now at) (three_at bytes.now at) }
{
    let Some([high, middle, low, ..]) = bytes.get(at..) else {
        return Err(Refusal::Incomplete);
    };
    Ok(u32::from_be_bytes([0, *high, *middle, *low]))
}
