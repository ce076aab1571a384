// One event of a run whose host records stand in one lent list.
ghost use Rattle.std.specs.Prelude.{ℕ, ◌<◌, ◌≡◌, List};
ghost use Rattle.answer.specs.Answer.{Answer, says};
ghost use Rattle.frame.specs.Frame.{packing};
ghost use Rattle.turn.specs.Applying.{Turn};
ghost use Rattle.turn.specs.Turning.{turned_says};
ghost use Rattle.file.specs.Reading.{event_in};
ghost use Rattle.calls.specs.Flat.{given_or};
ghost use Rattle.calls.specs.List.{StepsList, Answers};
ghost use Rattle.calls.specs.Parts.{host_place, sender_place, meeting};

use answer::Refusal;
use file::Event;
use frame::Frame;
use host::Host;
use quorum::World;
use turn::Turned;

// What a step answered, without the record, which stands in the list. Unknown is for a number that
// no step answers.
// Kept: a refusal by its number, since `answer_of` tells what every number below 256 means, and not
// thirteen of them alone.
#[derive(Clone, Copy, Debug, PartialEq, Eq, Drop)]
pub enum Stepped {
    Idle,
    Quiet,
    Broadcast(u16),
    Refused(u8),
    Unknown,
}

// Plays one event: two records of the list are read, one is written back. Refusals 13, 2, 3, 1, then
// the event's own; bytes behind the event are not looked at. The answer is a number, of which
// `answer_of` tells what it means.
// Kept: a number as the answer, for C.
#[tactic(auto, unfolding(crate::specs::List::listing))]
pub fn coircord_step(hosts: &mut [Host], table: &mut [u32], world: World, event: &[u8]) -> u32
    ensures { StepsList hosts.old table.old world event.now result hosts.new table.new }
{
    if hosts.len() < 32 {
        return u32::from(u8::from(Refusal::Lent));
    }
    let (at, from) = places(event);
    match meet(hosts[at], hosts[from], table, world, event) {
        Ok(Turned::Idle) => 65536,
        Ok(Turned::Quiet(next)) => {
            hosts[at] = next;
            131072
        }
        Ok(Turned::Broadcast(next, frame)) => {
            hosts[at] = next;
            196608 + word_of(frame)
        }
        Err(refusal) => u32::from(u8::from(refusal)),
    }
}

// What the number of a step's answer says.
// Kept: that number, since this call says what a number of C's means.
#[tactic(auto, unfolding(crate::specs::List::answer_of))]
pub fn answer_of(number: u32) -> Stepped
    ensures { Answers number result }
{
    if number < 256 {
        return Stepped::Refused(number as u8);
    }
    if number == 65536 {
        return Stepped::Idle;
    }
    if number == 131072 {
        return Stepped::Quiet;
    }
    if number / 65536 == 3 {
        return Stepped::Broadcast((number % 65536) as u16);
    }
    Stepped::Unknown
}

// The event at the start of the bytes: refusal 1.
// Kept: a match, since `unwrap_or` takes a third longer where the event is refused.
#[tactic(auto, unfolding(file::specs::Reading::event_at, file::specs::Reading::event_in))]
fn first_event(bytes: &[u8]) -> Result<Event, Refusal>
    ensures { says result ≡ event_in bytes.now 0 }
{
    match file::event_at(bytes, 0) {
        Some(seen) => seen,
        None => Err(Refusal::Incomplete),
    }
}

// The places of the event's host and of the frame's sender in the list.
#[tactic(auto, unfolding(frame::specs::Frame::frame_of, file::specs::Reading::event_in))]
fn places(event: &[u8]) -> (usize, usize)
    ensures host { (result.0 ≡ host_place (event_in event.now 0)) × (result.0 < 32) }
    ensures sender { (result.1 ≡ sender_place (event_in event.now 0)) × (result.1 < 32) }
{
    first_event(event).map_or(
        (0, 0),
        |seen| (seen.host as usize, (seen.word % 32) as usize),
    )
}

// The event with the records of its host and of its frame's sender.
#[tactic(auto, unfolding(quorum::specs::World::checking))]
fn meet(
    host: Host,
    sender: Host,
    table: &mut [u32],
    world: World,
    event: &[u8],
) -> Result<Turned, Refusal>
    ensures { ◌≡◌ {A = Answer Turn × List ℕ} (turned_says result, table.new) (meeting host sender table.old world event.now) }
{
    if table.len() < 14336 {
        return Err(Refusal::Lent);
    }
    quorum::check(world)?;
    let event = first_event(event)?;
    table::step(table, host, sender, world, event)
}

// The word of a frame, which a turn's frame always has.
// Kept: a function of its own, since it says that the word fits beside what stands above it.
fn word_of(frame: Frame) -> u32
    ensures { (result ≡ given_or 0 (packing frame)) × (result < 65536) }
{
    u32::from(frame::pack(frame).unwrap_or(0))
}
