// A reader over a run file's events: the caller's own bytes together with a place in them. The
// definitions stand in specs/Reader.antt; what stands at a place is said by those of `file`.
//
// Each call takes every value of its parameters' types. A reader goes in and comes back by value.
#![tactic(auto)]

ghost use Rattle.file.specs.Reading.{Shows};
ghost use Rattle.reader.specs.Reader.{Holds, GoesOn};

use answer::Refusal;
use file::Event;

// The bytes from the first event on, and a place in them.
// Kept: steps by value and no `Iterator`, the form that document 01 asks for at this place.
#[derive(Clone, Copy, Debug, PartialEq, Eq, Drop)]
pub struct Reader<'a> {
    pub events: &'a [u8],
    pub at: usize,
}

// The reader over these bytes, at this place; any number is a place.
pub fn over(events: &[u8], at: usize) -> Reader<'_>
    ensures { Holds events.entry at result }
{
    Reader { events, at }
}

// What stands at the reader's place, or none where nothing does: refusal 1 where the bytes end
// within an event.
pub fn seen(reader: Reader<'_>) -> Option<Result<Event, Refusal>>
    ensures { Shows reader.entry.events.now reader.entry.at result }
{
    file::event_at(reader.events, reader.at)
}

// The reader behind what stands at its place; where nothing stands it stays.
pub fn onward(reader: Reader<'_>) -> Reader<'_>
    ensures { GoesOn reader.entry result }
{
    let left = reader.events.len().saturating_sub(reader.at);
    Reader {
        at: reader.at + left.min(3),
        ..reader
    }
}

// What a reader over these bytes sees at this place, in one call with plain parameters.
pub fn event(bytes: &[u8], at: usize) -> Option<Result<Event, Refusal>>
    ensures { Shows bytes.now at result }
{
    seen(over(bytes, at))
}
