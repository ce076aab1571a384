// The printed lines, each of which a call puts at the start of 80 lent bytes or more.
ghost use Rattle.calls.specs.Lines.{LineOf, WritesRefusalFlat, WritesEventFlat, WritesHostFlat, WritesTotalsFlat};

use crate::flat::flatten;
use answer::Refusal;
use host::Host;
use quorum::World;

// The length of the line.
// Kept: a number with the value beside it, for C.
#[repr(C)]
#[derive(Clone, Copy, Debug, PartialEq, Eq, Drop)]
pub struct LineAnswer {
    pub refused: u8,
    pub length: usize,
}

impl From<Result<usize, Refusal>> for LineAnswer {
    ghost from_gives = { LineOf };

    fn from(line: Result<usize, Refusal>) -> LineAnswer {
        let (refused, length) = flatten(line, 0);
        LineAnswer { refused, length }
    }
}

// `report::refusal_line`: refusal 13.
// Kept: here and in the next call a refusal by its number, since C passes any.
pub fn coircord_refusal_line(out: &mut [u8], number: u8) -> LineAnswer
    ensures { WritesRefusalFlat out.old number result out.new }
{
    LineAnswer::from(report::refusal_line(out, number))
}

// `report::event_line`: refusal 13.
pub fn coircord_event_line(out: &mut [u8], event: u32, number: u8) -> LineAnswer
    ensures { WritesEventFlat out.old event number result out.new }
{
    LineAnswer::from(report::event_line(out, event, number))
}

// `report::host_line`: refusals 13, 2, 3, 5.
pub fn coircord_host_line(out: &mut [u8], me: u32, host: Host, world: World) -> LineAnswer
    ensures { WritesHostFlat out.old me host world result out.new }
{
    LineAnswer::from(report::host_line(out, me, host, world))
}

// `report::totals_line`: refusal 13.
pub fn coircord_totals_line(out: &mut [u8], events: u32, refused: u32) -> LineAnswer
    ensures { WritesTotalsFlat out.old events refused result out.new }
{
    LineAnswer::from(report::totals_line(out, events, refused))
}
