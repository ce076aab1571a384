// A whole run: how it starts from a run file's header and records, and how its events are played on
// the records and the run table. The definitions stand in specs/Starting.antt and specs/Playing.antt.
//
// Each call takes every value of its parameters' types and answers document 01's refusal where it
// has one. Nothing is kept between calls: a run is its struct and its table.
#![tactic(auto)]

mod events;
mod opening;

ghost use Rattle.std.specs.Prelude.{◌≡◌, drop};
ghost use Rattle.run.specs.Starting.{record_place};
ghost use Rattle.run.specs.Calls.{Starts, Rests, Opens, Plays};

use answer::Refusal;
use host::Host;
use quorum::World;

// A run: the records of 32 hosts, those from n on being liars', its world, how many events it has
// taken and how many of these were refused.
// Kept: the records here and the hosts' words in a table beside it, since sender sets stand apart.
#[repr(C)]
#[derive(Clone, Copy, Debug, PartialEq, Eq, Drop)]
pub struct Run {
    pub hosts: [Host; 32],
    pub world: World,
    pub events: u32,
    pub refused: u32,
}

// The world of a run file or its refusal, and the part beside it: the caller's own bytes from the
// first event on, none where it is refused.
// Kept: an answer with the part beside it, since `Opens` says what the part is beside a refusal too.
#[derive(Clone, Copy, Debug, PartialEq, Eq, Drop)]
pub struct Opened<'a> {
    pub answer: Result<World, Refusal>,
    pub rest: &'a [u8],
}

// What a call played: the run after it, how many of the bytes it took, and why it stopped: an event
// was refused so, or nothing is left.
#[derive(Clone, Copy, Debug, PartialEq, Eq, Drop)]
pub struct Played {
    pub run: Run,
    pub taken: usize,
    pub stop: Option<Refusal>,
}

// The run that a run file starts: refusals 1, 2, 3, 4, then per host record 1, 4.
#[tactic(auto, unfolding(crate::specs::Starting::starting, file::specs::Reading::heading))]
pub fn start(bytes: &[u8]) -> Result<Run, Refusal>
    ensures { Starts bytes.now result }
{
    let world = file::header_of(bytes)?;
    opening::enrol(bytes, world)
}

// The caller's own bytes from the first event on; none where `start` refuses them.
pub fn rest(bytes: &[u8]) -> &[u8]
    ensures { Rests bytes.now result.now }
{
    match start(bytes) {
        Ok(run) => events_of(bytes, run.world),
        Err(_) => &bytes[..0],
    }
}

// The header and record check in one call: the world that `start` says, and beside it what `rest`
// hands back.
pub fn open(bytes: &[u8]) -> Opened<'_>
    ensures { Opens bytes.now result }
{
    Opened {
        answer: start(bytes).map(|run| run.world),
        rest: rest(bytes),
    }
}

// The bytes behind the header and the records of this world's hosts.
fn events_of(bytes: &[u8], world: World) -> &[u8]
    ensures { result.now ≡ drop (record_place world.n) bytes.now }
{
    let first = 2 + 3 * world.n as usize;
    bytes.get(first..).unwrap_or(&bytes[..0])
}

// Plays events from the start of the bytes until one is refused or nothing is left: refusals 13, 2,
// 3 of the call itself. A refused event is counted and taken, so that the caller can report it, by
// the run's count of events, and go on behind the bytes that were taken.
#[tactic(auto, unfolding(crate::specs::Calls::playing, quorum::specs::World::checking))]
pub fn play(run: Run, table: &mut [u32], bytes: &[u8]) -> Result<Played, Refusal>
    ensures { Plays run table.old bytes.now result table.new }
{
    if table.len() < 14336 {
        return Err(Refusal::Lent);
    }
    quorum::check(run.world)?;
    Ok(events::walk(run, table, bytes))
}
