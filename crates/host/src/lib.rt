// What a host is: its record, which goes by value, and its 448 words, which are lent; docs/API.md
// says what each bit of them means, so that no content is refused. What it does with them stands in
// the crates `delivery`, `turn` and `view`.
//
// Each call takes every value of its parameters' types: none asks anything of its caller.
#![tactic(auto)]

ghost use Rattle.host.specs.Calls.{Strays, Readies, Numbers};

use answer::Refusal;
use quorum::{Thresholds, World};

// How a host stands.
pub const HONEST: u8 = 0;

pub const FINISHED: u8 = 1;

pub const BROKEN: u8 = 2;

pub const LYING: u8 = 3;

// The decision of a host that has not decided.
pub const UNDECIDED: u8 = 2;

// Where a host stands. Round 1 to 16, phase 1 or 2, stage 0 or 1; own value 0, 1 or 2 for neither,
// and in stage 0 the estimate; estimate 0 or 1; decision 0, 1 or UNDECIDED; frames broadcast, 0 to
// 224; standing HONEST, FINISHED, BROKEN or LYING; sixteen coin bits, round 1 the highest.
// Kept: numbers for the standing and the rest, since `out_of_range` answers for every number, and a
// record crosses to C.
#[repr(C)]
#[derive(Clone, Copy, Debug, PartialEq, Eq, Drop)]
pub struct Host {
    pub round: u8,
    pub phase: u8,
    pub stage: u8,
    pub own: u8,
    pub est: u8,
    pub decision: u8,
    pub sent: u8,
    pub standing: u8,
    pub coins: u16,
}

// Whether a record has a field outside its range, or in stage 0 an own value other than the estimate.
pub fn out_of_range(h: Host) -> bool
    ensures { Strays h result }
{
    let place = (h.round == 0) | (16 < h.round) | (h.phase == 0) | (2 < h.phase) | (1 < h.stage);
    let vote = (2 < h.own) | (1 < h.est) | (2 < h.decision) | ((h.stage == 0) & (h.own != h.est));
    place | vote | (224 < h.sent) | (3 < h.standing)
}

// The thresholds for a call on so many lent words, this record and this world: refusals 13, 2, 3.
// Kept: a record and a world side by side, here and in the calls above, since the record is one of a
// run's 32 and the world the run's, and C passes them so.
#[tactic(auto, unfolding(crate::specs::Calls::readying, quorum::specs::World::checking))]
pub fn ready(words: usize, host: Host, world: World) -> Result<Thresholds, Refusal>
    ensures { Readies words host world result }
{
    if words < 448 || out_of_range(host) {
        return Err(Refusal::Lent);
    }
    quorum::check(world)
}

// The number of an instance: 0 to 63 for a round, phase and stage in their ranges.
pub fn instance(round: u8, phase: u8, stage: u8) -> usize
    ensures { Numbers round phase stage result }
{
    let round = round.saturating_sub(1) as usize;
    let phase = phase.saturating_sub(1) as usize;
    4 * round + 2 * phase + stage as usize
}
