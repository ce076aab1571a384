// Turn: the one move that a host has to make, chosen first and then made. Which move it is stands in
// specs/Moves.antt, what it does in specs/Applying.antt, the call in specs/Turning.antt.
//
// The call takes every value of its parameters' types and answers document 01's refusal where it
// has one. A refused turn changes no word, and of an accepted one only marks change.
#![tactic(auto)]

mod applying;
mod choosing;
mod instance;

ghost use Rattle.turn.specs.Turning.{Turns};

use answer::Refusal;
use frame::Frame;
use host::Host;
use quorum::World;

// A turn that made no move, one that broadcast nothing and one that broadcast a frame to all hosts,
// each with the host's record after it.
#[derive(Clone, Copy, Debug, PartialEq, Eq, Drop)]
pub enum Turned {
    Idle,
    Quiet(Host),
    Broadcast(Host, Frame),
}

// Makes the one move that a host has to make, as host number `me`: refusals 13, 2, 3, 5, 6, 10, and
// 13 where the move would broadcast with the sent count at 224.
#[tactic(auto, using(crate::proofs::Passing::ready_takes, crate::proofs::Passing::turn_stops, crate::proofs::Passing::takes))]
pub fn turn(sets: &mut [u32], host: Host, world: World, me: u32) -> Result<Turned, Refusal>
    ensures { Turns sets.old host world me result sets.new }
{
    let at = host::ready(sets.len(), host, world)?;
    applying::take(sets, host, at, world.n, me)
}
