// Delivery: what a host records of a frame that arrives, and whether its sender may have sent it.
// Delivery alone sends nothing and changes no record. The definitions stand in specs/Delivery.antt.
//
// Each call takes every value of its parameters' types and answers document 01's refusal where it
// has one. A refused call changes no word.
#![tactic(auto)]

mod gates;
mod recording;

ghost use Rattle.delivery.specs.Delivery.{Delivers, DeliversWord, Asks};

use crate::recording::Heard;
use answer::Refusal;
use frame::Frame;
use host::Host;
use quorum::World;

// Records a frame in a host's words: refusals 13, 2, 3, 6, 8, 9, 5, 10, 11, 12. `said` is whether
// the sender is known to have broadcast it, or to lie (`may_send`); who trusts the network passes
// true. A frame that is recorded already is accepted and changes nothing.
#[tactic(auto, using(crate::proofs::Passing::delivers))]
pub fn deliver(
    sets: &mut [u32],
    host: Host,
    world: World,
    frame: Frame,
    said: bool,
) -> Result<(), Refusal>
    ensures { Delivers sets.old host world frame said result sets.new }
{
    gates::receiver(sets.len(), host, world)?;
    gates::sender(world, frame)?;
    if host.standing == host::BROKEN {
        return Err(Refusal::Broken);
    }
    if !said {
        return Err(Refusal::Unsent);
    }
    recording::record(sets, frame)
}

// The same for a packed frame, with 7 before 8: one that can't be read goes no further.
// Kept: `let .. else` for what unpacking answers, the form that document 01 asks for at this place.
#[tactic(auto, using(crate::proofs::Passing::delivering_word_is))]
pub fn deliver_word(
    sets: &mut [u32],
    host: Host,
    world: World,
    word: u16,
    said: bool,
) -> Result<(), Refusal>
    ensures { DeliversWord sets.old host world word said result sets.new }
{
    gates::receiver(sets.len(), host, world)?;
    let unpacked = frame::unpack(word);
    let Ok(frame) = unpacked else {
        return unpacked.map(|_| ());
    };
    deliver(sets, host, world, frame, said)
}

// Whether a frame may come from a host with this record and these words: from a liar every frame,
// from others what they have broadcast. Refusals 13, 2, 3, 8, 9, 5.
#[tactic(auto, using(crate::proofs::Passing::asks), unfolding(crate::specs::Recording::may_send))]
pub fn may_send(sets: &[u32], host: Host, world: World, frame: Frame) -> Result<bool, Refusal>
    ensures { Asks sets.now host world frame result }
{
    host::ready(sets.len(), host, world)?;
    gates::sender(world, frame)?;
    let heard = Heard { sets, frame };
    Ok(host.standing == host::LYING || heard.was_sent())
}
