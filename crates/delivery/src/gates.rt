// What is refused before a delivery looks at any word: 13, 2, 3, 6 of the receiver and 8, 9, 5 of
// the frame.
ghost use Rattle.std.specs.Prelude.{◌≡◌};
ghost use Rattle.answer.specs.Answer.{guarded, says};
ghost use Rattle.delivery.specs.Delivery.{receiver_guards, sender_guards};

use answer::Refusal;
use frame::Frame;
use host::Host;
use quorum::World;

// Whether a host with so many words can be delivered to: refusals 13, 2, 3, 6.
#[tactic(auto, using(crate::proofs::Passing::receives))]
pub(crate) fn receiver(words: usize, host: Host, world: World) -> Result<(), Refusal>
    ensures { says result ≡ guarded (receiver_guards words host world) tt }
{
    host::ready(words, host, world)?;
    if host.standing == host::LYING {
        return Err(Refusal::Liar);
    }
    Ok(())
}

// Whether a frame can be said, and by a host of this world: refusals 8, 9, 5.
#[tactic(auto, unfolding(frame::specs::Frame::judging))]
pub(crate) fn sender(world: World, frame: Frame) -> Result<(), Refusal>
    ensures { says result ≡ guarded (sender_guards world frame) tt }
{
    frame::check(frame)?;
    if world.n <= frame.sender as u32 {
        return Err(Refusal::Unnamed);
    }
    Ok(())
}
