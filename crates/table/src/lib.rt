// The run table: the words of 32 hosts, 448 to each, one host after the other; and what an event of
// a run does to it. An event lends its call the words of its own host and no others, so that the
// other hosts' words are as they were.
//
// The call takes every value of its parameters' types and answers document 01's refusal where it
// has one. A refused event changes no word.
#![tactic(auto)]

mod parts;

ghost use Rattle.answer.specs.Answer.{says};
ghost use Rattle.std.specs.Prelude.{◌≡◌};
ghost use Rattle.table.specs.Stepping.{readying, Steps};

use answer::Refusal;
use file::Event;
use host::Host;
use quorum::World;
use turn::Turned;

// Plays one event: refusals 13, 2, 3, 4, 5, 6; for a turn then 10, and 13 where it would broadcast
// with the sent count at 224; for a delivery then 7, 8, 9, 5, 10, 11, 12. `host` is the record of
// the event's host, `sender` that of the frame's sender, which a turn does not look at. A delivery
// that is accepted answers as an idle turn does: it sends nothing and changes no record.
#[tactic(auto, unfolding(crate::specs::Stepping::stepping))]
pub fn step(
    table: &mut [u32],
    host: Host,
    sender: Host,
    world: World,
    event: Event,
) -> Result<Turned, Refusal>
    ensures { Steps table.old host sender world event result table.new }
{
    gate(table.len(), host, sender, world, event)?;
    parts::act(table, host, sender, world, event)
}

// What stops an event before its host is looked at: 13, 2, 3, 4, 5.
#[tactic(auto, using(crate::proofs::Passing::readying_is))]
fn gate(words: usize, host: Host, sender: Host, world: World, event: Event) -> Result<(), Refusal>
    ensures { says result ≡ readying words host sender world event }
{
    let bad_sender = (event.kind == file::DELIVER) & host::out_of_range(sender);
    if (words < 14336) | host::out_of_range(host) | bad_sender {
        return Err(Refusal::Lent);
    }
    quorum::check(world)?;
    file::check(event, world)
}
