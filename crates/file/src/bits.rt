// The fields of the numbers that a run file's bytes make, by shifts and masks.
ghost use Rattle.std.specs.Prelude.{◌≡◌};
ghost use Rattle.file.specs.Layouts.{header_world, first_host, event_of};
ghost use Rattle.file.specs.Reading.{bad_record, bad_event};

use crate::{DELIVER, Event, TURN};
use host::Host;
use quorum::World;

// The world that a header's sixteen bits say, whatever they hold.
#[tactic(auto, unfolding(crate::specs::Layouts::header_world))]
pub(crate) fn world_of(word: u16) -> World
    ensures { result ≡ header_world word }
{
    quorum::world_of(u32::from(word >> 11) + 1, u32::from(word >> 7 & 0xf))
}

// 4: a spare bit set, or a liar's record that is not zero.
pub(crate) fn bad_record(number: u32) -> bool
    ensures { result ≡ bad_record number }
{
    let honest = number >> 23 & 1;
    let spare = number >> 16 & 0x3f;
    spare != 0 || (honest == 0 && number != 0)
}

// A host as its record starts it, whatever its spare bits hold.
pub(crate) fn host_of(number: u32) -> Host
    ensures { result ≡ first_host number }
{
    let honest = number >> 23 & 1;
    let proposal = (number >> 22 & 1) as u8;
    Host {
        round: 1,
        phase: 1,
        stage: 0,
        own: proposal,
        est: proposal,
        decision: host::UNDECIDED,
        sent: 0,
        standing: if honest == 0 {
            host::LYING
        } else {
            host::HONEST
        },
        coins: (number & 0xffff) as u16,
    }
}

// The fields of an event.
pub(crate) fn event_of(number: u32) -> Event
    ensures { result ≡ event_of number }
{
    Event {
        kind: (number >> 22 & 3) as u8,
        spare: (number >> 21 & 1) as u8,
        host: (number >> 16 & 0x1f) as u8,
        word: (number & 0xffff) as u16,
    }
}

// 4: a kind that is none, a spare bit set, or a turn's frame that is not zero.
pub(crate) fn bad_event(event: Event) -> bool
    ensures { result ≡ bad_event event }
{
    (event.kind != DELIVER && event.kind != TURN)
        || event.spare != 0
        || (event.kind == TURN && event.word != 0)
}
