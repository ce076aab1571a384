// One host.
ghost use Rattle.calls.specs.Hosts.{DeliversFlat, DeliversWordFlat, AsksFlat, TurnsFlat};

use crate::flat::flatten;
use frame::Frame;
use host::Host;
use quorum::World;
use turn::Turned;

// Kept: a number with the value beside it, for C.
#[repr(C)]
#[derive(Clone, Copy, Debug, PartialEq, Eq, Drop)]
pub struct SaidAnswer {
    pub refused: u8,
    pub said: bool,
}

// `moved` is 0 for an idle turn, 1 for a move that broadcasts nothing and 2 for one that broadcasts
// `frame`. `host` is the record after the turn.
// Kept: numbers for the refusal and the move, with what they go with beside them, for C.
#[repr(C)]
#[derive(Clone, Copy, Debug, PartialEq, Eq, Drop)]
pub struct TurnAnswer {
    pub refused: u8,
    pub moved: u8,
    pub host: Host,
    pub frame: Frame,
}

// `delivery::deliver`: refusals 13, 2, 3, 6, 8, 9, 5, 10, 11, 12.
// Kept: here and in the next call a number as the answer, for C.
pub fn coircord_deliver(sets: &mut [u32], host: Host, world: World, frame: Frame, said: bool) -> u8
    ensures { DeliversFlat sets.old host world frame said result sets.new }
{
    flatten(delivery::deliver(sets, host, world, frame, said), ()).0
}

// `delivery::deliver_word`: refusals 13, 2, 3, 6, 7, 8, 9, 5, 10, 11, 12.
pub fn coircord_deliver_word(
    sets: &mut [u32],
    host: Host,
    world: World,
    word: u16,
    said: bool,
) -> u8
    ensures { DeliversWordFlat sets.old host world word said result sets.new }
{
    flatten(delivery::deliver_word(sets, host, world, word, said), ()).0
}

// `delivery::may_send`: refusals 13, 2, 3, 8, 9, 5.
pub fn coircord_may_send(sets: &[u32], host: Host, world: World, frame: Frame) -> SaidAnswer
    ensures { AsksFlat sets.now host world frame result }
{
    let (refused, said) = flatten(delivery::may_send(sets, host, world, frame), false);
    SaidAnswer { refused, said }
}

// `turn::turn`: refusals 13, 2, 3, 5, 6, 10, and 13 where the move would broadcast with the sent
// count at 224.
pub fn coircord_turn(sets: &mut [u32], host: Host, world: World, me: u32) -> TurnAnswer
    ensures { TurnsFlat sets.old host world me result sets.new }
{
    let idle = TurnAnswer {
        refused: 0,
        moved: 0,
        host,
        frame: Frame::default(),
    };
    match turn::turn(sets, host, world, me) {
        Ok(Turned::Idle) => idle,
        Ok(Turned::Quiet(next)) => TurnAnswer {
            moved: 1,
            host: next,
            ..idle
        },
        Ok(Turned::Broadcast(next, frame)) => TurnAnswer {
            moved: 2,
            host: next,
            frame,
            ..idle
        },
        Err(refusal) => TurnAnswer {
            refused: u8::from(refusal),
            ..idle
        },
    }
}
