// The exports for programs in other languages: the archive of this crate has each call of `calls`
// under its name. Each calls the function of that name and promises what it promises; an answer is
// a struct of numbers, and what it means stands beside it in `calls`.
// Kept: each call here and in `calls`, since C calls these by their names, and a library can't export;
// and numbers for refusals and as answers, here as there.
#![tactic(auto)]

ghost use Rattle.calls.specs.Frames.{UnpacksFlat, PacksFlat};
ghost use Rattle.calls.specs.Hosts.{DeliversFlat, DeliversWordFlat, AsksFlat, TurnsFlat};
ghost use Rattle.calls.specs.Lines.{WritesRefusalFlat, WritesEventFlat, WritesHostFlat, WritesTotalsFlat};
ghost use Rattle.calls.specs.List.{StepsList};
ghost use Rattle.calls.specs.Runs.{StartsFlat, PlaysFlat};

use calls::frames::{FrameAnswer, WordAnswer};
use calls::hosts::{SaidAnswer, TurnAnswer};
use calls::lines::LineAnswer;
use calls::runs::{PlayAnswer, StartAnswer};
use calls::{frames, hosts, lines, list, runs};
use frame::Frame;
use host::Host;
use quorum::World;
use run::Run;

// Refusals 7, 8, 9.
#[unsafe(no_mangle)]
pub extern "C" fn coircord_unpack(word: u16) -> FrameAnswer
    ensures { UnpacksFlat word result }
{
    frames::coircord_unpack(word)
}

// Refusals 8, 9, 5.
#[unsafe(no_mangle)]
pub extern "C" fn coircord_pack(frame: Frame) -> WordAnswer
    ensures { PacksFlat frame result }
{
    frames::coircord_pack(frame)
}

// Refusals 13, 2, 3, 6, 8, 9, 5, 10, 11, 12.
#[unsafe(no_mangle)]
pub extern "C" fn coircord_deliver(
    sets: &mut [u32],
    host: Host,
    world: World,
    frame: Frame,
    said: bool,
) -> u8
    ensures { DeliversFlat sets.old host world frame said result sets.new }
{
    hosts::coircord_deliver(sets, host, world, frame, said)
}

// Refusals 13, 2, 3, 6, 7, 8, 9, 5, 10, 11, 12.
#[unsafe(no_mangle)]
pub extern "C" fn coircord_deliver_word(
    sets: &mut [u32],
    host: Host,
    world: World,
    word: u16,
    said: bool,
) -> u8
    ensures { DeliversWordFlat sets.old host world word said result sets.new }
{
    hosts::coircord_deliver_word(sets, host, world, word, said)
}

// Refusals 13, 2, 3, 8, 9, 5.
#[unsafe(no_mangle)]
pub extern "C" fn coircord_may_send(
    sets: &[u32],
    host: Host,
    world: World,
    frame: Frame,
) -> SaidAnswer
    ensures { AsksFlat sets.now host world frame result }
{
    hosts::coircord_may_send(sets, host, world, frame)
}

// Refusals 13, 2, 3, 5, 6, 10, and 13 where the move would broadcast with the sent count at 224.
#[unsafe(no_mangle)]
pub extern "C" fn coircord_turn(sets: &mut [u32], host: Host, world: World, me: u32) -> TurnAnswer
    ensures { TurnsFlat sets.old host world me result sets.new }
{
    hosts::coircord_turn(sets, host, world, me)
}

// Refusal 13.
#[unsafe(no_mangle)]
pub extern "C" fn coircord_refusal_line(out: &mut [u8], number: u8) -> LineAnswer
    ensures { WritesRefusalFlat out.old number result out.new }
{
    lines::coircord_refusal_line(out, number)
}

// Refusal 13.
#[unsafe(no_mangle)]
pub extern "C" fn coircord_event_line(out: &mut [u8], event: u32, number: u8) -> LineAnswer
    ensures { WritesEventFlat out.old event number result out.new }
{
    lines::coircord_event_line(out, event, number)
}

// Refusals 13, 2, 3, 5.
#[unsafe(no_mangle)]
pub extern "C" fn coircord_host_line(
    out: &mut [u8],
    me: u32,
    host: Host,
    world: World,
) -> LineAnswer
    ensures { WritesHostFlat out.old me host world result out.new }
{
    lines::coircord_host_line(out, me, host, world)
}

// Refusal 13.
#[unsafe(no_mangle)]
pub extern "C" fn coircord_totals_line(out: &mut [u8], events: u32, refused: u32) -> LineAnswer
    ensures { WritesTotalsFlat out.old events refused result out.new }
{
    lines::coircord_totals_line(out, events, refused)
}

// Refusals 13, 2, 3, 1, then the event's own. The answer is a number: a refusal's below 256; else
// 65,536 for an idle turn or an accepted delivery, twice that for a move that broadcasts nothing, and
// three times that and the packed frame for one that broadcasts.
#[unsafe(no_mangle)]
pub extern "C" fn coircord_step(
    hosts: &mut [Host],
    table: &mut [u32],
    world: World,
    event: &[u8],
) -> u32
    ensures { StepsList hosts.old table.old world event.now result hosts.new table.new }
{
    list::coircord_step(hosts, table, world, event)
}

// Refusals 1, 2, 3, 4, then per host record 1, 4.
#[unsafe(no_mangle)]
pub extern "C" fn coircord_start(bytes: &[u8]) -> StartAnswer
    ensures { StartsFlat bytes.now result }
{
    runs::coircord_start(bytes)
}

// Refusals 13, 2, 3.
#[unsafe(no_mangle)]
pub extern "C" fn coircord_play(run: Run, table: &mut [u32], bytes: &[u8]) -> PlayAnswer
    ensures { PlaysFlat run table.old bytes.now result table.new }
{
    runs::coircord_play(run, table, bytes)
}
