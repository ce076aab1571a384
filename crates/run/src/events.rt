// Playing events one after the other.
ghost use Rattle.std.specs.Prelude.{ℕ, ◌≤◌, ◌<◌, ◌≡◌, length};
ghost use Rattle.answer.specs.Answer.{Answer, number};
ghost use Rattle.turn.specs.Turning.{turn_of};
ghost use Rattle.run.specs.Playing.{pieces, sender_in, record_after, Ending, course};
ghost use Rattle.run.specs.Parts.{played_says, stopped_at, IsCourse};
ghost use Rattle.run.specs.declared.Run.{Run};

use crate::{Played, Run};
use answer::Refusal;
use file::Event;
use host::Host;
use turn::Turned;

// Plays until an event is refused or nothing is left. For an event two records are read and one is
// stored.
// Kept: the table's length as a clause, since the table is lent on as it is.
pub(crate) fn walk(run: Run, table: &mut [u32], bytes: &[u8]) -> Played
    requires { 14336 ≤ length table.old }
    ensures { IsCourse result table.new (course run table.old (pieces bytes.now)) }
{
    let mut going = run;
    // Kept: the place is counted by hand, since the call answers with it.
    let mut at = 0;
    while going.events < u32::MAX {
        match file::event_at(bytes, at) {
            None => {
                break;
            }
            Some(Err(refusal)) => {
                return stop(going, bytes.len(), refusal);
            }
            Some(Ok(event)) => {
                let i = event.host as usize;
                let host = going.hosts[i];
                let sender = going.hosts[sender_of(event)];
                at += 3;
                match table::step(table, host, sender, going.world, event) {
                    Err(refusal) => {
                        return stop(going, at, refusal);
                    }
                    Ok(turned) => {
                        going.hosts[i] = record_after(host, turned);
                        going.events += 1;
                    }
                }
            }
        }
    }
    Played {
        run: going,
        taken: at,
        stop: None,
    }
}

// A refused event is counted twice: among the events and among the refused.
fn stop(run: Run, taken: usize, refusal: Refusal) -> Played
    ensures { ◌≡◌ {A = Answer Ending × (Run × ℕ)} (played_says result) (stopped_at run taken (number refusal)) }
{
    Played {
        run: Run {
            events: run.events.saturating_add(1),
            refused: run.refused.saturating_add(1),
            ..run
        },
        taken,
        stop: Some(refusal),
    }
}

// The sender that an event's frame names, in the word's lowest five bits.
// Kept: beside `places` in `calls`, since it is one expression.
#[tactic(auto, unfolding(frame::specs::Frame::frame_of))]
fn sender_of(event: Event) -> usize
    ensures { (result ≡ sender_in event) × (result < 32) }
{
    (event.word % 32) as usize
}

// The record of the event's host after it.
// Kept: beside the arms of `coircord_step` in `calls`, which store the record and give the number at once.
fn record_after(host: Host, turned: Turned) -> Host
    ensures { result ≡ record_after host (turn_of turned) }
{
    match turned {
        Turned::Idle => host,
        Turned::Quiet(next) => next,
        Turned::Broadcast(next, _) => next,
    }
}
