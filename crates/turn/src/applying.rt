// Applying a turn's move.
ghost use Rattle.std.specs.Prelude.{◌≡◌, List, true, ℕ, ◌<◌, ◌≤◌, length};
ghost use Rattle.answer.specs.Answer.{Answer};
ghost use Rattle.host.specs.Words.{mark, marks_at};
ghost use Rattle.host.specs.Record.{Valid, sent_one};
ghost use Rattle.turn.specs.Applying.{Turn, frame_at, sends, answered, marked_by, InRange};
ghost use Rattle.turn.specs.Turning.{turn_of, turned_says, taking};
ghost use Rattle.turn.specs.declared.Turned.{Turned};

use crate::choosing::Move;
use crate::instance::{ADMITTED, AUX_SENT, BEGUN, VAL_SENT, Words};
use crate::{Turned, choosing};
use answer::Refusal;
use frame::{AUX, Frame, VAL};
use host::Host;
use quorum::Thresholds;

// The turn of a host whose thresholds are known: refusals 5, 6, 10, and 13 where the move would
// broadcast with the sent count at 224.
#[tactic(auto, using(crate::proofs::Within::chosen_in, crate::proofs::Laws::room), unfolding(crate::specs::Turning::taking))]
pub(crate) fn take(
    sets: &mut [u32],
    host: Host,
    at: Thresholds,
    n: u32,
    me: u32,
) -> Result<Turned, Refusal>
    requires { Valid host × (n ≤ 32) × (448 ≤ length sets.old) }
    ensures { ◌≡◌ {A = Answer Turn × List ℕ} (turned_says result, sets.new) (taking sets.old host at n me) }
{
    if n <= me {
        return Err(Refusal::Unnamed);
    }
    if host.standing == host::LYING {
        return Err(Refusal::Liar);
    }
    if host.standing == host::BROKEN {
        return Err(Refusal::Broken);
    }
    let chosen = choosing::choose(&Words { lent: sets }, host, at);
    if sends(chosen) && host.sent == 224 {
        return Err(Refusal::Lent);
    }
    put_marks(sets, chosen);
    Ok(answer(host, me as u8, chosen))
}

// Whether a move broadcasts a frame.
fn sends(chosen: Move) -> bool
    ensures { result ≡ sends chosen }
{
    matches!(chosen, Move::Echo(..) | Move::Begin(..) | Move::Aux(..))
}

// What a move marks.
// Kept: the words' number as a clause, here and of `take`, since both lend the words to be written and
// `Words` only reads them.
fn put_marks(sets: &mut [u32], chosen: Move)
    requires { InRange chosen × (448 ≤ length sets.old) }
    ensures { sets.new ≡ marked_by sets.old chosen }
{
    match chosen {
        Move::Idle | Move::View(_) => {}
        Move::Echo(number, value) => put_mark(sets, number, VAL_SENT + value),
        Move::Admit(number, value) => put_mark(sets, number, ADMITTED + value),
        Move::BeginUnsent(number) => put_mark(sets, number, BEGUN),
        Move::Begin(number, value) => {
            put_mark(sets, number, BEGUN);
            put_mark(sets, number, VAL_SENT + value);
        }
        Move::Aux(number, value) => put_mark(sets, number, AUX_SENT + value),
    }
}

// Sets mark j of an instance.
#[tactic(auto, using(crate::proofs::Laws::marked), unfolding(host::specs::Words::put))]
fn put_mark(sets: &mut [u32], number: u8, j: u8)
    requires { (marks_at number < length sets.old) × (j < 32) }
    ensures { sets.new ≡ mark sets.old number j }
{
    sets[7 * number as usize + 6] |= 1 << j;
}

// What the turn answers.
fn answer(host: Host, me: u8, chosen: Move) -> Turned
    requires { sends chosen ≡ true → host.sent < 224 }
    ensures { turn_of result ≡ answered host me chosen }
{
    match chosen {
        Move::Idle => Turned::Idle,
        Move::Echo(number, value) | Move::Begin(number, value) => {
            speak(host, VAL, number, value, me)
        }
        Move::Aux(number, value) => speak(host, AUX, number, value, me),
        Move::Admit(..) | Move::BeginUnsent(_) => Turned::Quiet(host),
        Move::View(view) => Turned::Quiet(view::after_view(host, view)),
    }
}

// The broadcast of a frame in an instance, counted in the record.
// Kept: a kind by its number, as the frame has it, and an instance and a value side by side, as a
// move has them.
fn speak(host: Host, kind: u8, number: u8, value: u8, me: u8) -> Turned
    requires { host.sent < 224 }
    ensures { result ≡ Turned.Broadcast (sent_one host) (frame_at kind number value me) }
{
    Turned::Broadcast(
        Host {
            sent: host.sent + 1,
            ..host
        },
        Frame {
            kind,
            round: number / 4 + 1,
            phase: number / 2 % 2 + 1,
            stage: number % 2,
            value,
            sender: me,
        },
    )
}
