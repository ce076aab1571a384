// One host's words lent as a part of the table.
ghost use Rattle.std.specs.Prelude.{ℕ, ◌≤◌, ◌<◌, ◌≡◌, List, length};
ghost use Rattle.answer.specs.Answer.{Answer};
ghost use Rattle.turn.specs.Applying.{Turn};
ghost use Rattle.turn.specs.Turning.{turned_says};
ghost use Rattle.table.specs.Table.{said};
ghost use Rattle.table.specs.Stepping.{acting};

use answer::Refusal;
use file::Event;
use host::Host;
use quorum::World;
use turn::Turned;

// A turn of the event's host, or a delivery to it.
// Kept: the table's length as a clause, here and of `said`, since the table is lent on as it is; and the
// parameters side by side, as `step` has them.
pub(crate) fn act(
    table: &mut [u32],
    host: Host,
    sender: Host,
    world: World,
    event: Event,
) -> Result<Turned, Refusal>
    requires { (event.host < 32) × (14336 ≤ length table.old) }
    ensures { ◌≡◌ {A = Answer Turn × List ℕ} (turned_says result, table.new) (acting table.old host sender world event) }
{
    let start = 448 * event.host as usize;
    let end = start + 448;
    if event.kind != file::DELIVER {
        return turn::turn(&mut table[start..end], host, world, event.host as u32);
    }
    let said = said(table, sender, world, event.word);
    delivery::deliver_word(&mut table[start..end], host, world, event.word, said)?;
    Ok(Turned::Idle)
}

// Whether a packed frame is one that its sender lies about or has broadcast.
#[tactic(auto, unfolding(crate::specs::Table::said))]
fn said(table: &[u32], sender: Host, world: World, word: u16) -> bool
    requires { 14336 ≤ length table.now }
    ensures { result ≡ said table.now sender world word }
{
    let Ok(frame) = frame::unpack(word) else {
        return false;
    };
    let from = 448 * frame.sender as usize;
    let to = from + 448;
    delivery::may_send(&table[from..to], sender, world, frame).unwrap_or(false)
}
