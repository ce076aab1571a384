// Choosing a turn's move.
ghost use Rattle.std.specs.Prelude.{◌≡◌, ◌<◌};
ghost use Rattle.host.specs.Record.{Valid};
ghost use Rattle.turn.specs.Moves.{beginning, aux_choice, answering, heard, view_of, viewing, proceeding, chosen};

use crate::instance::{ADMITTED, AUX_SENT, BEGUN, Instance, VAL_SENT, Words};
use frame::AUX;
use host::Host;
use quorum::Thresholds;

// A turn's move, with the instance and the value where it has them. A begin that broadcasts
// nothing is one whose own value an echo had broadcast. A view has bit v set if it holds v.
// Kept: an instance and a value side by side, as the definition `chosen` has them.
#[derive(Clone, Copy, Debug, PartialEq, Eq, Drop)]
pub enum Move {
    Idle,
    Echo(u8, u8),
    Admit(u8, u8),
    BeginUnsent(u8),
    Begin(u8, u8),
    Aux(u8, u8),
    View(u8),
}

// Echo, else admit, else proceed in the current instance.
#[tactic(auto, unfolding(crate::specs::Moves::chosen))]
pub(crate) fn choose(words: &Words, host: Host, at: Thresholds) -> Move
    requires { Valid host }
    ensures { result ≡ chosen words.now.lent.now host at }
{
    if let Some((number, value)) = words.first_due(at.echo, VAL_SENT) {
        return Move::Echo(number, value);
    }
    if let Some((number, value)) = words.first_due(at.admit, ADMITTED) {
        return Move::Admit(number, value);
    }
    let current = Instance {
        words: *words,
        number: host::instance(host.round, host.phase, host.stage) as u8,
    };
    current.proceed(host, at.view)
}

impl Instance<'_> {
    // The move in the current instance. A finished host proceeds no more.
    #[tactic(auto, unfolding(crate::specs::Moves::proceeding))]
    fn proceed(&self, host: Host, need: u32) -> Move
        ensures { result ≡ proceeding self.now.words.lent.now host need self.now.number }
    {
        if host.standing == host::FINISHED {
            Move::Idle
        } else if !self.is_marked(BEGUN, 0) {
            self.begin(host.own)
        } else if self.first_marked(AUX_SENT).is_none() {
            self.answer()
        } else {
            self.complete(need)
        }
    }

    // Begin, with a broadcast of the own value unless an echo had sent it.
    #[tactic(auto, unfolding(crate::specs::Moves::beginning))]
    fn begin(&self, own: u8) -> Move
        ensures { result ≡ beginning self.now.words.lent.now self.now.number own }
    {
        if self.is_marked(VAL_SENT, own) {
            Move::BeginUnsent(self.number)
        } else {
            Move::Begin(self.number, own)
        }
    }

    // AUX of the lowest admitted value.
    fn answer(&self) -> Move
        ensures { result ≡ answering self.now.number (aux_choice self.now.words.lent.now self.now.number) }
    {
        match self.first_marked(ADMITTED) {
            Some(value) => Move::Aux(self.number, value),
            None => Move::Idle,
        }
    }

    // The senders whose AUX is of this value, where it is admitted.
    #[tactic(auto, unfolding(crate::specs::Moves::heard))]
    fn heard(&self, value: u8) -> u32
        ensures { result ≡ heard self.now.words.lent.now self.now.number value }
    {
        if value < self.values() && self.is_marked(ADMITTED, value) {
            self.senders(AUX, value)
        } else {
            0
        }
    }

    // The view, once enough senders are heard.
    #[tactic(auto, unfolding(crate::specs::Moves::viewing, crate::specs::Moves::viewers))]
    fn complete(&self, need: u32) -> Move
        ensures { result ≡ viewing self.now.words.lent.now need self.now.number }
    {
        let zero = self.heard(0);
        let one = self.heard(1);
        let neither = self.heard(2);
        if need <= (zero | one | neither).count_ones() {
            Move::View(view_of(zero, one, neither))
        } else {
            Move::Idle
        }
    }
}

// The values that someone was heard with.
#[tactic(auto, unfolding(crate::specs::Moves::view_of))]
fn view_of(zero: u32, one: u32, neither: u32) -> u8
    ensures { result ≡ view_of zero one neither }
{
    u8::from(zero != 0) | u8::from(one != 0) << 1 | u8::from(neither != 0) << 2
}
