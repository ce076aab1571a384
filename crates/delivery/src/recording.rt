// Recording a frame, and what a host has sent itself.
ghost use Rattle.std.specs.Prelude.{◌≡◌, List, ℕ, ◌≤◌, length};
ghost use Rattle.answer.specs.Answer.{Answer, lent, says};
ghost use Rattle.quorum.specs.Sets.{member};
ghost use Rattle.host.specs.Words.{senders, has_sent};
ghost use Rattle.delivery.specs.Recording.{frame_instance, frame_set, held_from, recording};
ghost use Rattle.delivery.specs.Delivery.{concluded};
ghost use Rattle.delivery.specs.Parts.{Told};

use answer::Refusal;
use frame::Frame;

// A host's words, and a frame that they are asked about: the words are all there, and each field of
// the frame is in its range.
// Kept: the layout of the words here and in `turn`, since a type for both crates would be public, and
// its methods would ask for a kind and a value in range, while no public function asks anything.
#[derive(Clone, Copy, Drop)]
pub(crate) struct Heard<'a> {
    pub(crate) sets: &'a [u32],
    pub(crate) frame: Frame,
    ghost told: { Told frame },
    ghost all: { 448 ≤ length sets.now },
}

impl Heard<'_> {
    // The instance that the frame speaks of.
    fn instance(&self) -> usize
        ensures { result ≡ frame_instance self.now.frame }
    {
        host::instance(self.frame.round, self.frame.phase, self.frame.stage)
    }

    // Where the set stands that the frame's sender is to join.
    fn place(&self) -> usize
        ensures { result ≡ frame_set self.now.frame }
    {
        7 * self.instance() + 3 * self.frame.kind as usize + self.frame.value as usize
    }

    // Whether the sender is in that set.
    #[tactic(auto, unfolding(host::specs::Words::senders))]
    fn is_recorded(&self) -> bool
        ensures { result ≡ member (senders self.now.sets.now self.now.frame.kind (frame_instance self.now.frame) self.now.frame.value) self.now.frame.sender }
    {
        quorum::has(self.sets[self.place()], self.frame.sender as usize)
    }

    // What stands in the way of recording the frame: of a VAL nothing, of an AUX the value of one of
    // its sender's, the lowest if the instance holds several.
    fn held(&self) -> Option<usize>
        ensures { result ≡ held_from self.now.sets.now self.now.frame (frame_instance self.now.frame) }
    {
        if self.frame.kind == frame::VAL {
            return None;
        }
        let inst = self.instance();
        let sender = self.frame.sender as usize;
        (0..2 + inst % 2).find(|&value| quorum::has(self.sets[7 * inst + 3 + value], sender))
    }

    // Whether the host has sent the frame itself.
    #[tactic(auto, unfolding(host::specs::Words::marks))]
    pub(crate) fn was_sent(&self) -> bool
        ensures { result ≡ has_sent self.now.sets.now self.now.frame.kind (frame_instance self.now.frame) self.now.frame.value }
    {
        let bit = 7 * self.frame.kind as usize + self.frame.value as usize;
        quorum::has(self.sets[7 * self.instance() + 6], bit)
    }
}

// Records a frame, where no other AUX of its sender is held: refusal 12. A frame that is recorded
// already changes nothing.
// Kept: the two facts as clauses, since the words are written here and `Heard` only reads them.
#[tactic(auto, unfolding(crate::specs::Recording::recording, host::specs::Words::senders, host::specs::Words::put))]
pub(crate) fn record(sets: &mut [u32], frame: Frame) -> Result<(), Refusal>
    requires { Told frame × (448 ≤ length sets.old) }
    ensures { ◌≡◌ {A = Answer Unit × List ℕ} (says result, sets.new) (lent sets.old (concluded (recording sets.old frame))) }
{
    let heard = Heard { sets, frame };
    if heard.is_recorded() {
        return Ok(());
    }
    if heard.held().is_some() {
        return Err(Refusal::OtherAux);
    }
    let place = heard.place();
    sets[place] |= 1 << frame.sender;
    Ok(())
}
