// A host's words and their 64 instances: the senders and the marks of each, and what is due there.
ghost use Rattle.std.specs.Prelude.{◌≡◌, ◌+◌, ◌<◌, ◌≤◌, length};
ghost use Rattle.quorum.specs.Sets.{member};
ghost use Rattle.host.specs.First.{first};
ghost use Rattle.host.specs.Words.{values, senders, marks};
ghost use Rattle.turn.specs.Moves.{due, search};

use frame::VAL;

// The bits that rows of marks begin at: whether a value was broadcast as VAL, is admitted, and was
// sent as AUX; and the bit that says whether the host has begun.
pub(crate) const VAL_SENT: u8 = 0;

pub(crate) const ADMITTED: u8 = 3;

pub(crate) const BEGUN: u8 = 6;

pub(crate) const AUX_SENT: u8 = 7;

// The words that are lent for a host, of which there are enough.
#[derive(Clone, Copy, Drop)]
pub(crate) struct Words<'a> {
    pub(crate) lent: &'a [u32],
    ghost enough: { 448 ≤ length lent.now },
}

// One of their instances. Its marks stand in rows: a row has one bit for each value.
// Kept: the layout of the words here and in `delivery`, since a type for both crates would be public,
// and its methods would ask for a kind and a value in range, while no public function asks anything.
#[derive(Clone, Copy, Drop)]
pub(crate) struct Instance<'a> {
    pub(crate) words: Words<'a>,
    pub(crate) number: u8,
    ghost in_range: { number < 64 },
}

impl Words<'_> {
    // The instance and the value of the first that is due, by round, phase, stage and value.
    // Kept: nested loops that a label leaves, the form that document 01 asks for at this place.
    pub(crate) fn first_due(&self, need: u32, row: u8) -> Option<(u8, u8)>
        ensures { result ≡ search (due self.now.lent.now need row) }
    {
        let mut found = None;
        'search: for number in 0..64 {
            let instance = Instance {
                words: *self,
                number,
            };
            for value in 0..3 {
                if instance.is_due(need, row, value) {
                    found = Some((number, value));
                    break 'search;
                }
            }
        }
        found
    }
}

impl Instance<'_> {
    // How many values it has: 0, 1 and, in stage 1 only, neither.
    pub(crate) fn values(&self) -> u8
        ensures { result ≡ values self.now.number }
    {
        2 + self.number % 2
    }

    // Its senders of a kind and a value.
    // Kept: a kind by its number, as a frame has it and as the words are laid out.
    #[tactic(auto, unfolding(host::specs::Words::senders))]
    pub(crate) fn senders(&self, kind: u8, value: u8) -> u32
        requires { (kind < 2) × (value < 3) }
        ensures { result ≡ senders self.now.words.lent.now kind self.now.number value }
    {
        self.words.lent[7 * self.number as usize + 3 * kind as usize + value as usize]
    }

    // Its marks.
    #[tactic(auto, unfolding(host::specs::Words::marks))]
    fn marks(&self) -> u32
        ensures { result ≡ marks self.now.words.lent.now self.now.number }
    {
        self.words.lent[7 * self.number as usize + 6]
    }

    // Whether a value is marked in the row that begins at a bit.
    pub(crate) fn is_marked(&self, row: u8, value: u8) -> bool
        ensures { result ≡ member (marks self.now.words.lent.now self.now.number) (row + value) }
    {
        quorum::has(self.marks(), row as usize + value as usize)
    }

    // The first of its values that is marked in a row.
    pub(crate) fn first_marked(&self, row: u8) -> Option<u8>
        ensures { result ≡ first (λ v. member (marks self.now.words.lent.now self.now.number) (row + v)) (values self.now.number) }
    {
        (0..self.values()).find(|&value| self.is_marked(row, value))
    }

    // Whether a value is one of the instance, has `need` or more VAL senders and is not marked in a
    // row.
    #[tactic(auto, unfolding(crate::specs::Moves::due))]
    fn is_due(&self, need: u32, row: u8, value: u8) -> bool
        ensures { result ≡ due self.now.words.lent.now need row self.now.number value }
    {
        value < self.values()
            && need <= self.senders(VAL, value).count_ones()
            && !self.is_marked(row, value)
    }
}
