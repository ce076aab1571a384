// A line, put together in lent bytes.
//
// Kept: not `write!`, since the contract of `fmt::Write` never says when a write succeeds, and a line is
// promised wherever there is room for it.
ghost use Rattle.std.specs.Prelude.{◌+◌, ◌≤◌, ◌++◌, length};
ghost use Rattle.report.specs.Text.{decimal};
ghost use Rattle.report.specs.Parts.{Adds};

use itoa::Buffer;

// The bytes, and how many of them are the line so far.
// Kept: lent bytes with a length beside them, since the library has no heap.
#[derive(Drop)]
pub(crate) struct Line<'a> {
    pub(crate) out: &'a mut [u8],
    pub(crate) length: usize,
}

// Kept: room as a clause of each part, here and of `put_host` and `put_decision`, since each needs
// another.
impl Line<'_> {
    #[tactic(auto, using(std::proofs::lemmas::Slice::overwrites))]
    pub(crate) fn text(&mut self, text: &[u8])
        requires { self.old.length + length text.now ≤ length self.old.out.now }
        ensures { Adds self.old text.now self.new }
    {
        let end = self.length + text.len();
        self.out[self.length..end].copy_from_slice(text);
        self.length = end;
    }

    #[tactic(auto, using(crate::proofs::Digits::printed))]
    pub(crate) fn number(&mut self, n: u32)
        requires { self.old.length + length (decimal n) ≤ length self.old.out.now }
        ensures { Adds self.old (decimal n) self.new }
    {
        self.text(Buffer::new().format(n).as_bytes());
    }

    // A number with its name before it.
    pub(crate) fn field(&mut self, name: &[u8], n: u32)
        requires { self.old.length + length name.now + length (decimal n) ≤ length self.old.out.now }
        ensures { Adds self.old (name.now ++ decimal n) self.new }
    {
        self.text(name);
        self.number(n);
    }
}
