// A result without an enum.
ghost use Rattle.std.specs.Prelude.{◌≡◌, ℕ};
ghost use Rattle.answer.specs.Answer.{says};
ghost use Rattle.calls.specs.Flat.{flat};

use answer::Refusal;

// What a call gives, after a 0; or a blank, after the number of its refusal.
// Kept: each answer of this form has a struct of its own, since the check refuses a generic one in an
// exported signature.
pub(crate) fn flatten<T: Copy>(answer: Result<T, Refusal>, blank: T) -> (u8, T)
    ensures { ◌≡◌ {A = ℕ × T} result (flat blank (says answer)) }
{
    match answer {
        Ok(given) => (0, given),
        Err(refusal) => (u8::from(refusal), blank),
    }
}
