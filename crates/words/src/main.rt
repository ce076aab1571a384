// Unpacks each of the 65,536 words, packs each accepted one again, and prints how many were
// answered how.
#![tactic(auto)]

ghost use Rattle.std.specs.Prelude.{◌≡◌};
ghost use Rattle.answer.specs.Answer.{number_of};
ghost use Rattle.frame.specs.Frame.{unpacking};
ghost use Rattle.words.specs.Words.{tally};

use answer::Refusal;
use std::io;

fn main(rt: HostRuntime) -> io::Result<()> {
    for refusal in [Refusal::Version, Refusal::Round, Refusal::Value] {
        println!(rt; "{refusal}: {}", how_many(u8::from(refusal)))?;
    }
    println!(rt; "accepted, and packed to the same word: {}", how_many(SAME))?;
    println!(rt;
        "accepted, and not packed to the same word: {}",
        how_many(OTHER)
    )
}

// An accepted word is answered by one of these, which are no refusals of unpacking.
const SAME: u8 = 0;

const OTHER: u8 = 1;

// How a word is answered: by the number of its refusal, or by what packing makes of its frame. The
// promise says that this never is OTHER.
// Kept: answers by numbers, here and in `how_many`, since `tally` counts the words by them.
fn answer_to(word: u16) -> u8
    ensures { result ≡ number_of (unpacking word) }
{
    match frame::unpack(word) {
        Err(refusal) => u8::from(refusal),
        Ok(frame) => {
            if frame::pack(frame) == Ok(word) {
                SAME
            } else {
                OTHER
            }
        }
    }
}

// How many of all words are answered so.
fn how_many(answer: u8) -> usize
    ensures { result ≡ tally 65536 answer }
{
    (0..65536u32)
        .filter(|&word| answer_to(word as u16) == answer)
        .count()
}
