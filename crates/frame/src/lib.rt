// The wire's sixteen bits: a frame is unpacked from a word and packed into one, by shifts and masks.
//
// The calls take every value of their parameter's type and answer document 01's refusal where it
// has one: nothing panics, wraps or is masked away.
#![tactic(auto)]

ghost use Rattle.std.specs.Prelude.{◌+◌, ◌*◌, ◌^◌, ◌≤◌, ◌<◌, ◌≡◌};
ghost use Rattle.frame.specs.Frame.{widths, parts, version, frame_of, word_of, bad_round, bad_value, unnamed, vote_guards, Unpacks, Judges, Packs};
ghost use Rattle.frame.specs.Layout.{Fit};
ghost use Rattle.answer.specs.Answer.{guarded, says};

use answer::Refusal;

// The kinds of frames.
pub const VAL: u8 = 0;

pub const AUX: u8 = 1;

// What a frame says. Kind: VAL or AUX. Round 1 to 16, phase 1 or 2, stage 0 or 1. Value: 0, 1, or
// 2 for "neither". A struct of these may hold any numbers: `pack` refuses what a frame can't say.
// Kept: numbers for the kind and the rest, since `check` and `pack` answer for every number, and a
// frame crosses to C.
#[repr(C)]
#[derive(Clone, Copy, Debug, Default, PartialEq, Eq, Drop)]
pub struct Frame {
    pub kind: u8,
    pub round: u8,
    pub phase: u8,
    pub stage: u8,
    pub value: u8,
    pub sender: u8,
}

// The frame that a word holds: refusals 7, 8, 9.
#[tactic(auto, unfolding(crate::specs::Frame::unpacking))]
pub fn unpack(word: u16) -> Result<Frame, Refusal>
    ensures { Unpacks word result }
{
    if version_of(word) == 1 {
        return Err(Refusal::Version);
    }
    let held = read_fields(word);
    check_vote(held)?;
    Ok(held)
}

// Whether a frame can be said at all, whoever its sender is: refusals 8, 9, 5.
#[tactic(auto, unfolding(crate::specs::Frame::judging))]
pub fn check(frame: Frame) -> Result<(), Refusal>
    ensures { Judges frame result }
{
    check_vote(frame)?;
    if no_name(frame) {
        return Err(Refusal::Unnamed);
    }
    Ok(())
}

// The word that holds a frame: refusals 8, 9, 5.
#[tactic(auto, unfolding(crate::specs::Frame::packing, crate::specs::Frame::judging))]
pub fn pack(frame: Frame) -> Result<u16, Refusal>
    ensures { Packs frame result }
{
    check(frame)?;
    if 31 < frame.sender {
        return Err(Refusal::Unnamed);
    }
    Ok(write_fields(frame))
}

// What a frame can't vote for: refusals 8, 9.
fn check_vote(frame: Frame) -> Result<(), Refusal>
    ensures { says result ≡ guarded (vote_guards frame) tt }
{
    if bad_round(frame.round) {
        return Err(Refusal::Round);
    }
    if bad_value(frame.value, frame.stage) {
        return Err(Refusal::Value);
    }
    Ok(())
}

// 8: a round that is none.
fn bad_round(round: u8) -> bool
    ensures { result ≡ bad_round round }
{
    round == 0 || 16 < round
}

// 9: a value that is none, or neither in stage 0.
fn bad_value(value: u8, stage: u8) -> bool
    ensures { result ≡ bad_value value stage }
{
    2 < value || (value == 2 && stage == 0)
}

// 5: a kind, a phase or a stage that has no name.
fn no_name(frame: Frame) -> bool
    ensures { result ≡ unnamed frame }
{
    1 < frame.kind || frame.phase == 0 || 2 < frame.phase || 1 < frame.stage
}

fn version_of(word: u16) -> u8
    ensures { result ≡ version word }
{
    (word >> 15 & 1) as u8
}

// The other fields of a word, whatever they hold.
#[tactic(auto, unfolding(crate::specs::Frame::frame_of))]
fn read_fields(word: u16) -> Frame
    ensures { result ≡ frame_of word }
{
    Frame {
        kind: (word >> 14 & 1) as u8,
        round: (word >> 9 & 0x1f) as u8,
        phase: (word >> 8 & 1) as u8 + 1,
        stage: (word >> 7 & 1) as u8,
        value: (word >> 5 & 3) as u8,
        sender: (word & 0x1f) as u8,
    }
}

// The word of a frame that no refusal holds back, under version 0.
#[tactic(auto, unfolding(crate::specs::Frame::word_of))]
fn write_fields(frame: Frame) -> u16
    requires { (1 ≤ frame.phase) × Fit widths (parts frame) }
    ensures { result ≡ word_of frame }
{
    let kind = put_below(0, 1, frame.kind);
    let round = put_below(kind, 5, frame.round);
    let phase = put_below(round, 1, frame.phase - 1);
    let stage = put_below(phase, 1, frame.stage);
    let value = put_below(stage, 2, frame.value);
    put_below(value, 5, frame.sender)
}

// The word moved up by `width` bits, with a field of that width put below it.
#[tactic(auto, using(crate::proofs::Laws::shl_or))]
fn put_below(word: u16, width: u32, field: u8) -> u16
    requires { (width < 16) × (field < 2 ^ width) × (word * 2 ^ width + field < 65536) }
    ensures { result ≡ word * 2 ^ width + field }
{
    word << width | field as u16
}
