// Frames.
ghost use Rattle.calls.specs.Frames.{UnpacksFlat, PacksFlat};

use crate::flat::flatten;
use frame::Frame;

// Kept: a number with the value beside it, for C; so in the next one.
#[repr(C)]
#[derive(Clone, Copy, Debug, PartialEq, Eq, Drop)]
pub struct FrameAnswer {
    pub refused: u8,
    pub frame: Frame,
}

#[repr(C)]
#[derive(Clone, Copy, Debug, PartialEq, Eq, Drop)]
pub struct WordAnswer {
    pub refused: u8,
    pub word: u16,
}

// `frame::unpack`: refusals 7, 8, 9.
pub fn coircord_unpack(word: u16) -> FrameAnswer
    ensures { UnpacksFlat word result }
{
    let (refused, frame) = flatten(frame::unpack(word), Frame::default());
    FrameAnswer { refused, frame }
}

// `frame::pack`: refusals 8, 9, 5.
pub fn coircord_pack(frame: Frame) -> WordAnswer
    ensures { PacksFlat frame result }
{
    let (refused, word) = flatten(frame::pack(frame), 0);
    WordAnswer { refused, word }
}
