//! A sound frame with the bytes that it stands in.
ghost use Rattle.std.specs.Prelude.{◌≡◌, IfSome, IfNone, IsSome, true, false};
ghost use Rattle.fix_fields.specs.Places.{IsSoundIn};
ghost use Rattle.frame_run.specs.Frames.{IsSomeFrame, IsFrameIn};

use fix_fields::Frame;
use std::marker::Model;

/// A frame that is sound in its bytes. Contracts see both.
#[derive(Drop)]
pub struct SoundFrame<'a> {
    bytes: &'a [u8],
    frame: Frame,
}

impl<'a> Model for SoundFrame<'a> {
    ghost use Rattle.frame_run.specs.Frames.{FrameIn};
    ghost use Rattle.fix_fields.specs.Places.{IsSoundIn};

    ghost Value = { FrameIn };

    ghost view = { λ a. record { bytes = a.bytes.now; frame = a.frame } };

    ghost invariant = { λ a. IsSoundIn a.bytes.now a.frame };
}

impl<'a> SoundFrame<'a> {
    /// The frame, where it is sound.
    pub fn of(bytes: &'a [u8], frame: &Frame) -> Option<SoundFrame<'a>>
        requires stands { IsSomeFrame bytes.now frame.now }
        ensures some { IfSome result (IsFrameIn bytes.now frame.now) }
        ensures sound { IsSome result → frame.now.sound ≡ true }
        ensures none { IfNone result (frame.now.sound ≡ false) }
    {
        if frame.sound {
            Some(SoundFrame {
                bytes,
                frame: *frame,
            })
        } else {
            None
        }
    }

    /// The bytes.
    pub fn bytes(&self) -> &'a [u8]
        ensures bytes { result.now ≡ self.now.bytes }
        ensures sound { IsSoundIn self.now.bytes self.now.frame }
    {
        self.bytes
    }

    /// The frame.
    pub fn frame(&self) -> &Frame
        ensures frame { result.now ≡ self.now.frame }
        ensures sound { IsSoundIn self.now.bytes self.now.frame }
    {
        &self.frame
    }
}
