//! A session at its gate, which takes frames.
ghost use Rattle.std.specs.Prelude.{◌*◌};

use crate::note::Note;
use crate::session::Session;
use fix_fields::Frame;
use frame_run::{SoundFrame, TakesFrames};
use gate_ports::{Gate, PortFault, Sink};
use risk_board::Hand;
use screen_kit::Screen;
use std::marker::Model;

/// A gate, and the number of the session that calls it, from 0.
#[derive(Drop)]
pub(crate) struct NumberedGate<'a, G: Gate> {
    pub(crate) number: u32,
    pub(crate) gate: &'a G,
}

/// A session and the gate that it calls as it takes up an order. Contracts see the session.
#[derive(Drop)]
pub(crate) struct AtGate<'a, H: Hand, M: Hand, K: Screen, V: Sink, C: Sink, G: Gate> {
    pub(crate) gate: NumberedGate<'a, G>,
    pub(crate) session: Session<'a, H, M, K, V, C>,
}

impl<'a, H: Hand, M: Hand, K: Screen, V: Sink, C: Sink, G: Gate> Model
    for AtGate<'a, H, M, K, V, C, G> {
    ghost use Rattle.session_engine.specs.Running.{Running};

    ghost Value = { Running H M K };

    ghost view = { λ a. a.session };
}

impl<'a, H: Hand, M: Hand, K: Screen, V: Sink, C: Sink, G: Gate> TakesFrames
    for AtGate<'a, H, M, K, V, C, G> {
    ghost use Rattle.session_engine.specs.Running.{Continues, TookFrames, StoppedFrames, frame_acts};
    ghost use Rattle.session_engine.specs.Later.{continues_same, continues_next};
    ghost use Rattle.session_engine.specs.Stopped.{stopped_whole};

    ghost Took = { λ input. TookFrames K.meaning };

    ghost Stopped = { λ why input. StoppedFrames K.meaning why };

    ghost IsAfter = { λ before now frames.
        Continues H.SameOrigin M.SameOrigin before now (frame_acts * frames) };

    /// Before an order is taken up, the gate is called with the session's number and the order's, both
    /// from 0. None of its fields was read yet but its type.
    fn take_frame(&mut self, bytes: &[u8], frame: &Frame) -> Result<(), PortFault> {
        self.session.reserve()?;
        let Some(sound) = SoundFrame::of(bytes, frame) else {
            self.session.note_frame(Note::NotSound);
            return Ok(());
        };
        if let Some(order) = self.session.number_of(&sound) {
            self.gate.gate.before(self.gate.number, order);
        }
        self.session.take_up(&sound);
        self.session.take_sound(&sound)
    }

    ghost after_none = { λ a.
        continues_same H.SameOrigin M.SameOrigin H.origin_same M.origin_same a 0 };

    ghost after_next = { λ a b c one two.
        continues_next H.SameOrigin M.SameOrigin H.origin_next M.origin_next a b c one two };

    ghost stopped_whole = { λ input. stopped_whole K.meaning };
}
