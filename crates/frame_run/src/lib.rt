//! A run over the frames of one source: what comes in is fetched as it is needed, each frame is handed
//! on once it stands whole, and the run ends by what is no frame, or by a fault.
//!
//! At most 33,554,432 bytes are an input. Who takes the frames, and what it makes of each, is no
//! matter here: it is any type that `TakesFrames`.
#![tactic(auto)]

mod ahead;
mod end;
mod frame;
mod taking;

pub use end::{INPUT_MOST, end_by};
pub use frame::SoundFrame;
pub use taking::{TakesFrames, take_input};

#[cfg(test)]
mod tests;
