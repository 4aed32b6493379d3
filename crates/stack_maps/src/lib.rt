//! The frames of a StackMapTable (JVMS 4.7.4), both ways: the bytes of the table, and its frames expanded in full.
#![tactic(auto)]

mod decode;
mod encode;
mod expand;
mod frame;
mod frame_stop;
mod marks;
mod written;

pub use decode::{decode_frames, frame_marks};
pub use encode::encode_frames;
pub use frame::{RawFrame, RawType};
pub use frame_stop::FrameStop;
pub use marks::{FrameMark, Mark};

#[cfg(test)]
mod tests;
