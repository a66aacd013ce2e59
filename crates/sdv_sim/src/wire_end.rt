//! What goes back over a wire: the frame of a response, or silence.

ghost use Rattle.std.specs.Prelude.{IfSome};
ghost use Rattle.sdv_frames.specs.Frame.{HasIndex};
ghost use Rattle.sdv_behavior.specs.SimSteps.{Gives};

use sdv_controller::WireEnd;
use sdv_frames::{Reply, encode_reply};

/// Gives an answer over a wire: its frame, or silence.
pub fn give(reply: Option<Reply>, response: &mut [u8; 17]) -> WireEnd
    requires { IfSome reply HasIndex }
    ensures { Gives reply result response.new }
{
    match reply {
        None => WireEnd::Silent,
        Some(reply) => {
            let frame = encode_reply(&reply);
            let count = frame.len();
            response[..count].copy_from_slice(frame.as_slice());
            WireEnd::Bytes(count)
        }
    }
}
