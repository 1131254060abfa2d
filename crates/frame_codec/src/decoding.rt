//! What bytes are as a frame.
ghost use Rattle.std.specs.Prelude.{◌≡◌, ◌≤◌, IsOk, IfOk, length};
ghost use Rattle.byte_fields.specs.Taking.{Reads};
ghost use Rattle.frame_codec.specs.Messages.{kind_of};
ghost use Rattle.frame_codec.specs.Heads.{head_at};
ghost use Rattle.frame_codec.specs.Frames.{Gives, AnswersFrame, BeginsWithFrame, in_frame, checked_head, message_behind, decoded};

use crate::bodies;
use crate::errors::FrameError;
use crate::head::{CODEC, CODEC_PLACE, HEAD_BYTES, Head, KIND_PLACE, MAGIC, VERSION};
use byte_fields::{FieldError, Fields};
use seata_types::Message;
use seata_types::limits::BODY_BYTES;
use std::alloc::Global;

impl From<FieldError> for FrameError {
    ghost from_gives = { λ fault error. error ≡ in_frame fault };

    fn from(fault: FieldError) -> FrameError {
        match fault {
            FieldError::Short { at } | FieldError::BadText { at } | FieldError::BadTag { at } =>
                FrameError::Body { at },
            FieldError::NoMemory => FrameError::NoMemory,
        }
    }
}

#[tactic(auto, unfolding(crate::specs::Heads::head_at))]
fn head(fields: &mut Fields) -> Result<Head, FieldError>
    ensures { Reads head_at fields.old fields.new result }
{
    let magic = fields.take_u16()?;
    let version = fields.take_u8()?;
    let full = fields.take_u32()?;
    let size = fields.take_u16()?;
    let kind = fields.take_u8()?;
    let codec = fields.take_u8()?;
    let compressor = fields.take_u8()?;
    let stamp = fields.take_u32()?;
    Ok(Head {
        magic,
        version,
        full,
        size,
        kind,
        codec,
        compressor,
        stamp,
    })
}

// The head of a frame that is there as a whole.
#[tactic(auto, unfolding(crate::specs::Frames::checked_head))]
fn checked_head(bytes: &[u8]) -> Result<Head, FrameError>
    ensures exact { Gives result (checked_head bytes.now) }
    ensures body { IfOk result (λ head. HEAD_BYTES ≤ head.full) }
    ensures whole { IfOk result (λ head. head.full ≤ length bytes.now) }
{
    if bytes.len() < HEAD_BYTES {
        return Err(FrameError::Short { need: HEAD_BYTES });
    }
    let head = head(&mut Fields::new(bytes))?;
    if head.magic != MAGIC {
        return Err(FrameError::Magic);
    }
    if head.version != VERSION {
        return Err(FrameError::Version);
    }
    let full = head.full as usize;
    if head.size as usize != HEAD_BYTES || full < HEAD_BYTES + 2 || full > HEAD_BYTES + BODY_BYTES {
        return Err(FrameError::Length);
    }
    if head.compressor != 0 {
        return Err(FrameError::Compressed(head.compressor));
    }
    if bytes.len() < full {
        return Err(FrameError::Short { need: full });
    }
    Ok(head)
}

// The message behind the head of a frame.
#[tactic(auto, unfolding(crate::specs::Frames::message_behind))]
fn message_behind(alloc: Global, head: Head, bytes: &[u8]) -> Result<Message, FrameError>
    requires body { HEAD_BYTES ≤ head.full }
    requires whole { head.full ≤ length bytes.now }
    ensures { Gives result (message_behind head bytes.now) }
{
    let body = &bytes[HEAD_BYTES..head.full as usize];
    let mut fields = Fields::starting_at(HEAD_BYTES, body);
    let code = fields.take_u16()?;
    if !bodies::is_known(code) {
        return Err(FrameError::UnknownType(code));
    }
    if head.kind != bodies::kind_of(code) {
        return Err(FrameError::Body { at: KIND_PLACE });
    }
    if head.codec != CODEC {
        return Err(FrameError::Body { at: CODEC_PLACE });
    }
    let message = bodies::message(alloc, code, &mut fields)?;
    if fields.at() != head.full as usize {
        drop(message);
        return Err(FrameError::Body { at: fields.at() });
    }
    Ok(message)
}

#[tactic(auto, unfolding(crate::specs::Frames::decoded))]
fn frame(alloc: Global, bytes: &[u8]) -> Result<(Message, u32, usize), FrameError>
    ensures { Gives result (decoded bytes.now) }
{
    let head = checked_head(bytes)?;
    let message = message_behind(alloc, head, bytes)?;
    Ok((message, head.stamp, head.full as usize))
}

/// The message, its request number and the length of the frame that the bytes begin with, or the
/// first fault in the order of the tests.
pub fn decode(alloc: Global, bytes: &[u8]) -> Result<(Message, u32, usize), FrameError>
    // The bytes begin with the one frame of this message with this number, and it is so long.
    ensures found { IfOk result (λ frame. BeginsWithFrame bytes.now frame.0 frame.1 frame.2) }
    // A frame is read as its message whatever follows it, unless memory runs out.
    ensures whole { AnswersFrame bytes.now result }
    // Which fault it is.
    ensures exact { Gives result (decoded bytes.now) }
    // Sixteen bytes are a head, so a fault at a place of the body is one of the body.
    ensures head { HEAD_BYTES ≤ length bytes.now → IsOk (head_at (record { at = 0; rest = bytes.now })) }
{
    frame(alloc, bytes)
}
