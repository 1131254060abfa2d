//! A message on its way, with its frame.
ghost use Rattle.std.specs.Prelude.{◌≡◌, ◌<◌, IfOk};
ghost use Rattle.frame_codec.specs.Frames.{frame_bytes};
ghost use Rattle.frame_codec.specs.Limits.{IsFramable};

use crate::encoding;
use seata_types::{Duplicate, Message, NoMemory};
use std::alloc::Global;
use std::marker::Model;

/// A message with a stamp, and the frame of both.
#[derive(Drop)]
struct Kept {
    message: Message,
    stamp: u32,
    bytes: Vec<u8>,
}

/// The one frame of a message that may be sent. Contracts see the message and its stamp. The message is kept beside its frame,
/// so that opening reads no bytes again; what is moved about is one pointer.
#[derive(Drop)]
pub struct Packet {
    kept: Box<Kept>,
}

impl Model for Packet {
    ghost use Rattle.frame_codec.specs.Packets.{Sent, sent_code, IsPacket};

    ghost Value = { Sent };

    ghost coded = { sent_code };

    ghost view = { λ p. record { message = p.kept.value.message; stamp = p.kept.value.stamp } };

    ghost invariant = { λ p. IsPacket p.kept.value.message p.kept.value.stamp p.kept.value.bytes.items };
}

/// The frame of a message with the stamp of the entry that sends it.
pub fn encode(alloc: Global, message: &Message, stamp: u32) -> Result<Packet, NoMemory>
    requires { IsFramable message.now }
    ensures { IfOk result (λ packet. packet ≡ record { message = message.now; stamp = stamp }) }
{
    let bytes = encoding::frame(alloc, message, stamp)?;
    let message = message.copy(alloc)?;
    let kept = Box::new(
        alloc,
        Kept {
            message,
            stamp,
            bytes,
        },
    )?;
    Ok(Packet { kept })
}

impl Packet {
    /// The bytes of the frame.
    pub fn bytes(&self) -> &[u8]
        ensures frame { result.now ≡ frame_bytes self.now.message self.now.stamp }
        ensures framable { IsFramable self.now.message }
    {
        self.kept.bytes.as_slice()
    }

    /// The message and its stamp again.
    pub fn open(&self, alloc: Global) -> Result<(Message, u32), NoMemory>
        ensures message { IfOk result (λ opened. opened.0 ≡ self.now.message) }
        ensures stamp { IfOk result (λ opened. opened.1 ≡ self.now.stamp) }
        ensures framable { IsFramable self.now.message }
    {
        let message = self.kept.message.copy(alloc)?;
        Ok((message, self.kept.stamp))
    }
}
