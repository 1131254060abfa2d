//! The frames at the front of bytes.
ghost use Rattle.std.specs.Prelude.{◌≡◌, ◌+◌, ◌<◌, ◌^◌, ◌++◌, ◌∷◌, [], IfOk, IfErr, length, Err};
ghost use Rattle.frame_codec.specs.Frames.{decoded};
ghost use Rattle.frame_codec.specs.Feeding.{Finds, Scans};

use crate::decoding::decode;
use crate::errors::FrameError;
use crate::framed::Framed;
use seata_types::{Message, NoMemory};
use std::alloc::Global;

/// The frames that were found, how many bytes they are, and why no frame follows.
#[derive(Drop)]
pub(crate) struct FrontFrames {
    pub frames: Vec<Framed>,
    pub used: usize,
    pub fault: FrameError,
}

// Keeps a frame behind those that were found.
fn push(frames: &mut Vec<Framed>, at: u64, message: Message, stamp: u32) -> Result<(), NoMemory>
    ensures { IfOk result (λ _. frames.new.items ≡ frames.old.items ++ record { at = at; message = message; stamp = stamp } ∷ []) }
{
    frames.push(Framed { at, message, stamp })?;
    Ok(())
}

// Keeps the frame that bytes begin with and gives its size, or gives the fault.
fn next(
    alloc: Global,
    frames: &mut Vec<Framed>,
    at: u64,
    bytes: &[u8],
) -> Result<Result<usize, FrameError>, NoMemory>
    ensures frame { IfOk result (λ next. IfOk next (Finds at bytes.now frames.old.items frames.new.items)) }
    ensures fault { IfOk result (λ next. IfErr next (λ fault. decoded bytes.now ≡ Err fault)) }
    ensures same { IfOk result (λ next. IfErr next (λ fault. frames.new.items ≡ frames.old.items)) }
{
    match decode(alloc, bytes) {
        Ok((message, stamp, size)) => {
            push(frames, at, message, stamp)?;
            Ok(Ok(size))
        }
        Err(fault) => match fault {
            FrameError::NoMemory => Err(NoMemory),
            _ => Ok(Err(fault)),
        },
    }
}

/// All frames at the front of bytes before which `at` others stand.
pub(crate) fn scan(alloc: Global, at: u64, bytes: &[u8]) -> Result<FrontFrames, NoMemory>
    requires { at + length bytes.now < 2 ^ 64 }
    ensures { IfOk result (λ found. Scans at bytes.now found.frames.items found.used found.fault) }
{
    let mut frames = Vec::new(alloc);
    let mut used = 0;
    loop {
        match next(alloc, &mut frames, at + used as u64, &bytes[used..])? {
            Ok(size) => used += size,
            Err(fault) => {
                return Ok(FrontFrames {
                    frames,
                    used,
                    fault,
                });
            }
        }
    }
}
