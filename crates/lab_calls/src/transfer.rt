//! Reading a whole input and writing a whole text.
ghost use Rattle.std.specs.Prelude.{◌≡◌, ◌<◌, ◌≤◌, ◌+◌, ◌^◌, length, take, replicate, IfOk, IfErr, OnOk, OnErr};
ghost use Rattle.disk_model.specs.Disk.{Rose};
ghost use Rattle.lab_calls.specs.Streams.{GainsFront};
ghost use Rattle.seata_types.specs.declared.limits.TheConstants.{PIECE_BYTES};
ghost use Rattle.std.specs.Io.KnownBytes.{Consumes, Appends, IsAtEnd};

use crate::streams::{Failed, Sink, Source};
use disk_model::zeros;
use seata_types::limits::PIECE_BYTES;
use std::alloc::Global;

/// Why an input wasn't read.
pub enum ReadFault {
    Failed,
    NoMemory,
}

/// A buffer for one piece.
pub fn piece(alloc: Global) -> Result<Vec<u8>, ReadFault>
    ensures made { IfOk result (λ made. made.items ≡ replicate PIECE_BYTES 0) }
    ensures err { IfErr result (λ e. e ≡ ReadFault.NoMemory) }
{
    match zeros(alloc, PIECE_BYTES) {
        Ok(buffer) => Ok(buffer),
        Err(_) => Err(ReadFault::NoMemory),
    }
}

/// Writes the whole text.
pub fn write_all<K: Sink>(sink: &mut K, text: &[u8]) -> Result<(), Failed>
    ensures ok { OnOk result
        (Appends (K.state sink.old).written (K.state sink.new).written text.now) }
    ensures front { OnErr result
        (GainsFront (K.state sink.old).written (K.state sink.new).written text.now) }
    ensures err { OnErr result (Rose (K.state sink.old).faults (K.state sink.new).faults) }
    ensures counted { (K.state sink.old).faults ≤ (K.state sink.new).faults }
{
    let mut done = 0;
    while done < text.len() {
        let count = sink.write(&text[done..])?;
        if count == 0 {
            return Err(Failed);
        }
        done += count;
    }
    Ok(())
}

/// Reads into the front of a buffer.
pub fn read_some<S: Source>(source: &mut S, buffer: &mut [u8], room: usize) -> Result<usize, Failed>
    requires { room ≤ length buffer.old }
    ensures bound { IfOk result (λ n. n ≤ room) }
    ensures bytes { IfOk result (λ n.
        Consumes (S.state source.old).left (S.state source.new).left (take n buffer.new)) }
    ensures end { IfOk result (λ n. n ≡ 0 → 0 < room → IsAtEnd (S.state source.new).left) }
    ensures err { OnErr result (Rose (S.state source.old).faults (S.state source.new).faults) }
    ensures counted { (S.state source.old).faults ≤ (S.state source.new).faults }
{
    source.read(&mut buffer[..room])
}

/// Reads to the end of the input, or one byte past the most that is taken.
pub fn read_all<S: Source>(alloc: Global, source: &mut S, most: usize) -> Result<Vec<u8>, ReadFault>
    requires { most < 2 ^ 32 }
    ensures bytes { IfOk result (λ bytes.
        Consumes (S.state source.old).left (S.state source.new).left bytes.items) }
    ensures end { IfOk result (λ bytes.
        length bytes.items ≤ most → IsAtEnd (S.state source.new).left) }
    ensures most { IfOk result (λ bytes. length bytes.items ≤ most + 1) }
    ensures err { IfErr result (λ e.
        e ≡ ReadFault.Failed → Rose (S.state source.old).faults (S.state source.new).faults) }
    ensures counted { (S.state source.old).faults ≤ (S.state source.new).faults }
{
    let mut buffer = piece(alloc)?;
    let mut bytes = Vec::new(alloc);
    while bytes.len() <= most {
        let room = PIECE_BYTES.min(most + 1 - bytes.len());
        let count = match read_some(source, &mut buffer, room) {
            Ok(count) => count,
            Err(Failed) => return Err(ReadFault::Failed),
        };
        if count == 0 {
            return Ok(bytes);
        }
        let Ok(()) = bytes.extend_from_slice(&buffer[..count]) else {
            return Err(ReadFault::NoMemory);
        };
    }
    Ok(bytes)
}
