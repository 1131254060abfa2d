//! Frames out of bytes that come in pieces.
ghost use Rattle.std.specs.Prelude.{◌≡◌, ◌+◌, ◌<◌, ◌≤◌, ◌^◌, ◌++◌, [], Err, true, false, IfOk, IfErr, drop, length};
ghost use Rattle.frame_codec.specs.Feeding.{FramesIn, IsShort, IsLasting, Scans, Feeds, Finishes};
ghost use Rattle.frame_codec.specs.Frames.{decoded};

use crate::errors::FrameError;
use crate::framed::{FeedError, Framed};
use crate::head::HEAD_BYTES;
use crate::scanning::{FrontFrames, scan};
use seata_types::{List, NoMemory};
use std::alloc::Global;
use std::marker::Model;

/// Reads frames out of bytes that come in pieces of any size. Contracts see how many bytes the
/// frames given are, the bytes behind them, and why these begin with no frame.
#[derive(Drop)]
pub struct FrameFeed {
    at: u64,
    rest: Vec<u8>,
    why: FrameError,
}

impl Model for FrameFeed {
    ghost use Rattle.std.specs.Prelude.{◌≡◌, Err};
    ghost use Rattle.frame_codec.specs.Frames.{decoded};
    ghost use Rattle.frame_codec.specs.Feeding.{Fed};

    ghost Value = { Fed };

    ghost view = { λ f. record { at = f.at; rest = f.rest.items; why = f.why } };

    ghost invariant = { λ f. decoded f.rest.items ≡ Err f.why };
}

// Scans a piece before which nothing is left, and leaves what is behind its frames.
fn scan_alone(
    alloc: Global,
    at: u64,
    rest: &mut Vec<u8>,
    piece: &[u8],
) -> Result<FrontFrames, NoMemory>
    requires empty { rest.old.items ≡ [] }
    requires room { at + length piece.now < 2 ^ 64 }
    ensures ok { IfOk result (λ found. Scans at piece.now found.frames.items found.used found.fault) }
    ensures left { IfOk result (λ found. rest.new.items ≡ drop found.used piece.now) }
    ensures err { IfErr result (λ e. rest.new.items ≡ rest.old.items) }
{
    let found = scan(alloc, at, piece)?;
    match Vec::from_slice(alloc, &piece[found.used..]) {
        Ok(tail) => {
            *rest = tail;
            Ok(found)
        }
        Err(_) => {
            drop(found);
            Err(NoMemory)
        }
    }
}

// Cuts off what is in front of the bytes left.
fn cut(alloc: Global, rest: &mut Vec<u8>, used: usize) -> Result<(), NoMemory>
    requires { used ≤ length rest.old.items }
    ensures ok { IfOk result (λ _. rest.new.items ≡ drop used rest.old.items) }
    ensures err { IfErr result (λ e. rest.new.items ≡ rest.old.items) }
{
    // A frame of many pieces is not copied with each of them.
    if used == 0 {
        return Ok(());
    }
    let tail = Vec::from_slice(alloc, &rest[used..])?;
    *rest = tail;
    Ok(())
}

// Scans bytes that are left, and cuts off their frames.
fn scan_left(alloc: Global, at: u64, rest: &mut Vec<u8>) -> Result<FrontFrames, NoMemory>
    requires { at + length rest.old.items < 2 ^ 64 }
    ensures ok { IfOk result (λ found. Scans at rest.old.items found.frames.items found.used found.fault) }
    ensures left { IfOk result (λ found. rest.new.items ≡ drop found.used rest.old.items) }
    ensures err { IfErr result (λ e. rest.new.items ≡ rest.old.items) }
{
    let found = scan(alloc, at, rest)?;
    match cut(alloc, rest, found.used) {
        Ok(()) => Ok(found),
        Err(NoMemory) => {
            drop(found);
            Err(NoMemory)
        }
    }
}

// Scans what is left with a piece behind it.
fn scan_joined(
    alloc: Global,
    at: u64,
    rest: &mut Vec<u8>,
    piece: &[u8],
) -> Result<FrontFrames, NoMemory>
    requires { at + (length rest.old.items + length piece.now) < 2 ^ 64 }
    ensures ok { IfOk result (λ found. Scans at (rest.old.items ++ piece.now) found.frames.items found.used found.fault) }
    ensures left { IfOk result (λ found. rest.new.items ≡ drop found.used (rest.old.items ++ piece.now)) }
    ensures err { IfErr result (λ e. rest.new.items ≡ rest.old.items) }
{
    let kept = rest.len();
    rest.extend_from_slice(piece)?;
    match scan_left(alloc, at, rest) {
        Ok(found) => Ok(found),
        Err(NoMemory) => {
            rest.truncate(kept);
            Err(NoMemory)
        }
    }
}

impl FrameFeed {
    /// A feed before its first piece.
    pub fn new(alloc: Global) -> FrameFeed
        ensures { result ≡ record { at = 0; rest = []; why = FrameError.Short HEAD_BYTES } }
    {
        FrameFeed {
            at: 0,
            rest: Vec::new(alloc),
            why: FrameError::Short { need: HEAD_BYTES },
        }
    }

    /// The bytes behind the frames given.
    pub fn rest(&self) -> &[u8]
        ensures { result.now ≡ self.now.rest }
    {
        self.rest.as_slice()
    }

    // The frames of what is left and a piece.
    fn take(&mut self, alloc: Global, piece: &[u8]) -> Result<List<Framed>, NoMemory>
        requires { self.old.at + (length self.old.rest + length piece.now) < 2 ^ 64 }
        ensures ok { IfOk result (λ frames. FramesIn self.old.at (self.old.rest ++ piece.now) frames self.new.at self.new.rest) }
        ensures counted { IfOk result (λ frames. self.new.at + length self.new.rest ≡ self.old.at + (length self.old.rest + length piece.now)) }
        ensures left { decoded self.new.rest ≡ Err self.new.why }
        ensures err { IfErr result (λ e. self.new ≡ self.old) }
    {
        let found = if self.rest.is_empty() {
            scan_alone(alloc, self.at, &mut self.rest, piece)?
        } else {
            scan_joined(alloc, self.at, &mut self.rest, piece)?
        };
        let FrontFrames {
            frames,
            used,
            fault,
        } = found;
        self.at += used as u64;
        self.why = fault;
        Ok(List::of(frames))
    }

    /// The frames that end in a piece, in their order. All bytes fed are fewer than `2^64`.
    pub fn feed(&mut self, alloc: Global, piece: &[u8]) -> Result<List<Framed>, FeedError>
        requires { self.old.at + (length self.old.rest + length piece.now) < 2 ^ 64 }
        ensures { Feeds self.old piece.now self.new result }
    {
        if !is_short(self.why) {
            let before = List::of(Vec::new(alloc));
            return Err(FeedError::Bad {
                at: self.at,
                why: self.why,
                before,
            });
        }
        let frames = match self.take(alloc, piece) {
            Ok(frames) => frames,
            Err(NoMemory) => return Err(FeedError::NoMemory),
        };
        if is_short(self.why) {
            Ok(frames)
        } else {
            Err(FeedError::Bad {
                at: self.at,
                why: self.why,
                before: frames,
            })
        }
    }

    /// What is wrong with all bytes that were fed: they end inside a frame, or a place of them
    /// begins none; nothing, where they are frames alone.
    pub fn finish(self) -> Option<(u64, FrameError)>
        ensures { Finishes self result }
    {
        if self.rest.is_empty() && is_short(self.why) {
            None
        } else {
            Some((self.at, self.why))
        }
    }
}

fn is_short(why: FrameError) -> bool
    ensures yes { result ≡ true → IsShort why }
    ensures no { result ≡ false → IsLasting why }
{
    matches!(why, FrameError::Short { .. })
}
