//! Frames that come in pieces, and the lines that are written for them.
ghost use Rattle.std.specs.Prelude.{◌≡◌, true, ◌++◌, ◌+◌, ◌<◌, ◌≤◌, ◌^◌, [], ℕ, List as Items, length, IfOk, OnOk, string_bytes};
ghost use Rattle.lab_calls.specs.FrameLines.{bad_frame_line, given_lines};

use crate::frames::{put_bad_frame, put_frames};
use frame_codec::{FeedError, FrameError, FrameFeed, Framed};
use seata_types::{List, NoMemory};
use std::alloc::{AllocError, Global};

/// The frames that came so far, their lines, and whether a bad one came, whose line is the last.
#[derive(Drop)]
pub struct Listing {
    pub feed: FrameFeed,
    pub lines: String,
    pub ended: bool,
}

impl Listing {
    ghost use Rattle.lab_calls.specs.FrameLines.{frames_text};
    ghost use Rattle.lab_calls.specs.Listings.{Awaits, IsReady, fed};

    /// A listing that nothing was fed to; takes no memory.
    pub fn new(alloc: Global) -> Listing
        ensures awaits { (bytes : Items ℕ) → Awaits result bytes (frames_text bytes) }
        ensures ready { IsReady result }
        ensures fed { fed result ≡ 0 }
    {
        Listing {
            feed: FrameFeed::new(alloc),
            lines: String::new(alloc),
            ended: false,
        }
    }

    /// Takes the next piece of the input, and writes the lines of the frames that end in it.
    pub fn take(&mut self, alloc: Global, piece: &[u8]) -> Result<(), NoMemory>
        requires ready { IsReady self.old }
        requires short { fed self.old + length piece.now < 2 ^ 64 }
        ensures awaits { OnOk result ((rest text : Items ℕ)
            → Awaits self.old (piece.now ++ rest) text → Awaits self.new rest text) }
        ensures ready { OnOk result (IsReady self.new) }
        ensures fed { OnOk result (fed self.new ≤ fed self.old + length piece.now) }
    {
        if self.ended {
            return Ok(());
        }
        match self.feed.feed(alloc, piece) {
            Ok(frames) => {
                self.put(alloc, frames)?;
                Ok(())
            }
            Err(FeedError::Bad { at, why, before }) => {
                self.put(alloc, before)?;
                self.end(at, why)?;
                Ok(())
            }
            Err(FeedError::NoMemory) => Err(NoMemory),
        }
    }

    /// Writes the lines of frames.
    fn put(&mut self, alloc: Global, frames: List<Framed>) -> Result<(), NoMemory>
        ensures lines { OnOk result
            (string_bytes self.new.lines ≡ string_bytes self.old.lines ++ given_lines frames) }
        ensures rest { (self.new.feed ≡ self.old.feed) × (self.new.ended ≡ self.old.ended) }
    {
        match put_frames(alloc, &mut self.lines, frames) {
            Ok(()) => Ok(()),
            Err(AllocError) => Err(NoMemory),
        }
    }

    /// Writes the line of a bad frame, the last one.
    fn end(&mut self, at: u64, why: FrameError) -> Result<(), NoMemory>
        ensures lines { OnOk result
            (string_bytes self.new.lines ≡ string_bytes self.old.lines ++ bad_frame_line at why) }
        ensures ended { self.new.ended ≡ true }
        ensures feed { self.new.feed ≡ self.old.feed }
    {
        self.ended = true;
        match put_bad_frame(&mut self.lines, at, why) {
            Ok(()) => Ok(()),
            Err(AllocError) => Err(NoMemory),
        }
    }

    /// The lines of the whole input, once it was read to its end.
    pub fn finish(self) -> Result<String, NoMemory>
        requires { IsReady self }
        ensures { IfOk result (λ out.
            (text : Items ℕ) → Awaits self [] text → string_bytes out ≡ text) }
    {
        let Listing { feed, lines, ended } = self;
        if ended {
            return Ok(lines);
        }
        match feed.finish() {
            Some((at, why)) => {
                let whole = with_bad_frame(lines, at, why)?;
                Ok(whole)
            }
            None => Ok(lines),
        }
    }
}

/// Lines with that of a bad frame behind them.
fn with_bad_frame(mut lines: String, at: u64, why: FrameError) -> Result<String, NoMemory>
    ensures { IfOk result (λ out. string_bytes out ≡ string_bytes lines ++ bad_frame_line at why) }
{
    match put_bad_frame(&mut lines, at, why) {
        Ok(()) => Ok(lines),
        Err(AllocError) => Err(NoMemory),
    }
}
