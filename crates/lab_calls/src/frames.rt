//! The lines of an input of frames.
ghost use Rattle.std.specs.Prelude.{◌≡◌, ◌≢◌, ◌++◌, [], ℕ, List as Items, IfOk, IfErr, OnOk, string_bytes};
ghost use Rattle.disk_model.specs.Disk.{Rose};
ghost use Rattle.seata_types.specs.declared.limits.TheConstants.{INPUT_BYTES};
ghost use Rattle.lab_calls.specs.Answers.{over_text, Answers, IsFramesAnswer, frames_statuses};
ghost use Rattle.lab_calls.specs.FrameLines as lines;
ghost use Rattle.lab_calls.specs.Listings.{Awaits, IsReady};

use crate::answers::Answer;
use crate::listings::Listing;
use crate::statuses::{DONE, INPUT};
use crate::streams::{Failed, Source};
use crate::transfer::{ReadFault, piece, read_some};
use frame_codec::{FrameError, Framed};
use history_text::{Names, Note, add_note, note_of};
use seata_types::limits::{INPUT_BYTES, PIECE_BYTES};
use seata_types::{List, Message, NoMemory};
use std::alloc::{AllocError, Global};

/// No names: places are printed by their numbers.
fn no_names(alloc: Global) -> Names
    ensures { result ≡ lines.no_names }
{
    Names {
        resources: List::of(Vec::new(alloc)),
        managers: List::of(Vec::new(alloc)),
    }
}

/// An offset, a request number and a note, as a line.
fn put_note_line(
    out: &mut String,
    at: u64,
    stamp: u32,
    note: &Note,
    names: &Names,
) -> Result<(), AllocError>
    requires { names.now ≡ lines.no_names }
    ensures { OnOk result
        (string_bytes out.new ≡ string_bytes out.old ++ lines.note_line at stamp note.now) }
{
    write!(out, "{at} {stamp} ")?;
    add_note(out, note, names)?;
    out.push_str("\n")
}

/// The line of a frame.
#[tactic(auto, unfolding(crate::specs::FrameLines::frame_line))]
fn put_frame(
    out: &mut String,
    at: u64,
    stamp: u32,
    message: Message,
    names: &Names,
) -> Result<(), AllocError>
    requires { names.now ≡ lines.no_names }
    ensures { OnOk result
        (string_bytes out.new ≡ string_bytes out.old ++ lines.frame_line at stamp message) }
{
    let note = note_of(message);
    put_note_line(out, at, stamp, &note, names)
}

/// What keeps bytes from beginning with a frame.
fn put_fault(out: &mut String, fault: FrameError) -> Result<(), AllocError>
    ensures { OnOk result
        (string_bytes out.new ≡ string_bytes out.old ++ lines.frame_fault_text fault) }
{
    match fault {
        FrameError::Short { need } => write!(out, "Short {need}"),
        FrameError::Magic => out.push_str("Magic"),
        FrameError::Version => out.push_str("Version"),
        FrameError::Length => out.push_str("Length"),
        FrameError::Compressed(compressor) => write!(out, "Compressed {compressor}"),
        FrameError::UnknownType(code) => write!(out, "UnknownType {code}"),
        FrameError::Body { at } => write!(out, "Body {at}"),
        FrameError::NoMemory => Ok(()),
    }
}

/// The line of a bad frame.
#[tactic(auto, unfolding(crate::specs::FrameLines::bad_frame_line))]
pub fn put_bad_frame(out: &mut String, at: u64, fault: FrameError) -> Result<(), AllocError>
    ensures text { OnOk result
        (string_bytes out.new ≡ string_bytes out.old ++ lines.bad_frame_line at fault) }
    ensures fault { OnOk result (fault ≢ FrameError.NoMemory) }
{
    if fault == FrameError::NoMemory {
        return Err(AllocError);
    }
    write!(out, "{at} ")?;
    put_fault(out, fault)?;
    out.push_str("\n")
}

/// The line of a frame that was given.
fn put_given(out: &mut String, given: Framed, names: &Names) -> Result<(), AllocError>
    requires { names.now ≡ lines.no_names }
    ensures { OnOk result
        (string_bytes out.new ≡ string_bytes out.old
        ++ lines.frame_line given.at given.stamp given.message) }
{
    let Framed { at, message, stamp } = given;
    put_frame(out, at, stamp, message, names)
}

/// The lines of frames that were given, one behind the other.
pub fn put_frames(alloc: Global, out: &mut String, frames: List<Framed>) -> Result<(), AllocError>
    ensures { OnOk result
        (string_bytes out.new ≡ string_bytes out.old ++ lines.given_lines frames) }
{
    let names = no_names(alloc);
    for given in frames.into_vec() {
        put_given(out, given, &names)?;
    }
    Ok(())
}

/// The line of an input of too many bytes.
fn over_text(alloc: Global) -> Result<String, AllocError>
    ensures { IfOk result (λ text. string_bytes text ≡ over_text) }
{
    format!(in alloc; "input: over {INPUT_BYTES} bytes\n")
}

/// The answer to an input of too many bytes.
fn over(alloc: Global) -> Result<Answer, ReadFault>
    ensures text { IfOk result (λ answer. string_bytes answer.text ≡ over_text) }
    ensures status { IfOk result (λ answer. answer.status ≡ 3) }
    ensures err { IfErr result (λ e. e ≡ ReadFault.NoMemory) }
{
    match over_text(alloc) {
        Ok(text) => Ok(Answer {
            text,
            status: INPUT,
        }),
        Err(AllocError) => Err(ReadFault::NoMemory),
    }
}

/// The answer to an input that was read to its end.
fn listed(listing: Listing) -> Result<Answer, ReadFault>
    requires { IsReady listing }
    ensures text { IfOk result (λ answer.
        (text : Items ℕ) → Awaits listing [] text → string_bytes answer.text ≡ text) }
    ensures status { IfOk result (λ answer. answer.status ≡ 0) }
    ensures err { IfErr result (λ e. e ≡ ReadFault.NoMemory) }
{
    match listing.finish() {
        Ok(text) => Ok(Answer { text, status: DONE }),
        Err(NoMemory) => Err(ReadFault::NoMemory),
    }
}

/// Reads an input of frames piece by piece: the lines of its frames, or the line of an input that is too long, with its
/// status.
pub fn list_frames<S: Source>(alloc: Global, source: &mut S) -> Result<Answer, ReadFault>
    ensures answer { IfOk result (λ a. Answers INPUT_BYTES IsFramesAnswer frames_statuses
        (S.state source.old).left (S.state source.new).left (string_bytes a.text) a.status) }
    ensures err { IfErr result (λ e.
        e ≡ ReadFault.Failed → Rose (S.state source.old).faults (S.state source.new).faults) }
{
    let mut buffer = piece(alloc)?;
    let mut listing = Listing::new(alloc);
    let mut total = 0;
    while total <= INPUT_BYTES {
        let room = PIECE_BYTES.min(INPUT_BYTES + 1 - total);
        let count = match read_some(source, &mut buffer, room) {
            Ok(count) => count,
            Err(Failed) => return Err(ReadFault::Failed),
        };
        if count == 0 {
            return listed(listing);
        }
        match listing.take(alloc, &buffer[..count]) {
            Ok(()) => total += count,
            Err(NoMemory) => return Err(ReadFault::NoMemory),
        }
    }
    over(alloc)
}
