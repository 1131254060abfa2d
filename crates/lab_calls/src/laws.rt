//! What holds of the lines of frames, and of calls in a row.
ghost use Rattle.lab_calls.specs.Chained.{KeptCallsGoOn, NewBeginKept, NewNetHoldsNone, NoneAreFirst};
ghost use Rattle.lab_calls.specs.FrameLines.{FrameAddsLine, NothingHasNoLine, BadFrameEnds, FrameOrFault};

use disk_model::Shelf;

/// The lines of bytes are determined by what the bytes are: a frame in front adds its line to the lines of what is
/// behind it, no bytes have none, and bytes that don't begin with a frame have the line of their fault alone. There is
/// no fourth case.
pub fn frames_have_their_lines()
    ensures frame { FrameAddsLine }
    ensures nothing { NothingHasNoLine }
    ensures bad_frame { BadFrameEnds }
    ensures all { FrameOrFault }
{}

/// Whatever its status, a replay or a run leaves disks that the next one of the same scenario may begin with, where the shelf tells
/// and those disks do: on a shelf whose disks calls of the scenario left, those of the nodes hold records that the longer chain of
/// histories may leave, and the disk `net` the first ones of its text. So what is said of a call over disks that hold records, and
/// over a `net` of the same text, is said of each call in a row, with whatever stops and schedule; no disk is damaged there, and
/// none is another scenario's.
pub fn kept_calls_go_on<H: Shelf>()
    ensures { KeptCallsGoOn H.D.state H.state }
{}

/// Such calls begin on new disks, where blank ones tell: a shelf to which nothing was given back under the names of a scenario's
/// nodes, nor under `net`, is after the empty chain, whatever the stops and the schedule. Its disks are blank: those of the nodes
/// hold no record, and `net` holds none either, which is a front of each text.
pub fn new_shelves_begin_kept<H: Shelf>()
    ensures kept { NewBeginKept H.D.state H.state }
    ensures net { NewNetHoldsNone H.D.state H.state }
    ensures front { NoneAreFirst }
{}
