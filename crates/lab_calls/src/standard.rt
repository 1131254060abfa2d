//! A source and a sink over readers and writers. They tell of content what these tell: those in memory all of it, the
//! standard streams nothing.
use crate::streams::{Failed, Sink, Source};
use std::io::{Read, Write};

/// A source over a reader, which counts its errors.
#[derive(Drop)]
pub struct StdSource<R> {
    input: R,
    faults: u64,
}

impl<R> StdSource<R> {
    ghost use Rattle.std.specs.Prelude.{◌≡◌};
    ghost use Rattle.lab_calls.specs.StdStreams.{reader, source_faults};

    /// A source over a reader, of which no fault was counted; takes no memory.
    pub fn new(input: R) -> StdSource<R>
        ensures reader { reader result ≡ input }
        ensures faults { source_faults result ≡ 0 }
    {
        StdSource { input, faults: 0 }
    }
}

impl<R: Read> Source for StdSource<R> {
    ghost use Rattle.std.specs.Prelude.{◌≡◌, ◌<◌, ◌≤◌, take, length, is_err, IfOk, OnErr};
    ghost use Rattle.disk_model.specs.Disk.{Rose};
    ghost use Rattle.std.specs.Io.KnownBytes.{Consumes, Keeps, IsAtEnd};
    ghost use Rattle.lab_calls.specs.Streams.{count_after};
    ghost use Rattle.lab_calls.specs.StdStreams.{source_state, source_faults, reader};

    ghost state = { source_state R.remaining };

    fn read(&mut self, into: &mut [u8]) -> Result<usize, Failed>
        ensures bound { IfOk result (λ n. n ≤ length into.old) }
        ensures bytes { IfOk result (λ n. Consumes
            (R.remaining (reader self.old)) (R.remaining (reader self.new)) (take n into.new)) }
        ensures end { IfOk result (λ n.
            n ≡ 0 → 0 < length into.old → IsAtEnd (R.remaining (reader self.new))) }
        ensures failed { OnErr result
            (Keeps (R.remaining (reader self.old)) (R.remaining (reader self.new))) }
        ensures err { OnErr result (Rose (source_faults self.old) (source_faults self.new)) }
        ensures counted { source_faults self.old ≤ source_faults self.new }
        // Each error is counted, and nothing else.
        ensures count { source_faults self.new
            ≡ count_after (is_err result) (source_faults self.old) }
    {
        match self.input.read(into) {
            Ok(count) => Ok(count),
            Err(_) => {
                self.faults = self.faults.saturating_add(1);
                Err(Failed)
            }
        }
    }
}

/// A sink over a writer, which counts its errors, and as one a write that takes none of some bytes.
#[derive(Drop)]
pub struct StdSink<W> {
    output: W,
    faults: u64,
}

impl<W> StdSink<W> {
    ghost use Rattle.std.specs.Prelude.{◌≡◌};
    ghost use Rattle.lab_calls.specs.StdStreams.{writer, sink_faults};

    /// A sink over a writer, of which no fault was counted; takes no memory.
    pub fn new(output: W) -> StdSink<W>
        ensures writer { writer result ≡ output }
        ensures faults { sink_faults result ≡ 0 }
    {
        StdSink { output, faults: 0 }
    }
}

impl<W: Write> Sink for StdSink<W> {
    ghost use Rattle.std.specs.Prelude.{◌≡◌, ◌<◌, ◌≤◌, take, length, IfOk, OnErr};
    ghost use Rattle.disk_model.specs.Disk.{Rose};
    ghost use Rattle.std.specs.Io.KnownBytes.{Appends, Keeps};
    ghost use Rattle.lab_calls.specs.Streams.{count_after, is_failed_write};
    ghost use Rattle.lab_calls.specs.StdStreams.{sink_state, sink_faults, writer};

    ghost state = { sink_state W.contents };

    fn write(&mut self, bytes: &[u8]) -> Result<usize, Failed>
        ensures bound { IfOk result (λ n. n ≤ length bytes.now) }
        ensures bytes { IfOk result (λ n. Appends
            (W.contents (writer self.old)) (W.contents (writer self.new)) (take n bytes.now)) }
        ensures stuck { IfOk result (λ n.
            n ≡ 0 → 0 < length bytes.now → Rose (sink_faults self.old) (sink_faults self.new)) }
        ensures failed { OnErr result
            (Keeps (W.contents (writer self.old)) (W.contents (writer self.new))) }
        ensures err { OnErr result (Rose (sink_faults self.old) (sink_faults self.new)) }
        ensures counted { sink_faults self.old ≤ sink_faults self.new }
        // Each error, and each write that takes none of some bytes, is counted, and nothing else.
        ensures count { sink_faults self.new
            ≡ count_after (is_failed_write bytes.now result) (sink_faults self.old) }
    {
        match self.output.write(bytes) {
            Ok(count) => {
                if count == 0 && !bytes.is_empty() {
                    self.faults = self.faults.saturating_add(1);
                }
                Ok(count)
            }
            Err(_) => {
                self.faults = self.faults.saturating_add(1);
                Err(Failed)
            }
        }
    }
}
