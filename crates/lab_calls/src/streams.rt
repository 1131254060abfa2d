//! Where input comes from and output goes to.

/// A source or a sink failed. Its count of faults says so too.
#[derive(Clone, Copy)]
pub struct Failed;

/// A source of bytes. It may tell the bytes that are left; it always tells its count of faults.
pub trait Source {
    ghost use Rattle.std.specs.Prelude.{◌≡◌, ◌<◌, ◌≤◌, take, length, IfOk, OnErr};
    ghost use Rattle.disk_model.specs.Disk.{Rose};
    ghost use Rattle.std.specs.Io.KnownBytes.{Consumes, Keeps, IsAtEnd};
    ghost use Rattle.lab_calls.specs.Streams.{SourceState};

    /// The bytes that are left, and its count of faults.
    ghost state: { Self → SourceState };

    /// Reads some bytes: how many. 0 for a slice that isn't empty is the end.
    fn read(&mut self, into: &mut [u8]) -> Result<usize, Failed>
        ensures bound { IfOk result (λ n. n ≤ length into.old) }
        ensures bytes { IfOk result (λ n.
            Consumes (state self.old).left (state self.new).left (take n into.new)) }
        ensures end { IfOk result (λ n.
            n ≡ 0 → 0 < length into.old → IsAtEnd (state self.new).left) }
        ensures failed { OnErr result (Keeps (state self.old).left (state self.new).left) }
        ensures err { OnErr result (Rose (state self.old).faults (state self.new).faults) }
        ensures counted { (state self.old).faults ≤ (state self.new).faults };
}

/// A sink of bytes. It may tell the bytes that were written; it always tells its count of faults.
pub trait Sink {
    ghost use Rattle.std.specs.Prelude.{◌≡◌, ◌<◌, ◌≤◌, take, length, IfOk, OnErr};
    ghost use Rattle.disk_model.specs.Disk.{Rose};
    ghost use Rattle.std.specs.Io.KnownBytes.{Appends, Keeps};
    ghost use Rattle.lab_calls.specs.Streams.{SinkState};

    /// The bytes that were written, and its count of faults.
    ghost state: { Self → SinkState };

    /// Writes some of the bytes: how many from the front on. 0 for a slice that isn't empty is a fault.
    fn write(&mut self, bytes: &[u8]) -> Result<usize, Failed>
        ensures bound { IfOk result (λ n. n ≤ length bytes.now) }
        ensures bytes { IfOk result (λ n.
            Appends (state self.old).written (state self.new).written (take n bytes.now)) }
        ensures stuck { IfOk result (λ n. n ≡ 0 → 0 < length bytes.now
            → Rose (state self.old).faults (state self.new).faults) }
        ensures failed { OnErr result (Keeps (state self.old).written (state self.new).written) }
        ensures err { OnErr result (Rose (state self.old).faults (state self.new).faults) }
        ensures counted { (state self.old).faults ≤ (state self.new).faults };
}
