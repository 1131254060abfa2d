//! The calls of a disk that a stop still lets pass.
ghost use Rattle.std.specs.Prelude.{◌≡◌, option_map};
ghost use Rattle.history_rules.specs.Devices as devices;

/// A record takes this many calls of a disk: the write of its body, a sync, the write of its gate, and a sync.
const RECORD_CALLS: u32 = 4;

/// From this many calls on the gate of a record may be on the disk.
const GATE_CALLS: u32 = 2;

/// Whether a stop lets fewer calls pass than a record takes.
pub(crate) fn is_short(left: Option<u32>) -> bool
    ensures { result ≡ devices.is_short left }
{
    match left {
        Some(calls) => calls < RECORD_CALLS,
        None => false,
    }
}

/// Whether what was in flight may be on the disk: a fault failed it, or a stop fell behind the write of its gate.
pub(crate) fn may_stand(left: Option<u32>) -> bool
    ensures { result ≡ devices.may_stand left }
{
    match left {
        Some(calls) => GATE_CALLS <= calls,
        None => true,
    }
}

/// The calls that are left once a record took its own.
pub(crate) fn spent(left: Option<u32>) -> Option<u32>
    ensures { result ≡ option_map devices.spent left }
{
    match left {
        Some(calls) => Some(calls.saturating_sub(RECORD_CALLS)),
        None => None,
    }
}
