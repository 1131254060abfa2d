//! The layouts of a snapshot.
ghost use Rattle.std.specs.Prelude.{◌≡◌};
ghost use Rattle.session_log.specs.Layouts.{keys_of};

use byte_fields::KeyLayout;

/// How a snapshot stands in bytes: its keys with one value each and no forgotten transactions, or with counted values, or
/// as that with the forgotten transactions at its end; 1, 2 and 3 in the snapshot's first byte. Only the last is written.
#[derive(Clone, Copy)]
pub enum SnapshotLayout {
    SingleKeys,
    CountedKeys,
    WithForgotten,
}

impl SnapshotLayout {
    /// The layout of the keys.
    pub(crate) fn keys(self) -> KeyLayout
        ensures { result ≡ keys_of self }
    {
        match self {
            SnapshotLayout::SingleKeys => KeyLayout::Single,
            SnapshotLayout::CountedKeys => KeyLayout::Counted,
            SnapshotLayout::WithForgotten => KeyLayout::Counted,
        }
    }
}
