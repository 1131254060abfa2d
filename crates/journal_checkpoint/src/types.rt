//! What stands on the two disks.
use seata_types::List;

/// What the head of a disk says.
#[derive(Clone, Copy)]
pub enum Head {
    /// Its switch is not open.
    Shut,
    /// Its switch is open: a snapshot of so many bytes stands on it, of this generation.
    Open { generation: u32, length: u32 },
    /// Its switch is open, and no snapshot can be as its head says.
    Broken,
}

/// Which disk is active, and what its head says.
#[derive(Clone, Copy)]
pub struct Active {
    /// It is the second one.
    pub second: bool,
    /// Of its snapshot, and 0 where there is none.
    pub generation: u32,
    /// The length of its snapshot in bytes, if there is one.
    pub snapshot: Option<u32>,
    /// The other disk's switch is open too.
    pub other_open: bool,
}

/// What two disks hold: the snapshot, if there is one, and the records past it, in order.
#[derive(Drop)]
pub struct Found {
    /// The second disk is the active one.
    pub second: bool,
    /// Of its snapshot, and 0 where there is none.
    pub generation: u32,
    pub snapshot: Option<List<u8>>,
    pub records: List<List<u8>>,
}

/// Why two disks are not opened. `Damaged` has the disk and the offset of the damage, in bytes from that disk's first.
#[derive(Clone, Copy, Debug, PartialEq, Eq)]
pub enum TwinError {
    Failed,
    Damaged { second: bool, at: u64 },
    NoMemory,
}
