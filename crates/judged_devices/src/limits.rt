//! How many entries are judged.

/// A node takes no more own entries than this.
pub const OWN_ENTRIES: u32 = 2_147_483_648;
