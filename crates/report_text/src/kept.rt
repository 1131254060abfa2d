//! What is kept of open tickets, and the numbers of what stands.
use seata_types::{Image, List, ReadRow, Stmt};

/// What a local commit or a Try needs of its open ticket: the call, counted from 1, or 0 of a guarded local transaction; the
/// statements of a Try; and what the statements of an AT call did and read, in order of keys.
#[derive(Drop)]
pub struct OpenWork {
    pub call: u16,
    pub tries: List<Stmt>,
    pub images: List<Image>,
    pub reads: List<ReadRow>,
}

/// The numbers of what stands after a history; those of tables by the names that a made scenario has.
#[derive(Clone, Copy)]
pub struct Totals {
    /// The transactions that began and aren't forgotten.
    pub begun: usize,
    /// Those of them that are finished or failed.
    pub ended: usize,
    /// The sum of the second column of the tables `acc`.
    pub money: i128,
    /// The sum of the third column of the tables `stock`.
    pub held: i128,
    /// The rows that are held.
    pub locks: usize,
}
