//! What a resource is, but for its number.
use local_tables::Schema;
use seata_types::{Action, List, Row, Shared, Stmt, Text};

/// What a resource is: its tables with the rows that they open with, each behind its table's name; how often a call tries for
/// the global lock; the actions of its TCC calls, each behind its manager and its call; and its local transactions, each behind
/// its number. All are counted from 1.
#[derive(Drop)]
pub struct Setup {
    pub schema: Schema,
    pub opening: List<(Text, Row)>,
    pub tries: u32,
    pub actions: List<(u16, u16, Shared<Action>)>,
    pub locals: List<(u16, Shared<List<Stmt>>)>,
}
