//! Rows of the tables and what a statement did to them.
use crate::copies::{Duplicate, NoMemory};
use crate::lists::List;
use crate::texts::Text;
use std::alloc::Global;
use std::cmp::Ordering;

/// A cell of a row: a signed number of 64 bits or a text of at most 120 bytes.
#[derive(Drop, PartialEq, Eq)]
pub enum Value {
    Int(i64),
    Text(Text),
}

impl Duplicate for Value {
    fn copy(&self, alloc: Global) -> Result<Self, NoMemory> {
        match self {
            Value::Int(number) => Ok(Value::Int(*number)),
            Value::Text(text) => Ok(Value::Text(text.copy(alloc)?)),
        }
    }
}

/// A number stands before a text; numbers compare by size, texts by bytes.
impl PartialOrd for Value {
    ghost use Rattle.std.specs.Prelude.{Some};
    ghost use Rattle.seata_types.specs.Orders.{value_cmp};
    ghost use Rattle.seata_types.specs.ValueOrder.{value_order};

    ghost partial_cmp = { λ a b. Some (value_cmp a b) };

    ghost laws = { value_order };

    fn partial_cmp(&self, other: &Self) -> Option<Ordering> {
        Some(self.cmp(other))
    }
}

impl Ord for Value {
    ghost use Rattle.std.specs.Prelude.{refl};
    ghost use Rattle.seata_types.specs.Orders.{value_cmp};
    ghost use Rattle.seata_types.specs.ValueOrder.{value_cmp_total, value_ties};

    ghost cmp = { value_cmp };

    ghost total = { value_cmp_total };

    ghost matches_partial_cmp = { λ a b. refl };

    ghost matches_eq = { value_ties };

    fn cmp(&self, other: &Self) -> Ordering {
        match (self, other) {
            (Value::Int(number), Value::Int(second)) => number.cmp(second),
            (Value::Int(_), Value::Text(_)) => Ordering::Less,
            (Value::Text(_), Value::Int(_)) => Ordering::Greater,
            (Value::Text(text), Value::Text(second)) => text.cmp(second),
        }
    }
}

/// A row: one value for each column, in the columns' order.
#[derive(Drop, PartialEq, Eq)]
pub struct Row(pub List<Value>);

impl Duplicate for Row {
    fn copy(&self, alloc: Global) -> Result<Self, NoMemory> {
        Ok(Row(self.0.copy(alloc)?))
    }
}

/// A row's identity, on which global locks are taken: resource, table, and the values of the
/// table's key columns in key order, one to four. Keys stand in this order, part by part.
#[derive(Drop, PartialEq, Eq, PartialOrd, Ord)]
pub struct RowKey {
    pub resource: u16,
    pub table: Text,
    pub pk: List<Value>,
}

impl Duplicate for RowKey {
    fn copy(&self, alloc: Global) -> Result<Self, NoMemory> {
        Ok(RowKey {
            resource: self.resource,
            table: self.table.copy(alloc)?,
            pk: self.pk.copy(alloc)?,
        })
    }
}

/// What a call did to one row, after Seata's undo log: the row before its first statement that
/// touched it, and after its last.
#[derive(Drop, PartialEq, Eq)]
pub struct Image {
    pub key: RowKey,
    pub before: Option<Row>,
    pub after: Option<Row>,
}

impl Duplicate for Image {
    fn copy(&self, alloc: Global) -> Result<Self, NoMemory> {
        Ok(Image {
            key: self.key.copy(alloc)?,
            before: self.before.copy(alloc)?,
            after: self.after.copy(alloc)?,
        })
    }
}

/// A row that `SELECT .. FOR UPDATE` read, as last read.
#[derive(Drop, PartialEq, Eq)]
pub struct ReadRow {
    pub key: RowKey,
    pub row: Row,
}

impl Duplicate for ReadRow {
    fn copy(&self, alloc: Global) -> Result<Self, NoMemory> {
        Ok(ReadRow {
            key: self.key.copy(alloc)?,
            row: self.row.copy(alloc)?,
        })
    }
}
