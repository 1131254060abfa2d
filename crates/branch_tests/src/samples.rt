//! What several tests share: why a test fails, branches, bytes, tables and statements.
ghost use Rattle.std.specs.Prelude.{◌≡◌, [], length, IfOk};
ghost use Rattle.branch_tests.specs.Accounts.{account_table, accounts};

use local_tables::{ColType, Schema, TableDef, Tables};
use seata_types::{
    BranchId, BranchKind, Leg, List, NoMemory, RowKey, Shared, Stmt, Text, Value, Xid,
};
use sql_reader::read_stmt;
use std::alloc::{AllocError, AllocFailed, Global};

/// Why a test fails.
#[derive(Clone, Copy, Debug, PartialEq)]
pub enum Fail {
    NoMemory,
    /// A call failed that was to pass.
    Failed,
    /// Two disks are damaged.
    Damaged,
    /// This isn't so.
    Differs(&'static str),
    /// It isn't so in the case with this number, counted from 0.
    Case(usize),
}

impl From<NoMemory> for Fail {
    fn from(_: NoMemory) -> Fail {
        Fail::NoMemory
    }
}

impl From<AllocError> for Fail {
    fn from(_: AllocError) -> Fail {
        Fail::NoMemory
    }
}

impl<T: Drop> From<AllocFailed<T>> for Fail {
    fn from(_: AllocFailed<T>) -> Fail {
        Fail::NoMemory
    }
}

/// A test of what a name says.
pub fn so(is: bool, what: &'static str) -> Result<(), Fail> {
    if is { Ok(()) } else { Err(Fail::Differs(what)) }
}

/// Branch 1 of transaction 1.
pub const LEG: [u8; 16] = [0, 0, 0, 0, 0, 0, 0, 1, 0, 0, 0, 0, 0, 0, 0, 1];

/// A record's or a snapshot's bytes, in parts.
pub type Parts = [&'static [u8]; 5];

/// Of table acc of resource 1, the row with key 1 was (1, 1000) and is (1, 900).
pub const IMAGES: [u8; 61] = [
    0, 1, 0, 1, 0, 3, 97, 99, 99, 1, 0, 0, 0, 0, 0, 0, 0, 0, 1, 1, 0, 2, 0, 0, 0, 0, 0, 0, 0, 0, 1,
    0, 0, 0, 0, 0, 0, 0, 3, 232, 1, 0, 2, 0, 0, 0, 0, 0, 0, 0, 0, 1, 0, 0, 0, 0, 0, 0, 0, 3, 132,
];

/// The row with key 1 was (1, 900) and is (1, 1000).
pub const IMAGES_BACK: [u8; 61] = [
    0, 1, 0, 1, 0, 3, 97, 99, 99, 1, 0, 0, 0, 0, 0, 0, 0, 0, 1, 1, 0, 2, 0, 0, 0, 0, 0, 0, 0, 0, 1,
    0, 0, 0, 0, 0, 0, 0, 3, 132, 1, 0, 2, 0, 0, 0, 0, 0, 0, 0, 0, 1, 0, 0, 0, 0, 0, 0, 0, 3, 232,
];

/// The first as earlier programs wrote it, whose keys have no count of their values.
pub const OLD_IMAGES: [u8; 60] = [
    0, 1, 0, 1, 0, 3, 97, 99, 99, 0, 0, 0, 0, 0, 0, 0, 0, 1, 1, 0, 2, 0, 0, 0, 0, 0, 0, 0, 0, 1, 0,
    0, 0, 0, 0, 0, 0, 3, 232, 1, 0, 2, 0, 0, 0, 0, 0, 0, 0, 0, 1, 0, 0, 0, 0, 0, 0, 0, 3, 132,
];

pub fn leg(xid: u64, branch: u64) -> Leg {
    Leg {
        xid: Xid(xid),
        branch: BranchId(branch),
    }
}

pub fn joined(alloc: Global, parts: &[&[u8]]) -> Result<Vec<u8>, Fail> {
    let mut all = Vec::new(alloc);
    for part in parts {
        all.extend_from_slice(part)?;
    }
    Ok(all)
}

pub fn text(alloc: Global, word: &str) -> Result<Text, Fail>
    ensures { IfOk result (λ text. text ≡ word.now) }
{
    Ok(Text::of(String::from_str(alloc, word)?))
}

/// The key of the row with this number, of the table acc.
pub fn key(alloc: Global, number: i64) -> Result<RowKey, Fail> {
    Ok(RowKey {
        resource: 1,
        table: text(alloc, "acc")?,
        pk: List::of(Vec::from_array(alloc, [Value::Int(number)])?),
    })
}

fn account_table(alloc: Global) -> Result<TableDef, Fail>
    ensures { IfOk result (λ def. def ≡ account_table) }
{
    let id = (text(alloc, "id")?, ColType::Int);
    let m = (text(alloc, "m")?, ColType::Int);
    Ok(TableDef {
        name: text(alloc, "acc")?,
        mode: BranchKind::At,
        columns: List::of(Vec::from_array(alloc, [id, m])?),
        key: List::of(Vec::from_array(alloc, [0])?),
    })
}

/// The table acc with the columns id and m, and id as its key.
pub fn accounts(alloc: Global) -> Result<Schema, Fail>
    ensures { IfOk result (λ schema. schema ≡ accounts) }
{
    Ok(Schema {
        tables: List::of(Vec::from_array(alloc, [account_table(alloc)?])?),
    })
}

/// A list without items.
pub fn nothing<T>(alloc: Global) -> List<T>
    ensures { result ≡ [] }
{
    List::of(Vec::new(alloc))
}

/// The table acc without rows.
pub fn tables(alloc: Global) -> Result<Tables, Fail> {
    Ok(Tables::new(alloc, 1, accounts(alloc)?, nothing(alloc))?)
}

/// The one statement that a text is.
pub fn statements(alloc: Global, words: &str) -> Result<Shared<List<Stmt>>, Fail>
    ensures { IfOk result (λ stmts. length stmts ≡ 1) }
{
    match read_stmt(alloc, words) {
        Ok(stmt) => {
            let stmts = Vec::from_array(alloc, [stmt])?;
            Ok(Shared::new(alloc, List::of(stmts))?)
        }
        Err(_) => Err(Fail::Failed),
    }
}
