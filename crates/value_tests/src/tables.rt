//! Calls with their exact effects, on tables that are filled by statements.
ghost use Rattle.std.specs.Prelude.{◌≡◌, []};

use crate::samples::{Fail, so, text};
use crate::tellings::{tell_effect, tell_error};
use local_tables::{ColType, Schema, TableDef, Tables, Way};
use seata_types::limits::FIELD_ITEMS;
use seata_types::{BranchKind, List, Row, Stmt, Text};
use sql_reader::read_stmt;
use std::alloc::Global;
use std::fmt::Write;

/// A table of numbers, but for the columns whose names are texts', with the places of its key columns.
fn table(alloc: Global, name: &str, columns: &[&str], key: &[u16]) -> Result<TableDef, Fail> {
    let mut named = Vec::new(alloc);
    for column in columns {
        let kind = if matches!(*column, "k" | "t" | "who") {
            ColType::Text
        } else {
            ColType::Int
        };
        named.push((text(alloc, column)?, kind))?;
    }
    let mut places = Vec::new(alloc);
    places.extend_from_slice(key)?;
    Ok(TableDef {
        name: text(alloc, name)?,
        mode: BranchKind::At,
        columns: List::of(named),
        key: List::of(places),
    })
}

/// The tables `acc` with the key id, `tag` with the key k, and `seat` with the key line and no.
fn opened(alloc: Global) -> Result<Tables, Fail> {
    let mut tables = Vec::new(alloc);
    tables.push(table(alloc, "acc", &["id", "m"], &[0])?)?;
    tables.push(table(alloc, "tag", &["n", "k", "t"], &[1])?)?;
    tables.push(table(alloc, "seat", &["no", "line", "who"], &[1, 0])?)?;
    let schema = Schema {
        tables: List::of(tables),
    };
    Ok(Tables::new(alloc, 1, schema, nothing(alloc))?)
}

/// No rows.
fn nothing(alloc: Global) -> List<(Text, Row)>
    ensures { result ≡ [] }
{
    List::of(Vec::new(alloc))
}

/// The statements of a text, with `; ` between them.
fn statements(alloc: Global, words: &str) -> Result<Vec<Stmt>, Fail> {
    let mut stmts = Vec::new(alloc);
    for part in words.split("; ") {
        let Ok(stmt) = read_stmt(alloc, part) else {
            return Err(Fail::Failed);
        };
        stmts.push(stmt)?;
    }
    Ok(stmts)
}

/// The effect of a call, which is then done, and undone where it isn't to be kept; or why it has none.
fn tried(
    alloc: Global,
    tables: &mut Tables,
    stmts: &[Stmt],
    is_kept: bool,
) -> Result<String, Fail> {
    if stmts.len() > FIELD_ITEMS {
        return Err(Fail::Failed);
    }
    match tables.effect(alloc, stmts) {
        Ok(effect) => {
            tables.apply(alloc, effect.images.as_slice(), Way::Do)?;
            if !is_kept {
                tables.apply(alloc, effect.images.as_slice(), Way::Undo)?;
            }
            tell_effect(alloc, &effect)
        }
        Err(error) => tell_error(alloc, &error),
    }
}

/// The effect of a text, which is then done.
fn run(alloc: Global, tables: &mut Tables, words: &str) -> Result<String, Fail> {
    let stmts = statements(alloc, words)?;
    tried(alloc, tables, &stmts, true)
}

/// The effect of a text, which is then done and undone.
fn effect(alloc: Global, tables: &mut Tables, words: &str) -> Result<String, Fail> {
    let stmts = statements(alloc, words)?;
    tried(alloc, tables, &stmts, false)
}

const FILLING: &str =
    "INSERT INTO acc (id, m) VALUES (1, 5), (2, 7), (3, -4); INSERT INTO tag (n, k, t) VALUES (1, 'a', 'x'), (2, 'b', 'y'), (3, 'c', 'x'); INSERT INTO seat (who, no, line) VALUES ('p', 1, 2), ('q', 2, 1), ('r', 1, 1)";

/// Calls and their effects: the images with the row before and after, the reads, and how many rows each statement
/// touches; or the number of the first statement without a meaning, and why it has none.
const CALLS: [(&str, &str); 42] = [
    // what was and is
    (
        "DELETE FROM acc WHERE id = 1; INSERT INTO acc (id, m) VALUES (1, 6)",
        "acc:1(1 5)>(1 6) | 1 1",
    ),
    (
        "INSERT INTO acc (m, id) VALUES (1, 9); DELETE FROM acc WHERE id = 9",
        "acc:9->- | 1 1",
    ),
    (
        "UPDATE acc SET m = m + 2 WHERE id = 1; UPDATE acc SET m = m + 3 WHERE id = 1",
        "acc:1(1 5)>(1 10) | 1 1",
    ),
    ("UPDATE acc SET m = m WHERE id = 1", "acc:1(1 5)>(1 5) | 1"),
    (
        "INSERT INTO acc (id, m) VALUES (9, 1), (0, 2)",
        "acc:0->(0 2) acc:9->(9 1) | 2",
    ),
    (
        "UPDATE acc SET m = 0; DELETE FROM acc WHERE m = 5",
        "acc:1(1 5)>(1 0) acc:2(2 7)>(2 0) acc:3(3 -4)>(3 0) | 3 0",
    ),
    ("UPDATE acc SET m = m + 1 WHERE id = 9", "| 0"),
    // reads
    (
        "UPDATE acc SET m = m + 2 WHERE id = 1; SELECT * FROM acc WHERE id = 1 FOR UPDATE; UPDATE acc SET m = m + 3 WHERE m = 7",
        "acc:1(1 5)>(1 10) acc:2(2 7)>(2 10) acc:1(1 7) | 1 0 2",
    ),
    (
        "SELECT * FROM acc WHERE id = 2 FOR UPDATE; UPDATE acc SET m = 0 WHERE id = 2; SELECT * FROM acc WHERE id <= 2 FOR UPDATE",
        "acc:2(2 7)>(2 0) acc:1(1 5) acc:2(2 0) | 0 1 0",
    ),
    // sums from the left
    (
        "UPDATE acc SET m = 1 - m + id WHERE id = 3",
        "acc:3(3 -4)>(3 8) | 1",
    ),
    (
        "UPDATE acc SET m = m + 9223372036854775807 - 9223372036854775807",
        "1 Overflow acc:1",
    ),
    (
        "UPDATE acc SET m = m + 9223372036854775807 - 1 WHERE id = 3",
        "acc:3(3 -4)>(3 9223372036854775802) | 1",
    ),
    (
        "UPDATE acc SET m = m - 9223372036854775807",
        "1 Overflow acc:3",
    ),
    // texts
    (
        "UPDATE tag SET t = k, n = n + 1 WHERE t = 'x'",
        "tag:'a(1 'a 'x)>(2 'a 'a) tag:'c(3 'c 'x)>(4 'c 'c) | 2",
    ),
    (
        "INSERT INTO tag (t, k, n) VALUES ('1', 'd', 4); SELECT * FROM tag WHERE k > 'b' FOR UPDATE",
        "tag:'d->(4 'd '1) tag:'c(3 'c 'x) tag:'d(4 'd '1) | 1 0",
    ),
    // conditions
    (
        "SELECT * FROM acc WHERE NOT m = 5 FOR UPDATE",
        "acc:2(2 7) acc:3(3 -4) | 0",
    ),
    (
        "SELECT * FROM acc WHERE m = 7 OR id < 3 AND NOT m > 5 FOR UPDATE",
        "acc:1(1 5) acc:2(2 7) | 0",
    ),
    (
        "SELECT * FROM acc WHERE (id = 1 OR id = 3) AND m < 0 FOR UPDATE",
        "acc:3(3 -4) | 0",
    ),
    // one key, looked up or passed
    (
        "SELECT * FROM acc WHERE m = 7 AND id = 2 FOR UPDATE",
        "acc:2(2 7) | 0",
    ),
    (
        "SELECT * FROM acc WHERE id = 2 AND id = 3 FOR UPDATE",
        "| 0",
    ),
    (
        "SELECT * FROM acc WHERE id = 2 OR id = 2 FOR UPDATE",
        "acc:2(2 7) | 0",
    ),
    (
        "DELETE FROM acc WHERE id = 2; SELECT * FROM acc WHERE id = 2 FOR UPDATE",
        "acc:2(2 7)>- | 1 0",
    ),
    (
        "DELETE FROM acc WHERE id = 2; SELECT * FROM acc WHERE NOT id <> 2 FOR UPDATE",
        "acc:2(2 7)>- | 1 0",
    ),
    // keys of two columns, of which the second stands before the first in the table
    (
        "SELECT * FROM seat WHERE line = 1 AND no = 2 FOR UPDATE",
        "seat:1_2(2 1 'q) | 0",
    ),
    (
        "SELECT * FROM seat WHERE no = 1 AND who = 'r' AND line = 1 FOR UPDATE",
        "seat:1_1(1 1 'r) | 0",
    ),
    (
        "SELECT * FROM seat WHERE no = 1 FOR UPDATE",
        "seat:1_1(1 1 'r) seat:2_1(1 2 'p) | 0",
    ),
    (
        "SELECT * FROM seat WHERE no = 1 AND line = 1 AND no = 2 FOR UPDATE",
        "| 0",
    ),
    (
        "INSERT INTO seat (line, no, who) VALUES (1, 3, 'z'), (0, 9, 'y')",
        "seat:0_9->(9 0 'y) seat:1_3->(3 1 'z) | 2",
    ),
    (
        "INSERT INTO seat (line, no, who) VALUES (2, 2, 'z'), (2, 1, 'y')",
        "1 Duplicate seat:2_1",
    ),
    (
        "UPDATE seat SET who = 'n' WHERE line = 2 AND no = 1",
        "seat:2_1(1 2 'p)>(1 2 'n) | 1",
    ),
    ("UPDATE seat SET no = 5", "1 KeyChanged"),
    ("UPDATE seat SET line = 5", "1 KeyChanged"),
    // the errors, in the order in which they are tested
    (
        "SELECT * FROM acc FOR UPDATE; INSERT INTO none (id) VALUES ('x')",
        "2 NoTable",
    ),
    ("UPDATE acc SET id = x, id = 1", "1 NoColumn"),
    ("INSERT INTO acc (id, id) VALUES (1, 1)", "1 Columns"),
    ("INSERT INTO acc (id) VALUES (1)", "1 Columns"),
    ("UPDATE acc SET id = 'x', id = 1", "1 Columns"),
    ("UPDATE acc SET m = 'x', id = 1", "1 KeyChanged"),
    ("UPDATE tag SET t = k + 1", "1 TypeMismatch"),
    (
        "SELECT * FROM acc WHERE m = '5' FOR UPDATE",
        "1 TypeMismatch",
    ),
    (
        "INSERT INTO acc (m, id) VALUES (1, 7), (1, 1), (1, 7)",
        "1 Duplicate acc:7",
    ),
    (
        "INSERT INTO acc (id, m) VALUES (7, 1); INSERT INTO acc (id, m) VALUES (7, 1)",
        "2 Duplicate acc:7",
    ),
];

/// Whether each of these calls has its effect, which is then done and undone.
fn have_effects(
    alloc: Global,
    tables: &mut Tables,
    calls: &[(&'static str, &'static str)],
) -> Result<(), Fail> {
    for (words, wanted) in calls {
        let told = effect(alloc, tables, words)?;
        if told.as_str() != *wanted {
            return Err(Fail::Differs(*words));
        }
    }
    Ok(())
}

/// Three tables with three rows each.
fn filled(alloc: Global) -> Result<Tables, Fail> {
    let mut tables = opened(alloc)?;
    drop(run(alloc, &mut tables, FILLING)?);
    Ok(tables)
}

fn calls_have_effects(alloc: Global) -> Result<(), Fail> {
    let mut tables = filled(alloc)?;
    let answer = have_effects(alloc, &mut tables, &CALLS);
    drop(tables);
    answer
}

#[test]
fn calls_on_three_tables(rt: HostRuntime) -> Result<(), Fail> {
    calls_have_effects(rt.alloc())
}

/// An INSERT of rows from one key on.
fn many(alloc: Global, from: i64, count: i64) -> Result<String, Fail> {
    let mut words = String::from_str(alloc, "INSERT INTO acc (id, m) VALUES ")?;
    for k in 0..count {
        let id = from.saturating_add(k);
        words.push_str(if k == 0 { "" } else { ", " })?;
        write!(words, "({id}, 0)")?;
    }
    Ok(words)
}

/// Puts 4,096 rows in the table `acc` by calls of 256.
fn fill_up(alloc: Global, tables: &mut Tables) -> Result<(), Fail> {
    let mut from = 1i64;
    for _ in 0..16 {
        let words = many(alloc, from, 256)?;
        drop(run(alloc, tables, words.as_str())?);
        from = from.saturating_add(256);
    }
    Ok(())
}

fn too_many_are_refused(alloc: Global, tables: &mut Tables) -> Result<(), Fail> {
    let words = many(alloc, 1, 257)?;
    let told = effect(alloc, tables, words.as_str())?;
    so(told.as_str() == "1 TooManyRows", "a call of too many rows")
}

/// Calls on 4,096 rows.
const LIMITS: [(&str, &str); 7] = [
    ("INSERT INTO acc (id, m) VALUES (5000, 0)", "1 TableFull"),
    (
        "UPDATE acc SET m = m WHERE id = 1; INSERT INTO acc (id, m) VALUES (5000, 0), (1, 0)",
        "2 Duplicate acc:1",
    ),
    (
        "DELETE FROM acc WHERE id = 1; INSERT INTO acc (id, m) VALUES (5000, 0)",
        "acc:1(1 0)>- acc:5000->(5000 0) | 1 1",
    ),
    (
        "SELECT * FROM acc WHERE id < 258 FOR UPDATE",
        "1 TooManyRows",
    ),
    (
        "SELECT * FROM acc WHERE id = 1 FOR UPDATE; DELETE FROM acc WHERE id > 1 AND id < 258",
        "2 TooManyRows",
    ),
    (
        "DELETE FROM acc WHERE id <= 256; INSERT INTO acc (id, m) VALUES (1, 0), (1, 0)",
        "2 Duplicate acc:1",
    ),
    (
        "DELETE FROM acc WHERE id <= 256; INSERT INTO acc (id, m) VALUES (9000, 0), (9000, 0)",
        "2 TooManyRows",
    ),
];

fn limits_hold(alloc: Global, tables: &mut Tables) -> Result<(), Fail> {
    too_many_are_refused(alloc, tables)?;
    fill_up(alloc, tables)?;
    so(tables.rows() == 4096, "the rows of a full table")?;
    have_effects(alloc, tables, &LIMITS)
}

fn calls_have_limits(alloc: Global) -> Result<(), Fail> {
    let mut tables = opened(alloc)?;
    let answer = limits_hold(alloc, &mut tables);
    drop(tables);
    answer
}

#[test]
fn calls_of_too_many_rows(rt: HostRuntime) -> Result<(), Fail> {
    calls_have_limits(rt.alloc())
}
