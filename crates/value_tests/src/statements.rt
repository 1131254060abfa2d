//! Statements: texts with their exact answers.
ghost use Rattle.sql_reader.specs.Readable.{IsReadable};

use crate::samples::{Fail, copied};
use seata_types::{NoMemory, Stmt};
use sql_reader::{SqlError, SqlKind, read_stmt, write_stmt};
use std::alloc::Global;

/// Texts in the grammar, each with the canonical text of its statement.
const READ: [(&str, &str); 42] = [
    (
        "update t set m=m- -1 where not(a=1 or b='x''y') and c<>2;",
        "UPDATE t SET m = m - -1 WHERE NOT (a = 1 OR b = 'x''y') AND c <> 2",
    ),
    (
        "INSERT INTO acc (id) VALUES (1)",
        "INSERT INTO acc (id) VALUES (1)",
    ),
    (
        "insert into acc(id,m)values(1,'a'),(2,'b')",
        "INSERT INTO acc (id, m) VALUES (1, 'a'), (2, 'b')",
    ),
    (
        "InSeRt InTo a_1 ( b2 ) VaLuEs ( - 5 ) ;",
        "INSERT INTO a_1 (b2) VALUES (-5)",
    ),
    ("UPDATE acc SET m = 1", "UPDATE acc SET m = 1"),
    (
        "uPdAtE acc sEt m = n, k = 'v' wHeRe id >= 3",
        "UPDATE acc SET m = n, k = 'v' WHERE id >= 3",
    ),
    (
        "UPDATE acc SET m = 1+2-n+'x'",
        "UPDATE acc SET m = 1 + 2 - n + 'x'",
    ),
    (
        "UPDATE acc SET m=-1--2+-3",
        "UPDATE acc SET m = -1 - -2 + -3",
    ),
    ("DELETE FROM acc", "DELETE FROM acc"),
    ("dElEtE fRoM acc;", "DELETE FROM acc"),
    (
        "DELETE FROM t WHERE a=2AND b=3",
        "DELETE FROM t WHERE a = 2 AND b = 3",
    ),
    ("SELECT * FROM t FOR UPDATE", "SELECT * FROM t FOR UPDATE"),
    (
        "sElEcT*fRoM t WHERE a<'x' FoR uPdAtE ;",
        "SELECT * FROM t WHERE a < 'x' FOR UPDATE",
    ),
    (
        "UPDATE t SET m = 2WHERE a = 1",
        "UPDATE t SET m = 2 WHERE a = 1",
    ),
    ("DELETE FROM t WHERE a!=1", "DELETE FROM t WHERE a <> 1"),
    (
        "DELETE FROM t WHERE a<=1 oR b>=2 Or c>3 or d<4 or e<>5 or f=6",
        "DELETE FROM t WHERE a <= 1 OR b >= 2 OR c > 3 OR d < 4 OR e <> 5 OR f = 6",
    ),
    (
        "DELETE FROM t WHERE a=1 OR b=2 AND c=3",
        "DELETE FROM t WHERE a = 1 OR b = 2 AND c = 3",
    ),
    (
        "DELETE FROM t WHERE (a=1 OR b=2) AND c=3",
        "DELETE FROM t WHERE (a = 1 OR b = 2) AND c = 3",
    ),
    (
        "DELETE FROM t WHERE c=3 AND (a=1 OR b=2)",
        "DELETE FROM t WHERE c = 3 AND (a = 1 OR b = 2)",
    ),
    (
        "DELETE FROM t WHERE (a=1 AND b=2) AND c=3",
        "DELETE FROM t WHERE a = 1 AND b = 2 AND c = 3",
    ),
    (
        "DELETE FROM t WHERE a=1 AND (b=2 AND c=3)",
        "DELETE FROM t WHERE a = 1 AND (b = 2 AND c = 3)",
    ),
    (
        "DELETE FROM t WHERE (a=1 OR b=2) OR c=3",
        "DELETE FROM t WHERE a = 1 OR b = 2 OR c = 3",
    ),
    (
        "DELETE FROM t WHERE a=1 OR (b=2 OR c=3)",
        "DELETE FROM t WHERE a = 1 OR (b = 2 OR c = 3)",
    ),
    (
        "DELETE FROM t WHERE a=1 OR (b=2 AND c=3)",
        "DELETE FROM t WHERE a = 1 OR b = 2 AND c = 3",
    ),
    (
        "DELETE FROM t WHERE nOt a=1 aNd b=2",
        "DELETE FROM t WHERE NOT a = 1 AND b = 2",
    ),
    (
        "DELETE FROM t WHERE NOT (a=1 AND b=2)",
        "DELETE FROM t WHERE NOT (a = 1 AND b = 2)",
    ),
    (
        "DELETE FROM t WHERE NOT NOT ((a=1))",
        "DELETE FROM t WHERE NOT NOT a = 1",
    ),
    ("DELETE FROM t WHERE a=''", "DELETE FROM t WHERE a = ''"),
    ("DELETE FROM t WHERE a=''''", "DELETE FROM t WHERE a = ''''"),
    (
        "DELETE FROM t WHERE a='it''s; AND ('",
        "DELETE FROM t WHERE a = 'it''s; AND ('",
    ),
    (
        "DELETE FROM t WHERE a='\u{e9}\u{80}'",
        "DELETE FROM t WHERE a = '\u{e9}\u{80}'",
    ),
    (
        "DELETE FROM t WHERE a='xxxxxxxxxxxxxxxxxxxxxxxxxxxxxxxxxxxxxxxxxxxxxxxxxxxxxxxxxxxxxxxxxxxxxxxxxxxxxxxxxxxxxxxxxxxxxxxxxxxxxxxxxxxxxxxxxxxxxxxx'",
        "DELETE FROM t WHERE a = 'xxxxxxxxxxxxxxxxxxxxxxxxxxxxxxxxxxxxxxxxxxxxxxxxxxxxxxxxxxxxxxxxxxxxxxxxxxxxxxxxxxxxxxxxxxxxxxxxxxxxxxxxxxxxxxxxxxxxxxxx'",
    ),
    ("DELETE FROM t WHERE a=007", "DELETE FROM t WHERE a = 7"),
    ("DELETE FROM t WHERE a=-0", "DELETE FROM t WHERE a = 0"),
    (
        "DELETE FROM t WHERE a=9223372036854775807",
        "DELETE FROM t WHERE a = 9223372036854775807",
    ),
    (
        "DELETE FROM t WHERE a=- 9223372036854775808",
        "DELETE FROM t WHERE a = -9223372036854775808",
    ),
    (
        "DELETE FROM t WHERE a=000000000000000000000000000000001",
        "DELETE FROM t WHERE a = 1",
    ),
    (
        "DELETE FROM a2345678901234567890123456789_12",
        "DELETE FROM a2345678901234567890123456789_12",
    ),
    ("DELETE FROM selects", "DELETE FROM selects"),
    ("\t\n\r DELETE\nFROM\tt\r;\n", "DELETE FROM t"),
    (
        "DELETE FROM t WHERE NOT NOT NOT NOT NOT NOT NOT NOT NOT NOT NOT NOT NOT NOT NOT NOT a=1",
        "DELETE FROM t WHERE NOT NOT NOT NOT NOT NOT NOT NOT NOT NOT NOT NOT NOT NOT NOT NOT a = 1",
    ),
    (
        "DELETE FROM t WHERE ((((((((((((((((a=1))))))))))))))))",
        "DELETE FROM t WHERE a = 1",
    ),
];

/// Texts outside it, each with the place and the kind of its refusal.
const REFUSED: [(&str, usize, SqlKind); 64] = [
    ("", 0, SqlKind::End),
    ("  \n", 3, SqlKind::End),
    (";", 0, SqlKind::Token),
    ("FOO", 0, SqlKind::Token),
    ("TABLE t", 0, SqlKind::Token),
    ("'x'", 0, SqlKind::Token),
    ("7", 0, SqlKind::Token),
    ("UPDATE acc SET", 14, SqlKind::End),
    ("UPDATE acc SET  ", 16, SqlKind::End),
    ("UPDATE", 6, SqlKind::End),
    ("UPDATE set SET m = 1", 7, SqlKind::Token),
    ("UPDATE Acc SET m = 1", 7, SqlKind::Token),
    ("UPDATE accX SET m = 1", 7, SqlKind::Token),
    ("UPDATE _a SET m = 1", 7, SqlKind::Token),
    (
        "UPDATE a23456789012345678901234567890_12 SET m = 1",
        7,
        SqlKind::Token,
    ),
    ("UPDATE t m = 1", 9, SqlKind::Token),
    ("UPDATE t SET m 1", 15, SqlKind::Token),
    ("UPDATE t SET m = - x", 19, SqlKind::Token),
    ("UPDATE t SET m = 1 2", 19, SqlKind::Token),
    ("UPDATE t SET m = 1,", 19, SqlKind::End),
    ("UPDATE t SET m = 1 +", 20, SqlKind::End),
    ("UPDATE t SET m = WHERE", 17, SqlKind::Token),
    ("UPDATE t SET m < 1", 15, SqlKind::Token),
    ("INSERT acc", 7, SqlKind::Token),
    ("INSERT INTO acc VALUES (1)", 16, SqlKind::Token),
    ("INSERT INTO acc () VALUES (1)", 17, SqlKind::Token),
    ("INSERT INTO acc (id VALUES (1)", 20, SqlKind::Token),
    ("INSERT INTO acc (id) VALUES ()", 29, SqlKind::Token),
    ("INSERT INTO acc (id) VALUES (x)", 29, SqlKind::Token),
    ("INSERT INTO acc (id) VALUES (1", 30, SqlKind::End),
    ("INSERT INTO acc (id) VALUES (1)(2)", 31, SqlKind::Token),
    ("DELETE acc", 7, SqlKind::Token),
    ("DELETE FROM t;;", 14, SqlKind::Token),
    ("DELETE FROM t; x", 15, SqlKind::Token),
    ("DELETE FROM t WHERE", 19, SqlKind::End),
    ("DELETE FROM t WHERE a", 21, SqlKind::End),
    ("DELETE FROM t WHERE a = b", 24, SqlKind::Token),
    ("DELETE FROM t WHERE 1 = a", 20, SqlKind::Token),
    ("DELETE FROM t WHERE a ! = 1", 22, SqlKind::Token),
    ("DELETE FROM t WHERE a < > 1", 24, SqlKind::Token),
    ("DELETE FROM t WHERE a == 1", 23, SqlKind::Token),
    ("DELETE FROM t WHERE (a = 1", 26, SqlKind::End),
    ("DELETE FROM t WHERE a = 1)", 25, SqlKind::Token),
    ("DELETE FROM t WHERE a = 1 AND", 29, SqlKind::End),
    ("DELETE FROM t WHERE a = 1 b", 26, SqlKind::Token),
    ("SELECT a FROM t FOR UPDATE", 7, SqlKind::Token),
    ("SELECT * FROM t", 15, SqlKind::End),
    ("SELECT * FROM t FOR", 19, SqlKind::End),
    ("SELECT * FROM t FOR DELETE", 20, SqlKind::Token),
    (
        "DELETE FROM t WHERE a=9223372036854775808",
        22,
        SqlKind::Number,
    ),
    (
        "DELETE FROM t WHERE a=-9223372036854775809",
        22,
        SqlKind::Number,
    ),
    (
        "DELETE FROM t WHERE a=-  99999999999999999999999",
        22,
        SqlKind::Number,
    ),
    (
        "UPDATE t SET m = n - 9223372036854775808",
        21,
        SqlKind::Number,
    ),
    ("DELETE FROM t WHERE a='x", 22, SqlKind::Text),
    ("DELETE FROM t WHERE a='x''", 22, SqlKind::Text),
    ("DELETE FROM t WHERE a='x\ny'", 22, SqlKind::Text),
    ("DELETE FROM t WHERE a='\u{7f}'", 22, SqlKind::Text),
    (
        "DELETE FROM t WHERE a='xxxxxxxxxxxxxxxxxxxxxxxxxxxxxxxxxxxxxxxxxxxxxxxxxxxxxxxxxxxxxxxxxxxxxxxxxxxxxxxxxxxxxxxxxxxxxxxxxxxxxxxxxxxxxxxxxxxxxxxxx'",
        22,
        SqlKind::Text,
    ),
    (
        "DELETE FROM t WHERE NOT NOT NOT NOT NOT NOT NOT NOT NOT NOT NOT NOT NOT NOT NOT NOT NOT a=1",
        84,
        SqlKind::Depth,
    ),
    (
        "DELETE FROM t WHERE (((((((((((((((((a=1)))))))))))))))))",
        36,
        SqlKind::Depth,
    ),
    ("DELETE FROM t WHERE # = 1", 20, SqlKind::Token),
    ("DELETE FROM t WHERE \u{e9} = 1", 20, SqlKind::Token),
    ("DELETE FROM t 'x", 14, SqlKind::Token),
    ("DELETE FROM 99999999999999999999", 12, SqlKind::Token),
];

fn written(alloc: Global, statement: Stmt) -> Result<String, NoMemory>
    requires { IsReadable statement }
{
    write_stmt(alloc, &statement)
}

/// The canonical text of a copy of a statement.
fn canonical(alloc: Global, statement: Stmt) -> Result<String, NoMemory>
    requires { IsReadable statement }
{
    let copy = copied(alloc, statement)?;
    written(alloc, copy)
}

/// The canonical text of the statement that a text is.
fn written_again(alloc: Global, text: &str) -> Result<String, Fail> {
    match read_stmt(alloc, text) {
        Ok(statement) => Ok(canonical(alloc, statement)?),
        Err(_) => Err(Fail::Failed),
    }
}

fn are_read(alloc: Global) -> Result<(), Fail> {
    for (text, wanted) in READ {
        let line = written_again(alloc, text)?;
        if line.as_str() != wanted {
            return Err(Fail::Differs(text));
        }
    }
    Ok(())
}

#[test]
fn texts_in_the_grammar(rt: HostRuntime) -> Result<(), Fail> {
    are_read(rt.alloc())
}

/// Why a text is no statement; nothing where it is one.
fn refusal(alloc: Global, text: &str) -> Option<SqlError> {
    match read_stmt(alloc, text) {
        Ok(statement) => {
            drop(statement);
            None
        }
        Err(error) => Some(error),
    }
}

fn are_refused(alloc: Global) -> Result<(), Fail> {
    for (text, at, kind) in REFUSED {
        if refusal(alloc, text) != Some(SqlError::Refused { at, kind }) {
            return Err(Fail::Differs(text));
        }
    }
    Ok(())
}

#[test]
fn texts_outside_the_grammar(rt: HostRuntime) -> Result<(), Fail> {
    are_refused(rt.alloc())
}
