//! SQL statements, the actions of a TCC call, and what a call asks of a resource.
use crate::conditions::Cond;
use crate::copies::{Duplicate, NoMemory};
use crate::lists::List;
use crate::rows::Value;
use crate::sharing::Shared;
use crate::texts::Text;
use std::alloc::Global;

/// A part of an expression: a literal, or a column of the old row.
#[derive(Drop)]
pub enum Term {
    Lit(Value),
    Column(Text),
}

impl Duplicate for Term {
    fn copy(&self, alloc: Global) -> Result<Self, NoMemory> {
        match self {
            Term::Lit(value) => Ok(Term::Lit(value.copy(alloc)?)),
            Term::Column(name) => Ok(Term::Column(name.copy(alloc)?)),
        }
    }
}

#[derive(Clone, Copy, PartialEq, Eq)]
pub enum Sign {
    Plus,
    Minus,
}

impl Duplicate for Sign {
    fn copy(&self, _alloc: Global) -> Result<Self, NoMemory> {
        Ok(*self)
    }
}

/// A sum of terms, from the left.
#[derive(Drop)]
pub struct Expr {
    pub first: Term,
    pub rest: List<(Sign, Term)>,
}

impl Duplicate for Expr {
    fn copy(&self, alloc: Global) -> Result<Self, NoMemory> {
        Ok(Expr {
            first: self.first.copy(alloc)?,
            rest: self.rest.copy(alloc)?,
        })
    }
}

/// A statement. A `Select` is `SELECT * .. FOR UPDATE`.
#[derive(Drop)]
pub enum Stmt {
    Insert {
        table: Text,
        columns: List<Text>,
        rows: List<List<Value>>,
    },
    Update {
        table: Text,
        sets: List<(Text, Expr)>,
        cond: Option<Cond>,
    },
    Delete {
        table: Text,
        cond: Option<Cond>,
    },
    Select {
        table: Text,
        cond: Option<Cond>,
    },
}

impl Duplicate for Stmt {
    fn copy(&self, alloc: Global) -> Result<Self, NoMemory> {
        match self {
            Stmt::Insert {
                table,
                columns,
                rows,
            } => Ok(Stmt::Insert {
                table: table.copy(alloc)?,
                columns: columns.copy(alloc)?,
                rows: rows.copy(alloc)?,
            }),
            Stmt::Update { table, sets, cond } => Ok(Stmt::Update {
                table: table.copy(alloc)?,
                sets: sets.copy(alloc)?,
                cond: cond.copy(alloc)?,
            }),
            Stmt::Delete { table, cond } => Ok(Stmt::Delete {
                table: table.copy(alloc)?,
                cond: cond.copy(alloc)?,
            }),
            Stmt::Select { table, cond } => Ok(Stmt::Select {
                table: table.copy(alloc)?,
                cond: cond.copy(alloc)?,
            }),
        }
    }
}

/// The three statement lists of a TCC call, after Seata's Try, Confirm and Cancel.
#[derive(Drop)]
pub struct Action {
    pub tries: List<Stmt>,
    pub confirms: List<Stmt>,
    pub cancels: List<Stmt>,
}

impl Duplicate for Action {
    fn copy(&self, alloc: Global) -> Result<Self, NoMemory> {
        Ok(Action {
            tries: self.tries.copy(alloc)?,
            confirms: self.confirms.copy(alloc)?,
            cancels: self.cancels.copy(alloc)?,
        })
    }
}

/// What a call asks: statements under the AT mode, or the actions of the TCC mode. All that keep a call share its statements.
#[derive(Drop)]
pub enum Work {
    At(Shared<List<Stmt>>),
    Tcc(Shared<Action>),
}

impl Duplicate for Work {
    fn copy(&self, alloc: Global) -> Result<Self, NoMemory> {
        match self {
            Work::At(statements) => Ok(Work::At(statements.copy(alloc)?)),
            Work::Tcc(action) => Ok(Work::Tcc(action.copy(alloc)?)),
        }
    }
}
