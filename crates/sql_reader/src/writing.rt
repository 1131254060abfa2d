//! Writes statements.
ghost use Rattle.std.specs.Prelude.{List as Items, ◌≡◌, ◌<◌, ◌≤◌, ◌+◌, ◌*◌, ◌∷◌, ◌++◌, [], ◌||◌, OnOk, IfOk, string_bytes, Ok};
ghost use Rattle.seata_types.specs.Condition.{nodes};
ghost use Rattle.sql_reader.specs.Pending.{stacked, turns};
ghost use Rattle.sql_reader.specs.Canonical as spec;
ghost use Rattle.sql_reader.specs.Canonical.{canonical_text, written};
ghost use Rattle.sql_reader.specs.Answer.{reading};
ghost use Rattle.sql_reader.specs.Readable.{IsReadable};

use crate::symbols::Symbol;
use crate::tasks::Task;
use crate::writer::Writer;
use seata_types::{Cond, CondNode, Expr, List, NoMemory, Op, Sign, Stmt, Term, Text, Value};
use std::alloc::Global;

fn value(writer: &mut Writer, value: &Value) -> Result<(), NoMemory>
    ensures { OnOk result (writer.new ≡ spec.put writer.old (spec.value_piece value.now)) }
{
    match value {
        Value::Int(number) => writer.number(*number),
        Value::Text(text) => writer.quoted(text.as_str()),
    }
}

fn term(writer: &mut Writer, term: &Term) -> Result<(), NoMemory>
    ensures { OnOk result (writer.new ≡ spec.put writer.old (spec.term_piece term.now)) }
{
    match term {
        Term::Lit(found) => value(writer, found),
        Term::Column(name) => writer.name(name.as_str()),
    }
}

fn sign_of(sign: Sign) -> Symbol
    ensures { result ≡ spec.sign_of sign }
{
    match sign {
        Sign::Plus => Symbol::Plus,
        Sign::Minus => Symbol::Minus,
    }
}

#[tactic(auto, unfolding(crate::specs::Canonical::expr_pieces))]
fn expr(writer: &mut Writer, expr: &Expr) -> Result<(), NoMemory>
    ensures { OnOk result (writer.new ≡ written writer.old (spec.expr_pieces expr.now)) }
{
    term(writer, &expr.first)?;
    for (sign, next) in expr.rest.as_slice() {
        writer.symbol(sign_of(*sign))?;
        term(writer, next)?;
    }
    Ok(())
}

fn op_symbol(op: Op) -> Symbol
    ensures { result ≡ spec.op_symbol op }
{
    match op {
        Op::Eq => Symbol::Equal,
        Op::Ne => Symbol::NotEqual,
        Op::Lt => Symbol::Less,
        Op::Le => Symbol::LessOrEqual,
        Op::Gt => Symbol::Greater,
        Op::Ge => Symbol::GreaterOrEqual,
    }
}

fn is_or(cond: &Cond) -> bool
    ensures { result ≡ spec.is_or cond.now }
{
    matches!(&cond.node, CondNode::Or(..))
}

fn is_joined(cond: &Cond) -> bool
    ensures { result ≡ (spec.is_or cond.now || spec.is_and cond.now) }
{
    matches!(&cond.node, CondNode::Or(..) | CondNode::And(..))
}

fn comparison(writer: &mut Writer, column: &Text, op: Op, compared: &Value) -> Result<(), NoMemory>
    ensures { OnOk result (writer.new ≡ written writer.old (spec.Name column.now ∷ spec.Fixed (spec.op_symbol op) ∷ spec.value_piece compared.now ∷ [])) }
{
    writer.name(column.as_str())?;
    writer.symbol(op_symbol(op))?;
    value(writer, compared)?;
    Ok(())
}

fn later<'a>(tasks: &mut Vec<Task<'a>>, task: Task<'a>) -> Result<(), NoMemory>
    ensures { OnOk result (tasks.new.items ≡ tasks.old.items ++ task.entry ∷ []) }
{
    tasks.push(task)?;
    Ok(())
}

/// Puts a part of a condition on the stack, in parentheses where it has to be.
#[tactic(auto, using(crate::proofs::Stacks::stacked_last, crate::proofs::Stacks::turns_last, crate::proofs::Stacks::grouped_append))]
fn later_part<'a>(
    tasks: &mut Vec<Task<'a>>,
    part: &'a Cond,
    is_grouped: bool,
) -> Result<(), NoMemory>
    ensures pieces { OnOk result (stacked tasks.new.items ≡ spec.grouped is_grouped (spec.condition_pieces part.now) ++ stacked tasks.old.items) }
    ensures turns { OnOk result (turns tasks.new.items ≤ 6 * nodes part.now + 2 + turns tasks.old.items) }
{
    if !is_grouped {
        return later(tasks, Task::Part(part));
    }
    later(tasks, Task::Symbol(Symbol::Close))?;
    later(tasks, Task::Part(part))?;
    later(tasks, Task::Symbol(Symbol::Open))?;
    Ok(())
}

/// Begins a condition: writes a comparison, and puts the parts of any other on the stack.
#[tactic(auto, using(crate::proofs::Stacks::stacked_last, crate::proofs::Stacks::turns_last, crate::proofs::Written::written_append), unfolding(crate::specs::Canonical::condition_pieces))]
fn begin<'a>(writer: &mut Writer, tasks: &mut Vec<Task<'a>>, cond: &'a Cond) -> Result<(), NoMemory>
    ensures pieces { OnOk result (written writer.new (stacked tasks.new.items) ≡ written writer.old (spec.condition_pieces cond.now ++ stacked tasks.old.items)) }
    ensures turns { OnOk result (turns tasks.new.items < 6 * nodes cond.now + turns tasks.old.items) }
{
    match &cond.node {
        CondNode::Cmp {
            column,
            op,
            value: compared,
        } => comparison(writer, column, *op, compared)?,
        CondNode::And(parts) => {
            let (left, right) = &**parts;
            later_part(tasks, right, is_joined(right))?;
            later(tasks, Task::Symbol(Symbol::And))?;
            later_part(tasks, left, is_or(left))?;
        }
        CondNode::Or(parts) => {
            let (left, right) = &**parts;
            later_part(tasks, right, is_or(right))?;
            later(tasks, Task::Symbol(Symbol::Or))?;
            later(tasks, Task::Part(left))?;
        }
        CondNode::Not(inner) => {
            later_part(tasks, inner, is_joined(inner))?;
            later(tasks, Task::Symbol(Symbol::Not))?;
        }
    }
    Ok(())
}

/// A whole condition, by a stack of what is still to be written.
#[tactic(auto, using(crate::proofs::Stacks::stacked_none, crate::proofs::Stacks::stacked_one, crate::proofs::Stacks::stacked_last, crate::proofs::Stacks::turns_last, crate::proofs::Written::written_append))]
fn condition(alloc: Global, writer: &mut Writer, cond: &Cond) -> Result<(), NoMemory>
    ensures { OnOk result (writer.new ≡ written writer.old (spec.condition_pieces cond.now)) }
{
    let mut tasks: Vec<Task<'_>> = Vec::new(alloc);
    begin(writer, &mut tasks, cond)?;
    while let Some(task) = tasks.pop() {
        match task {
            Task::Symbol(symbol) => writer.symbol(symbol)?,
            Task::Part(part) => begin(writer, &mut tasks, part)?,
        }
    }
    Ok(())
}

#[tactic(auto, unfolding(crate::specs::Canonical::filter_pieces))]
fn filter(alloc: Global, writer: &mut Writer, cond: &Option<Cond>) -> Result<(), NoMemory>
    ensures { OnOk result (writer.new ≡ written writer.old (spec.filter_pieces cond.now)) }
{
    match cond {
        Some(cond) => {
            writer.symbol(Symbol::Where)?;
            condition(alloc, writer, cond)?;
        }
        None => {}
    }
    Ok(())
}

/// An item of a list, which can be written.
trait Writable {
    // its pieces
    ghost pieces: { Self → Items spec.Piece };

    /// Writes its pieces.
    fn write(&self, writer: &mut Writer) -> Result<(), NoMemory>
        ensures { OnOk result (writer.new ≡ written writer.old (pieces self.now)) };
}

/// Items, with commas between.
fn separated<T: Writable>(writer: &mut Writer, items: &[T]) -> Result<(), NoMemory>
    ensures { OnOk result (writer.new ≡ written writer.old (spec.comma_separated T.pieces items.now)) }
{
    let [first, rest @ ..] = items else {
        return Ok(());
    };
    first.write(writer)?;
    for next in rest {
        writer.symbol(Symbol::Comma)?;
        next.write(writer)?;
    }
    Ok(())
}

impl Writable for Text {
    ghost pieces = { λ n. spec.Name n ∷ [] };

    fn write(&self, writer: &mut Writer) -> Result<(), NoMemory> {
        writer.name(self.as_str())
    }
}

impl Writable for Value {
    ghost pieces = { λ v. spec.value_piece v ∷ [] };

    fn write(&self, writer: &mut Writer) -> Result<(), NoMemory> {
        value(writer, self)
    }
}

#[tactic(auto, using(crate::proofs::Written::written_append), unfolding(crate::specs::Canonical::tuple_pieces))]
impl Writable for List<Value> {
    ghost pieces = { spec.tuple_pieces };

    fn write(&self, writer: &mut Writer) -> Result<(), NoMemory> {
        writer.symbol(Symbol::Open)?;
        separated(writer, self.as_slice())?;
        writer.symbol(Symbol::Close)?;
        Ok(())
    }
}

#[tactic(auto, unfolding(crate::specs::Canonical::assignment_pieces))]
impl Writable for (Text, Expr) {
    ghost pieces = { spec.assignment_pieces };

    fn write(&self, writer: &mut Writer) -> Result<(), NoMemory> {
        writer.name(self.0.as_str())?;
        writer.symbol(Symbol::Equal)?;
        expr(writer, &self.1)?;
        Ok(())
    }
}

#[tactic(auto, using(crate::proofs::Written::written_append), unfolding(crate::specs::Canonical::pieces))]
fn statement(alloc: Global, writer: &mut Writer, stmt: &Stmt) -> Result<(), NoMemory>
    ensures { OnOk result (writer.new ≡ written writer.old (spec.pieces stmt.now)) }
{
    match stmt {
        Stmt::Insert {
            table,
            columns,
            rows,
        } => {
            writer.symbol(Symbol::Insert)?;
            writer.symbol(Symbol::Into)?;
            writer.name(table.as_str())?;
            writer.symbol(Symbol::Open)?;
            separated(writer, columns.as_slice())?;
            writer.symbol(Symbol::Close)?;
            writer.symbol(Symbol::Values)?;
            separated(writer, rows.as_slice())?;
        }
        Stmt::Update { table, sets, cond } => {
            writer.symbol(Symbol::Update)?;
            writer.name(table.as_str())?;
            writer.symbol(Symbol::Set)?;
            separated(writer, sets.as_slice())?;
            filter(alloc, writer, cond)?;
        }
        Stmt::Delete { table, cond } => {
            writer.symbol(Symbol::Delete)?;
            writer.symbol(Symbol::From)?;
            writer.name(table.as_str())?;
            filter(alloc, writer, cond)?;
        }
        Stmt::Select { table, cond } => {
            writer.symbol(Symbol::Select)?;
            writer.symbol(Symbol::Star)?;
            writer.symbol(Symbol::From)?;
            writer.name(table.as_str())?;
            filter(alloc, writer, cond)?;
            writer.symbol(Symbol::For)?;
            writer.symbol(Symbol::Update)?;
        }
    }
    Ok(())
}

/// The one canonical text of a statement that `read_stmt` can give. It reads as that statement.
#[tactic(auto, using(crate::proofs::Written::written_text), unfolding(crate::specs::Canonical::canonical_text))]
pub fn write_stmt(alloc: Global, stmt: &Stmt) -> Result<String, NoMemory>
    requires { IsReadable stmt.now }
    ensures text { IfOk result (λ t. string_bytes t ≡ canonical_text stmt.now) }
    ensures reads_back { IfOk result (λ t. reading (string_bytes t) ≡ Ok stmt.now) }
{
    let mut writer = Writer::new(alloc)?;
    statement(alloc, &mut writer, stmt)?;
    Ok(writer.into_text())
}
