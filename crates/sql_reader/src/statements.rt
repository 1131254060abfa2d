//! The four statements.
ghost use Rattle.sql_reader.specs.Parsing.{Reads};
ghost use Rattle.sql_reader.specs.Grammar as spec;

use crate::conditions::filter;
use crate::cursor::Cursor;
use crate::errors::Stop;
use crate::lists::{Item, listed};
use crate::parts::{expr, literal, name};
use crate::symbols::Symbol;
use crate::tokens::Token;
use seata_types::{Expr, List, Stmt, Text, Value};
use std::alloc::Global;

#[tactic(auto, unfolding(crate::specs::Grammar::tuple, crate::specs::Grammar::literals))]
fn tuple(alloc: Global, tokens: &mut Cursor<'_>) -> Result<List<Value>, Stop>
    ensures { Reads (spec.tuple tokens.old) result tokens.new }
{
    tokens.expect(Symbol::Open)?;
    let values = listed(alloc, tokens)?;
    tokens.expect(Symbol::Close)?;
    Ok(values)
}

#[tactic(auto, unfolding(crate::specs::Grammar::assignment))]
fn assignment(alloc: Global, tokens: &mut Cursor<'_>) -> Result<(Text, Expr), Stop>
    ensures { Reads (spec.assignment tokens.old) result tokens.new }
{
    let column = name(alloc, tokens)?;
    tokens.expect(Symbol::Equal)?;
    Ok((column, expr(alloc, tokens)?))
}

impl Item for Text {
    ghost item = { spec.name };

    fn read(alloc: Global, tokens: &mut Cursor<'_>) -> Result<Text, Stop> {
        name(alloc, tokens)
    }
}

impl Item for Value {
    ghost item = { spec.literal };

    fn read(alloc: Global, tokens: &mut Cursor<'_>) -> Result<Value, Stop> {
        literal(alloc, tokens)
    }
}

impl Item for List<Value> {
    ghost item = { spec.tuple };

    fn read(alloc: Global, tokens: &mut Cursor<'_>) -> Result<List<Value>, Stop> {
        tuple(alloc, tokens)
    }
}

impl Item for (Text, Expr) {
    ghost item = { spec.assignment };

    fn read(alloc: Global, tokens: &mut Cursor<'_>) -> Result<(Text, Expr), Stop> {
        assignment(alloc, tokens)
    }
}

/// Behind INSERT.
#[tactic(auto, unfolding(crate::specs::Grammar::insert, crate::specs::Grammar::names, crate::specs::Grammar::tuples))]
fn insert(alloc: Global, tokens: &mut Cursor<'_>) -> Result<Stmt, Stop>
    ensures { Reads (spec.insert tokens.old) result tokens.new }
{
    tokens.expect(Symbol::Into)?;
    let table = name(alloc, tokens)?;
    tokens.expect(Symbol::Open)?;
    let columns = listed(alloc, tokens)?;
    tokens.expect(Symbol::Close)?;
    tokens.expect(Symbol::Values)?;
    let rows = listed(alloc, tokens)?;
    Ok(Stmt::Insert {
        table,
        columns,
        rows,
    })
}

/// Behind UPDATE.
#[tactic(auto, unfolding(crate::specs::Grammar::update, crate::specs::Grammar::assignments))]
fn update(alloc: Global, tokens: &mut Cursor<'_>) -> Result<Stmt, Stop>
    ensures { Reads (spec.update tokens.old) result tokens.new }
{
    let table = name(alloc, tokens)?;
    tokens.expect(Symbol::Set)?;
    let sets = listed(alloc, tokens)?;
    let cond = filter(alloc, tokens)?;
    Ok(Stmt::Update { table, sets, cond })
}

/// Behind DELETE.
#[tactic(auto, unfolding(crate::specs::Grammar::delete))]
fn delete(alloc: Global, tokens: &mut Cursor<'_>) -> Result<Stmt, Stop>
    ensures { Reads (spec.delete tokens.old) result tokens.new }
{
    tokens.expect(Symbol::From)?;
    let table = name(alloc, tokens)?;
    let cond = filter(alloc, tokens)?;
    Ok(Stmt::Delete { table, cond })
}

/// Behind SELECT.
#[tactic(auto, unfolding(crate::specs::Grammar::select))]
fn select(alloc: Global, tokens: &mut Cursor<'_>) -> Result<Stmt, Stop>
    ensures { Reads (spec.select tokens.old) result tokens.new }
{
    tokens.expect(Symbol::Star)?;
    tokens.expect(Symbol::From)?;
    let table = name(alloc, tokens)?;
    let cond = filter(alloc, tokens)?;
    tokens.expect(Symbol::For)?;
    tokens.expect(Symbol::Update)?;
    Ok(Stmt::Select { table, cond })
}

#[tactic(auto, unfolding(crate::specs::Grammar::body))]
fn body(alloc: Global, tokens: &mut Cursor<'_>) -> Result<Stmt, Stop>
    ensures { Reads (spec.body tokens.old) result tokens.new }
{
    let [first, rest @ ..] = tokens.rest() else {
        return Err(tokens.unexpected());
    };
    match first {
        Token::Symbol(Symbol::Insert) => {
            tokens.go_on(rest);
            insert(alloc, tokens)
        }
        Token::Symbol(Symbol::Update) => {
            tokens.go_on(rest);
            update(alloc, tokens)
        }
        Token::Symbol(Symbol::Delete) => {
            tokens.go_on(rest);
            delete(alloc, tokens)
        }
        Token::Symbol(Symbol::Select) => {
            tokens.go_on(rest);
            select(alloc, tokens)
        }
        _ => Err(tokens.unexpected()),
    }
}

/// A whole text.
#[tactic(auto, unfolding(crate::specs::Grammar::statement))]
pub fn statement(alloc: Global, tokens: &mut Cursor<'_>) -> Result<Stmt, Stop>
    ensures { Reads (spec.statement tokens.old) result tokens.new }
{
    let statement = body(alloc, tokens)?;
    tokens.eat(Symbol::Semicolon);
    match tokens.end() {
        Ok(()) => Ok(statement),
        Err(stop) => {
            drop(statement);
            Err(stop)
        }
    }
}
