//! What an expression is in a row, and the row that an UPDATE makes of it.
ghost use Rattle.std.specs.Prelude.{◌≡◌, IfOk};
ghost use Rattle.std.specs.Option.{option_copied};
ghost use Rattle.local_tables.specs.Sums.{joined, term_value, number, term_number, sum_from, expr_value, set_at, updated};

use crate::conditions::{cell, place_of};
use crate::maps::copied;
use crate::schemas::TableDef;
use seata_types::{Duplicate, Expr, List, NoMemory, Row, Sign, Term, Text, Value};
use std::alloc::Global;

/// One more term of a sum, where it stays within 64 bits.
fn joined(sign: Sign, total: i64, number: i64) -> Option<i64>
    ensures { result ≡ joined sign total number }
{
    match sign {
        Sign::Plus => total.checked_add(number),
        Sign::Minus => total.checked_sub(number),
    }
}

/// What a term is in a row.
fn term_value<'a>(def: &TableDef, row: &'a Row, term: &'a Term) -> Option<&'a Value>
    ensures { option_copied result ≡ term_value def.now row.now term.now }
{
    match term {
        Term::Lit(literal) => Some(literal),
        Term::Column(name) => cell(def, row, name),
    }
}

/// The number that a term is in a row.
fn term_number(def: &TableDef, row: &Row, term: &Term) -> Option<i64>
    ensures { result ≡ term_number def.now row.now term.now }
{
    match term_value(def, row, term) {
        Some(Value::Int(number)) => Some(*number),
        _ => None,
    }
}

/// The sum from the left; none where a partial sum leaves 64 bits.
fn sum_from(def: &TableDef, row: &Row, first: i64, rest: &[(Sign, Term)]) -> Option<i64>
    ensures { result ≡ sum_from def.now row.now first rest.now }
{
    let mut total = first;
    for part in rest {
        let number = term_number(def, row, &part.1)?;
        total = joined(part.0, total, number)?;
    }
    Some(total)
}

/// What an expression is in a row; none where a partial sum leaves 64 bits.
fn expr_value(
    alloc: Global,
    def: &TableDef,
    row: &Row,
    expr: &Expr,
) -> Result<Option<Value>, NoMemory>
    ensures { IfOk result (λ value. value ≡ expr_value def.now row.now expr.now) }
{
    let rest = expr.rest.as_slice();
    if rest.is_empty() {
        return copied(alloc, term_value(def, row, &expr.first));
    }
    let Some(first) = term_number(def, row, &expr.first) else {
        return Ok(None);
    };
    Ok(sum_from(def, row, first, rest).map(Value::Int))
}

/// The row that an UPDATE makes of an old one; none where a partial sum leaves 64 bits.
pub fn updated(
    alloc: Global,
    def: &TableDef,
    sets: &[(Text, Expr)],
    row: &Row,
) -> Result<Option<Row>, NoMemory>
    ensures { IfOk result (λ new. new ≡ updated def.now sets.now row.now) }
{
    let mut cells = row.0.copy(alloc)?.into_vec();
    for set in sets {
        let Some(value) = expr_value(alloc, def, row, &set.1)? else {
            return Ok(None);
        };
        set_at(&mut cells, place_of(def, &set.0), value);
    }
    Ok(Some(Row(List::of(cells))))
}

/// Puts a value at a place, where there is one.
fn set_at(cells: &mut Vec<Value>, place: Option<usize>, value: Value)
    ensures { cells.new.items ≡ set_at place value cells.old.items }
{
    if let Some(place) = place
        && place < cells.len()
    {
        cells[place] = value;
    }
}
