//! What the types of a statement's values say of its canonical text: it is UTF-8, as each text in it.
ghost use Rattle.std.specs.Prelude.{◌≡◌, ◌<◌, ◌+◌, ◌++◌, ◌∷◌, [], All, IsUtf8, OnOk};
ghost use Rattle.std.specs.List.{AllByRecursion, sum_by};
ghost use Rattle.seata_types.specs.Condition.{nodes};
ghost use Rattle.sql_reader.specs.Canonical.{canonical_text};
ghost use Rattle.sql_reader.specs.Readable.{IsReadable};
ghost use Rattle.statement_laws.specs.Texts.{AreTexts, HasText, HasTextOf, HasTexts, HasTextsIn, HasTextsOf};

use crate::parts::Part;
use seata_types::{Cond, CondNode, Expr, List, NoMemory, Sign, Stmt, Term, Text, Value};
use std::alloc::Global;

fn tell_value(value: &Value)
    ensures { HasText value.now }
{
    match value {
        Value::Int(_) => {}
        Value::Text(text) => {
            let _text = text.as_str();
        }
    }
}

fn tell_values(values: &[Value])
    ensures { All HasText values.now }
{
    for value in values {
        tell_value(value);
    }
}

fn tell_rows(rows: &[List<Value>])
    ensures { All (λ r. All HasText r) rows.now }
{
    for row in rows {
        tell_values(row.as_slice());
    }
}

fn tell_term(term: &Term)
    ensures { HasTextOf term.now }
{
    match term {
        Term::Lit(value) => tell_value(value),
        Term::Column(_) => {}
    }
}

fn tell_terms(terms: &[(Sign, Term)])
    ensures { All (λ t. HasTextOf t.1) terms.now }
{
    for (_, term) in terms {
        tell_term(term);
    }
}

fn tell_expr(expr: &Expr)
    ensures { HasTexts expr.now }
{
    tell_term(&expr.first);
    tell_terms(expr.rest.as_slice());
}

fn tell_sets(sets: &[(Text, Expr)])
    ensures { All (λ s. HasTexts s.1) sets.now }
{
    for (_, expr) in sets {
        tell_expr(expr);
    }
}

fn later<'a>(parts: &mut Vec<Part<'a>>, cond: &'a Cond) -> Result<(), NoMemory>
    ensures { OnOk result (parts.new.items ≡ parts.old.items ++ cond.now ∷ []) }
{
    parts.push(Part::of(cond))?;
    Ok(())
}

/// Tells of a comparison; of any other condition puts the parts on the stack.
fn open<'a>(parts: &mut Vec<Part<'a>>, cond: &'a Cond) -> Result<(), NoMemory>
    ensures told { OnOk result (AllByRecursion HasTextsIn parts.new.items → AllByRecursion HasTextsIn (parts.old.items ++ cond.now ∷ [])) }
    ensures fewer { OnOk result (sum_by nodes parts.new.items < sum_by nodes parts.old.items + nodes cond.now) }
{
    match &cond.node {
        CondNode::Cmp { value, .. } => tell_value(value),
        CondNode::And(joined) | CondNode::Or(joined) => {
            let (left, right) = &**joined;
            later(parts, left)?;
            later(parts, right)?;
        }
        CondNode::Not(inner) => later(parts, inner)?,
    }
    Ok(())
}

/// A whole condition, by a stack of the parts that are still to be told of.
fn tell_cond(alloc: Global, cond: &Cond) -> Result<(), NoMemory>
    ensures { OnOk result (HasTextsIn cond.now) }
{
    let mut parts: Vec<Part<'_>> = Vec::new(alloc);
    open(&mut parts, cond)?;
    while let Some(part) = parts.pop() {
        open(&mut parts, part.cond())?;
    }
    Ok(())
}

fn tell_filter(alloc: Global, cond: &Option<Cond>) -> Result<(), NoMemory>
    ensures { OnOk result (HasTextsOf cond.now) }
{
    match cond {
        Some(cond) => tell_cond(alloc, cond)?,
        None => {}
    }
    Ok(())
}

fn tell_texts(alloc: Global, stmt: &Stmt) -> Result<(), NoMemory>
    ensures { OnOk result (AreTexts stmt.now) }
{
    match stmt {
        Stmt::Insert { rows, .. } => tell_rows(rows.as_slice()),
        Stmt::Update { sets, cond, .. } => {
            tell_sets(sets.as_slice());
            tell_filter(alloc, cond)?;
        }
        Stmt::Delete { cond, .. } => tell_filter(alloc, cond)?,
        Stmt::Select { cond, .. } => tell_filter(alloc, cond)?,
    }
    Ok(())
}

/// Tells of a statement that its canonical text is UTF-8, without writing it. Memory is asked for alone where its
/// condition has more than one comparison.
#[tactic(auto, using(crate::proofs::PlainPieces::canonical_utf8))]
pub fn tell_stmt(alloc: Global, stmt: &Stmt) -> Result<(), NoMemory>
    requires { IsReadable stmt.now }
    ensures { OnOk result (IsUtf8 (canonical_text stmt.now)) }
{
    tell_texts(alloc, stmt)?;
    Ok(())
}
