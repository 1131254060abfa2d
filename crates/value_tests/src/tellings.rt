//! Effects as text: each image as its key with the row before and after, each read as its key with its row, and behind a bar
//! how many rows each statement touches.
use crate::samples::Fail;
use local_tables::{Effect, EffectError};
use seata_types::{Image, ReadRow, Row, RowKey, StmtError, Value};
use std::alloc::Global;
use std::fmt::Write;

fn tell_value(out: &mut String, value: &Value) -> Result<(), Fail> {
    match value {
        Value::Int(number) => write!(out, "{number}")?,
        Value::Text(text) => write!(out, "'{}", text.as_str())?,
    }
    Ok(())
}

fn tell_row(out: &mut String, row: Option<&Row>) -> Result<(), Fail> {
    let Some(row) = row else {
        out.push('-')?;
        return Ok(());
    };
    for (k, cell) in row.0.as_slice().iter().enumerate() {
        out.push_str(if k == 0 { "(" } else { " " })?;
        tell_value(out, cell)?;
    }
    out.push(')')?;
    Ok(())
}

fn tell_key(out: &mut String, key: &RowKey) -> Result<(), Fail> {
    write!(out, "{}:", key.table.as_str())?;
    for (k, part) in key.pk.as_slice().iter().enumerate() {
        out.push_str(if k == 0 { "" } else { "_" })?;
        tell_value(out, part)?;
    }
    Ok(())
}

fn tell_images(out: &mut String, images: &[Image]) -> Result<(), Fail> {
    for image in images {
        tell_key(out, &image.key)?;
        tell_row(out, image.before.as_ref())?;
        out.push('>')?;
        tell_row(out, image.after.as_ref())?;
        out.push(' ')?;
    }
    Ok(())
}

fn tell_reads(out: &mut String, reads: &[ReadRow]) -> Result<(), Fail> {
    for read in reads {
        tell_key(out, &read.key)?;
        tell_row(out, Some(&read.row))?;
        out.push(' ')?;
    }
    Ok(())
}

/// An effect: its images, its reads, and behind a bar how many rows each statement touches.
pub fn tell_effect(alloc: Global, effect: &Effect) -> Result<String, Fail> {
    let mut out = String::new(alloc);
    tell_images(&mut out, effect.images.as_slice())?;
    tell_reads(&mut out, effect.reads.as_slice())?;
    out.push('|')?;
    for count in effect.touched.as_slice() {
        write!(out, " {count}")?;
    }
    Ok(out)
}

/// The name of an error, and the key that it has, if it has one.
fn word_of(why: &StmtError) -> (&'static str, Option<&RowKey>) {
    match why {
        StmtError::NoTable => ("NoTable", None),
        StmtError::NoColumn => ("NoColumn", None),
        StmtError::Columns => ("Columns", None),
        StmtError::KeyChanged => ("KeyChanged", None),
        StmtError::TypeMismatch => ("TypeMismatch", None),
        StmtError::TooManyRows => ("TooManyRows", None),
        StmtError::Overflow { key } => ("Overflow ", Some(key.get())),
        StmtError::Duplicate { key } => ("Duplicate ", Some(key.get())),
        StmtError::TableFull => ("TableFull", None),
    }
}

fn tell_why(alloc: Global, index: u16, why: &StmtError) -> Result<String, Fail> {
    let (word, key) = word_of(why);
    let mut out = String::new(alloc);
    write!(out, "{index} {word}")?;
    if let Some(key) = key {
        tell_key(&mut out, key)?;
    }
    Ok(out)
}

/// Why a call has no effect: the statement's number, and its error.
pub fn tell_error(alloc: Global, error: &EffectError) -> Result<String, Fail> {
    match error {
        EffectError::At { index, why } => tell_why(alloc, *index, why),
        EffectError::NoMemory => Err(Fail::NoMemory),
    }
}
