//! Fields that nothing else puts or takes by these calls: some by themselves, and some in the layout of earlier programs.
use crate::samples::{Fail, so};
use byte_fields::{Fields, put_option_row, put_value};
use seata_types::Value;
use std::alloc::Global;

/// A key of resource 2, table acc and the value 1, as earlier programs wrote it, without a count of its values; then the same as
/// a list; as a list of images without a row before, and with the row (-2) behind; and as a list of reads with that row.
const OLD: [u8; 94] = [
    0, 2, 0, 3, 97, 99, 99, 0, 0, 0, 0, 0, 0, 0, 0, 1, //
    0, 1, 0, 2, 0, 3, 97, 99, 99, 0, 0, 0, 0, 0, 0, 0, 0, 1, //
    0, 1, 0, 2, 0, 3, 97, 99, 99, 0, 0, 0, 0, 0, 0, 0, 0, 1, 0, 1, 0, 1, 0, 255, 255, 255, 255,
    255, 255, 255, 254, //
    0, 1, 0, 2, 0, 3, 97, 99, 99, 0, 0, 0, 0, 0, 0, 0, 0, 1, 0, 1, 0, 255, 255, 255, 255, 255, 255,
    255, 254,
];

/// Whether the next field is a key of the value 1.
fn takes_key(alloc: Global, fields: &mut Fields) -> bool {
    match fields.take_old_key(alloc) {
        Ok(key) => matches!(key.pk.as_slice(), [Value::Int(1)]),
        Err(_) => false,
    }
}

fn takes_all(alloc: Global, fields: &mut Fields) -> bool {
    takes_key(alloc, fields)
        && fields.take_old_keys(alloc).is_ok()
        && fields.take_old_images(alloc).is_ok()
        && fields.take_old_reads(alloc).is_ok()
        && fields.at() == OLD.len()
}

fn holds(alloc: Global) -> Result<(), Fail> {
    let mut fields = Fields::new(&OLD);
    so(takes_all(alloc, &mut fields), "fields of earlier programs")
}

#[test]
fn fields_of_earlier_programs(rt: HostRuntime) -> Result<(), Fail> {
    holds(rt.alloc())
}

/// The value 7, no row, and no read.
const PARTS: [u8; 12] = [0, 0, 0, 0, 0, 0, 0, 0, 7, 0, 0, 0];

fn takes_parts(alloc: Global, fields: &mut Fields) -> bool {
    matches!(fields.take_value(alloc), Ok(Value::Int(7)))
        && matches!(fields.take_option_row(alloc), Ok(None))
        && fields.take_reads(alloc).is_ok()
        && fields.at() == PARTS.len()
}

fn are_taken(alloc: Global) -> Result<(), Fail> {
    let mut fields = Fields::new(&PARTS);
    so(takes_parts(alloc, &mut fields), "parts by themselves")
}

fn are_put(alloc: Global) -> Result<(), Fail> {
    let mut out = Vec::new(alloc);
    put_value(&mut out, &Value::Int(7))?;
    put_option_row(&mut out, &None)?;
    so(out.as_slice() == &PARTS[..10], "parts that are put")
}

#[test]
fn parts_by_themselves(rt: HostRuntime) -> Result<(), Fail> {
    are_taken(rt.alloc())?;
    are_put(rt.alloc())
}
