//! A resource's records as bytes, also in the layout of earlier programs.
ghost use Rattle.resource_log.specs.Records.{FitsRecord};

use crate::samples::{Fail, IMAGES, LEG, OLD_IMAGES, Parts, joined};
use durable_records::ResourceRecord;
use resource_log::*;
use seata_types::Duplicate;
use std::alloc::Global;

// The row with key 1 was read as (1).
const READS: [u8; 30] = [
    0, 1, 0, 1, 0, 3, 97, 99, 99, 1, 0, 0, 0, 0, 0, 0, 0, 0, 1, 0, 1, 0, 0, 0, 0, 0, 0, 0, 0, 1,
];

const OLD_READS: [u8; 29] = [
    0, 1, 0, 1, 0, 3, 97, 99, 99, 0, 0, 0, 0, 0, 0, 0, 0, 1, 0, 1, 0, 0, 0, 0, 0, 0, 0, 0, 1,
];

// The bytes that a copy of the record of these bytes is written as: none where they are no record.
fn again(alloc: Global, bytes: &[u8]) -> Option<Vec<u8>> {
    match read_record(alloc, bytes) {
        Ok(record) => written_copy(alloc, record),
        Err(_) => None,
    }
}

fn written_copy(alloc: Global, item: ResourceRecord) -> Option<Vec<u8>>
    requires { FitsRecord item }
{
    match item.copy(alloc) {
        Ok(copy) => written(alloc, copy),
        Err(_) => None,
    }
}

fn written(alloc: Global, item: ResourceRecord) -> Option<Vec<u8>>
    requires { FitsRecord item }
{
    match write_record(alloc, &item) {
        Ok(bytes) => Some(bytes),
        Err(_) => None,
    }
}

// Whether these bytes are refused as no record.
fn is_refused(alloc: Global, bytes: &[u8]) -> bool {
    match read_record(alloc, bytes) {
        Ok(record) => {
            drop(record);
            false
        }
        Err(error) => error == RecordError::BadRecord,
    }
}

// Whether these parts are refused as no record.
fn is_no_record(alloc: Global, parts: &[&[u8]]) -> Result<bool, Fail> {
    let bytes = joined(alloc, parts)?;
    Ok(is_refused(alloc, &bytes))
}

// Whether these parts are a record that is written as the others.
fn is_written_as(alloc: Global, read: &[&[u8]], written: &[&[u8]]) -> Result<bool, Fail> {
    let bytes = joined(alloc, read)?;
    let wanted = joined(alloc, written)?;
    Ok(match again(alloc, &bytes) {
        Some(found) => found == wanted,
        None => false,
    })
}

/// Records by their parts, with the parts that they are written in. The first are in the layouts that are written.
const RECORDS: [(Parts, Parts); 16] = [
    (
        [&[1], &[0, 0, 0, 2], &[], &[], &[]],
        [&[1], &[0, 0, 0, 2], &[], &[], &[]],
    ),
    (
        [&[18], &LEG, &[0, 1], &IMAGES, &READS],
        [&[18], &LEG, &[0, 1], &IMAGES, &READS],
    ),
    ([&[3], &LEG, &[], &[], &[]], [&[3], &LEG, &[], &[], &[]]),
    ([&[4], &LEG, &[], &[], &[]], [&[4], &LEG, &[], &[], &[]]),
    ([&[5], &LEG, &[], &[], &[]], [&[5], &LEG, &[], &[], &[]]),
    (
        [&[22], &LEG, &[0, 1], &IMAGES, &[]],
        [&[22], &LEG, &[0, 1], &IMAGES, &[]],
    ),
    (
        [&[23], &LEG, &IMAGES, &[], &[]],
        [&[23], &LEG, &IMAGES, &[], &[]],
    ),
    (
        [&[24], &LEG, &IMAGES, &[], &[]],
        [&[24], &LEG, &IMAGES, &[], &[]],
    ),
    ([&[9], &LEG, &[], &[], &[]], [&[9], &LEG, &[], &[], &[]]),
    (
        [&[26], &[0, 1], &IMAGES, &[], &[]],
        [&[26], &[0, 1], &IMAGES, &[], &[]],
    ),
    (
        [&[27], &[0, 1], &IMAGES, &[], &[]],
        [&[27], &[0, 1], &IMAGES, &[], &[]],
    ),
    // The layouts of earlier programs.
    (
        [&[2], &LEG, &[0, 1], &OLD_IMAGES, &[0, 0]],
        [&[18], &LEG, &[0, 1], &IMAGES, &[0, 0]],
    ),
    (
        [&[2], &LEG, &[0, 1], &OLD_IMAGES, &OLD_READS],
        [&[18], &LEG, &[0, 1], &IMAGES, &READS],
    ),
    (
        [&[6], &LEG, &[0, 1], &OLD_IMAGES, &[]],
        [&[22], &LEG, &[0, 1], &IMAGES, &[]],
    ),
    (
        [&[7], &LEG, &OLD_IMAGES, &[], &[]],
        [&[23], &LEG, &IMAGES, &[], &[]],
    ),
    (
        [&[8], &LEG, &OLD_IMAGES, &[], &[]],
        [&[24], &LEG, &IMAGES, &[], &[]],
    ),
];

fn are_written(alloc: Global) -> Result<(), Fail> {
    for (k, (read, written)) in RECORDS.iter().enumerate() {
        if !is_written_as(alloc, read, written)? {
            return Err(Fail::Case(k));
        }
    }
    Ok(())
}

#[test]
fn records_of_each_layout_are_written_in_the_newest(rt: HostRuntime) -> Result<(), Fail> {
    are_written(rt.alloc())
}

const NO_RECORDS: [Parts; 6] = [
    [&[], &[], &[], &[], &[]],
    [&[10], &LEG, &[], &[], &[]],
    [
        &[3],
        &[0, 0, 0, 0, 0, 0, 0, 1, 0, 0, 0, 0, 0, 0, 0],
        &[],
        &[],
        &[],
    ],
    [&[3], &LEG, &[0], &[], &[]],
    [&[23], &LEG, &OLD_IMAGES, &[], &[]],
    [&[7], &LEG, &IMAGES, &[], &[]],
];

fn are_refused(alloc: Global) -> Result<(), Fail> {
    for (k, parts) in NO_RECORDS.iter().enumerate() {
        if !is_no_record(alloc, parts)? {
            return Err(Fail::Case(k));
        }
    }
    Ok(())
}

#[test]
fn bytes_that_are_no_record(rt: HostRuntime) -> Result<(), Fail> {
    are_refused(rt.alloc())
}
