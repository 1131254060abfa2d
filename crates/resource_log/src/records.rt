//! Records, read.
ghost use Rattle.std.specs.Prelude.{◌≡◌, IfOk};
ghost use Rattle.byte_fields.specs.Taking.{Reads};
ghost use Rattle.byte_fields.specs.Entire.{IsOfLayouts};
ghost use Rattle.resource_log.specs.Records.{FitsRecord, FitsRecordIn, record_bytes_in, boot_at, committed_at, undone_at, marked_at, cleared_at, tried_at, confirmed_at, cancelled_at, suspended_at, local_committed_at, outside_at, record_at, record_of, IsFaultOfRecord, ReadsRecord};

use crate::errors::RecordError;
use crate::tags::*;
use byte_fields::{FieldError, Fields, KeyLayout};
use durable_records::ResourceRecord;
use std::alloc::Global;

#[tactic(auto, unfolding(crate::specs::Records::boot_at))]
fn boot(fields: &mut Fields) -> Result<ResourceRecord, FieldError>
    ensures { Reads boot_at fields.old fields.new result }
{
    let number = fields.take_u32()?;
    Ok(ResourceRecord::Boot { number })
}

#[tactic(auto, unfolding(crate::specs::Records::committed_at))]
fn committed(
    alloc: Global,
    layout: KeyLayout,
    fields: &mut Fields,
) -> Result<ResourceRecord, FieldError>
    ensures { Reads (committed_at layout) fields.old fields.new result }
{
    let leg = fields.take_leg()?;
    let call = fields.take_u16()?;
    let images = fields.take_images_in(alloc, layout)?;
    let reads = fields.take_reads_in(alloc, layout)?;
    Ok(ResourceRecord::Committed {
        xid: leg.xid,
        branch: leg.branch,
        call,
        images,
        reads,
    })
}

#[tactic(auto, unfolding(crate::specs::Records::undone_at))]
fn undone(fields: &mut Fields) -> Result<ResourceRecord, FieldError>
    ensures { Reads undone_at fields.old fields.new result }
{
    let leg = fields.take_leg()?;
    Ok(ResourceRecord::Undone {
        xid: leg.xid,
        branch: leg.branch,
    })
}

#[tactic(auto, unfolding(crate::specs::Records::marked_at))]
fn marked(fields: &mut Fields) -> Result<ResourceRecord, FieldError>
    ensures { Reads marked_at fields.old fields.new result }
{
    let leg = fields.take_leg()?;
    Ok(ResourceRecord::Marked {
        xid: leg.xid,
        branch: leg.branch,
    })
}

#[tactic(auto, unfolding(crate::specs::Records::cleared_at))]
fn cleared(fields: &mut Fields) -> Result<ResourceRecord, FieldError>
    ensures { Reads cleared_at fields.old fields.new result }
{
    let leg = fields.take_leg()?;
    Ok(ResourceRecord::Cleared {
        xid: leg.xid,
        branch: leg.branch,
    })
}

#[tactic(auto, unfolding(crate::specs::Records::tried_at))]
fn tried(
    alloc: Global,
    layout: KeyLayout,
    fields: &mut Fields,
) -> Result<ResourceRecord, FieldError>
    ensures { Reads (tried_at layout) fields.old fields.new result }
{
    let leg = fields.take_leg()?;
    let call = fields.take_u16()?;
    let images = fields.take_images_in(alloc, layout)?;
    Ok(ResourceRecord::Tried {
        xid: leg.xid,
        branch: leg.branch,
        call,
        images,
    })
}

#[tactic(auto, unfolding(crate::specs::Records::confirmed_at))]
fn confirmed(
    alloc: Global,
    layout: KeyLayout,
    fields: &mut Fields,
) -> Result<ResourceRecord, FieldError>
    ensures { Reads (confirmed_at layout) fields.old fields.new result }
{
    let leg = fields.take_leg()?;
    let images = fields.take_images_in(alloc, layout)?;
    Ok(ResourceRecord::Confirmed {
        xid: leg.xid,
        branch: leg.branch,
        images,
    })
}

#[tactic(auto, unfolding(crate::specs::Records::cancelled_at))]
fn cancelled(
    alloc: Global,
    layout: KeyLayout,
    fields: &mut Fields,
) -> Result<ResourceRecord, FieldError>
    ensures { Reads (cancelled_at layout) fields.old fields.new result }
{
    let leg = fields.take_leg()?;
    let images = fields.take_images_in(alloc, layout)?;
    Ok(ResourceRecord::Cancelled {
        xid: leg.xid,
        branch: leg.branch,
        images,
    })
}

#[tactic(auto, unfolding(crate::specs::Records::suspended_at))]
fn suspended(fields: &mut Fields) -> Result<ResourceRecord, FieldError>
    ensures { Reads suspended_at fields.old fields.new result }
{
    let leg = fields.take_leg()?;
    Ok(ResourceRecord::Suspended {
        xid: leg.xid,
        branch: leg.branch,
    })
}

#[tactic(auto, unfolding(crate::specs::Records::local_committed_at))]
fn local_committed(alloc: Global, fields: &mut Fields) -> Result<ResourceRecord, FieldError>
    ensures { Reads local_committed_at fields.old fields.new result }
{
    let number = fields.take_u16()?;
    let images = fields.take_images(alloc)?;
    Ok(ResourceRecord::LocalCommitted { number, images })
}

#[tactic(auto, unfolding(crate::specs::Records::outside_at))]
fn outside(alloc: Global, fields: &mut Fields) -> Result<ResourceRecord, FieldError>
    ensures { Reads outside_at fields.old fields.new result }
{
    let number = fields.take_u16()?;
    let images = fields.take_images(alloc)?;
    Ok(ResourceRecord::Outside { number, images })
}

#[tactic(auto, unfolding(crate::specs::Records::record_at, byte_fields::specs::Tags::tagged))]
fn record(alloc: Global, fields: &mut Fields) -> Result<ResourceRecord, FieldError>
    ensures { Reads record_at fields.old fields.new result }
{
    let place = fields.at();
    match fields.take_u8()? {
        BOOT => boot(fields),
        OLD_COMMITTED => committed(alloc, KeyLayout::Single, fields),
        UNDONE => undone(fields),
        MARKED => marked(fields),
        CLEARED => cleared(fields),
        OLD_TRIED => tried(alloc, KeyLayout::Single, fields),
        OLD_CONFIRMED => confirmed(alloc, KeyLayout::Single, fields),
        OLD_CANCELLED => cancelled(alloc, KeyLayout::Single, fields),
        SUSPENDED => suspended(fields),
        COMMITTED => committed(alloc, KeyLayout::Counted, fields),
        TRIED => tried(alloc, KeyLayout::Counted, fields),
        CONFIRMED => confirmed(alloc, KeyLayout::Counted, fields),
        CANCELLED => cancelled(alloc, KeyLayout::Counted, fields),
        LOCAL_COMMITTED => local_committed(alloc, fields),
        OUTSIDE => outside(alloc, fields),
        _ => Err(FieldError::BadTag { at: place }),
    }
}

// What a fault of a field says of the record.
fn as_record(fault: FieldError) -> RecordError
    ensures { IsFaultOfRecord fault result }
{
    match fault {
        FieldError::NoMemory => RecordError::NoMemory,
        _ => RecordError::BadRecord,
    }
}

/// The record that the bytes are, in the layout that is written or in the older one.
pub fn read_record(alloc: Global, body: &[u8]) -> Result<ResourceRecord, RecordError>
    ensures exact { ReadsRecord body.now result }
    // The records of bytes are those of the two layouts, and each is read back from its bytes.
    ensures layouts { IsOfLayouts record_of record_bytes_in FitsRecordIn }
    // What is read can be written, in the layout that is written.
    ensures writable { IfOk result FitsRecord }
{
    let mut fields = Fields::new(body);
    match record(alloc, &mut fields) {
        Err(fault) => Err(as_record(fault)),
        Ok(found) => {
            if fields.at() == body.len() {
                Ok(found)
            } else {
                drop(found);
                Err(RecordError::BadRecord)
            }
        }
    }
}
