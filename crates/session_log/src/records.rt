//! Records, read.
ghost use Rattle.std.specs.Prelude.{◌≡◌};
ghost use Rattle.byte_fields.specs.Taking.{Reads};
ghost use Rattle.byte_fields.specs.Entire.{IsOfLayouts};
ghost use Rattle.session_log.specs.Records.{FitsRecordIn, record_bytes_in, decision_at, begun_at, granted_at, decided_at, retrying_at, ended_at, failed_at, finished_at, forgot_at, record_at, record_of, IsFaultOfRecord, ReadsRecord};

use crate::errors::RecordError;
use crate::tags::*;
use byte_fields::{FieldError, Fields, KeyLayout};
use durable_records::SessionRecord;
use seata_types::Decision;
use std::alloc::Global;

#[tactic(auto, unfolding(crate::specs::Records::decision_at, byte_fields::specs::Tags::tagged))]
fn decision(fields: &mut Fields) -> Result<Decision, FieldError>
    ensures { Reads decision_at fields.old fields.new result }
{
    let place = fields.at();
    match fields.take_u8()? {
        1 => Ok(Decision::Commit),
        2 => Ok(Decision::Rollback),
        3 => Ok(Decision::Timeout),
        _ => Err(FieldError::BadTag { at: place }),
    }
}

#[tactic(auto, unfolding(crate::specs::Records::begun_at))]
fn begun(fields: &mut Fields) -> Result<SessionRecord, FieldError>
    ensures { Reads begun_at fields.old fields.new result }
{
    let xid = fields.take_xid()?;
    let manager = fields.take_u16()?;
    let begun = fields.take_u64()?;
    let timeout = fields.take_u64()?;
    Ok(SessionRecord::Begun {
        xid,
        manager,
        begun,
        timeout,
    })
}

#[tactic(auto, unfolding(crate::specs::Records::granted_at))]
fn granted(
    alloc: Global,
    layout: KeyLayout,
    fields: &mut Fields,
) -> Result<SessionRecord, FieldError>
    ensures { Reads (granted_at layout) fields.old fields.new result }
{
    let xid = fields.take_xid()?;
    let branch = fields.take_branch()?;
    let resource = fields.take_u16()?;
    let call = fields.take_u16()?;
    let ticket = fields.take_ticket()?;
    let kind = fields.take_kind()?;
    let hold = fields.take_keys_in(alloc, layout)?;
    Ok(SessionRecord::Granted {
        xid,
        branch,
        resource,
        call,
        ticket,
        kind,
        hold,
    })
}

#[tactic(auto, unfolding(crate::specs::Records::decided_at))]
fn decided(fields: &mut Fields) -> Result<SessionRecord, FieldError>
    ensures { Reads decided_at fields.old fields.new result }
{
    let xid = fields.take_xid()?;
    let how = decision(fields)?;
    Ok(SessionRecord::Decided { xid, how })
}

#[tactic(auto, unfolding(crate::specs::Records::retrying_at))]
fn retrying(fields: &mut Fields) -> Result<SessionRecord, FieldError>
    ensures { Reads retrying_at fields.old fields.new result }
{
    let xid = fields.take_xid()?;
    Ok(SessionRecord::Retrying { xid })
}

#[tactic(auto, unfolding(crate::specs::Records::ended_at))]
fn ended(fields: &mut Fields) -> Result<SessionRecord, FieldError>
    ensures { Reads ended_at fields.old fields.new result }
{
    let xid = fields.take_xid()?;
    let branch = fields.take_branch()?;
    Ok(SessionRecord::Ended { xid, branch })
}

#[tactic(auto, unfolding(crate::specs::Records::failed_at))]
fn failed(fields: &mut Fields) -> Result<SessionRecord, FieldError>
    ensures { Reads failed_at fields.old fields.new result }
{
    let xid = fields.take_xid()?;
    let branch = fields.take_branch()?;
    let stmt = fields.take_u16()?;
    Ok(SessionRecord::Failed { xid, branch, stmt })
}

#[tactic(auto, unfolding(crate::specs::Records::finished_at))]
fn finished(fields: &mut Fields) -> Result<SessionRecord, FieldError>
    ensures { Reads finished_at fields.old fields.new result }
{
    let xid = fields.take_xid()?;
    Ok(SessionRecord::Finished { xid })
}

#[tactic(auto, unfolding(crate::specs::Records::forgot_at))]
fn forgot(fields: &mut Fields) -> Result<SessionRecord, FieldError>
    ensures { Reads forgot_at fields.old fields.new result }
{
    let xid = fields.take_xid()?;
    Ok(SessionRecord::Forgot { xid })
}

#[tactic(auto, unfolding(crate::specs::Records::record_at, byte_fields::specs::Tags::tagged))]
fn record(alloc: Global, fields: &mut Fields) -> Result<SessionRecord, FieldError>
    ensures { Reads record_at fields.old fields.new result }
{
    let place = fields.at();
    match fields.take_u8()? {
        BEGUN => begun(fields),
        OLD_GRANTED => granted(alloc, KeyLayout::Single, fields),
        DECIDED => decided(fields),
        RETRYING => retrying(fields),
        ENDED => ended(fields),
        FAILED => failed(fields),
        FINISHED => finished(fields),
        FORGOT => forgot(fields),
        GRANTED => granted(alloc, KeyLayout::Counted, fields),
        _ => Err(FieldError::BadTag { at: place }),
    }
}

// What a fault of a field says of the record.
fn as_record(fault: FieldError) -> RecordError
    ensures { IsFaultOfRecord fault result }
{
    match fault {
        FieldError::NoMemory => RecordError::NoMemory,
        _ => RecordError::BadRecord,
    }
}

/// The record that the bytes are, in the layout that is written or in the older one.
pub fn read_record(alloc: Global, body: &[u8]) -> Result<SessionRecord, RecordError>
    ensures exact { ReadsRecord body.now result }
    // The records of bytes are those of the two layouts, and each is read back from its bytes.
    ensures layouts { IsOfLayouts record_of record_bytes_in FitsRecordIn }
{
    let mut fields = Fields::new(body);
    match record(alloc, &mut fields) {
        Err(fault) => Err(as_record(fault)),
        Ok(found) => {
            if fields.at() == body.len() {
                Ok(found)
            } else {
                drop(found);
                Err(RecordError::BadRecord)
            }
        }
    }
}
