//! The lines of a report, section by section.
ghost use Rattle.std.specs.Prelude.{◌≡◌, ◌++◌, map, filter, OnOk, option_map, string_bytes};
ghost use Rattle.local_tables.specs.Rows.{is_in};
ghost use Rattle.tcc_fence.specs.Meanings.{status_of, entry_of};
ghost use Rattle.history_rules.specs.Reports.{read_line};
ghost use Rattle.history_text.specs.Lines.{entry_text};
ghost use Rattle.history_text.specs.Report as report;
ghost use Rattle.report_text.specs.Sections.{failed_at, line_in, holder_in, rows_of_tables, reads_text};

use durable_records::ResourceRecord;
use history_text::{Entry, Names, add_entry, add_key, add_place, add_row};
use local_tables::TableDef;
use seata_types::{BranchId, GlobalStatus, Leg, Place, ReadRow, Row, RowKey, Xid};
use session_log::SessionEntry;
use std::alloc::AllocError;
use tcc_fence::FenceStatus;

/// The lines of the entries.
pub(crate) fn put_entries(
    out: &mut String,
    entries: &[Entry],
    names: &Names,
) -> Result<(), AllocError>
    ensures { OnOk result (string_bytes out.new ≡ string_bytes out.old ++
        report.lines (entry_text names.now) entries.now) }
{
    for entry in entries {
        add_entry(out, entry, names)?;
        out.push_str("\n")?;
    }
    Ok(())
}

// ---- sessions and locks

/// Seata's name of a session's status.
fn status_name(status: GlobalStatus) -> &'static str
    ensures { result.now ≡ report.status_name status }
{
    match status {
        GlobalStatus::UnKnown => "UnKnown",
        GlobalStatus::Begin => "Begin",
        GlobalStatus::Committing => "Committing",
        GlobalStatus::CommitRetrying => "CommitRetrying",
        GlobalStatus::Rollbacking => "Rollbacking",
        GlobalStatus::RollbackRetrying => "RollbackRetrying",
        GlobalStatus::TimeoutRollbacking => "TimeoutRollbacking",
        GlobalStatus::TimeoutRollbackRetrying => "TimeoutRollbackRetrying",
        GlobalStatus::AsyncCommitting => "AsyncCommitting",
        GlobalStatus::Committed => "Committed",
        GlobalStatus::CommitFailed => "CommitFailed",
        GlobalStatus::Rollbacked => "Rollbacked",
        GlobalStatus::RollbackFailed => "RollbackFailed",
        GlobalStatus::TimeoutRollbacked => "TimeoutRollbacked",
        GlobalStatus::TimeoutRollbackFailed => "TimeoutRollbackFailed",
        GlobalStatus::Finished => "Finished",
    }
}

/// The branch and the statement at which a session failed.
fn put_failed(out: &mut String, failed: Option<(BranchId, u16)>) -> Result<(), AllocError>
    ensures { OnOk result (string_bytes out.new ≡ string_bytes out.old ++
        report.failed_text (option_map failed_at failed)) }
{
    match failed {
        Some((branch, stmt)) => write!(out, " b{} stmt {stmt}", branch.0),
        None => Ok(()),
    }
}

/// The line of a session.
fn put_session(out: &mut String, of: &SessionEntry, names: &Names) -> Result<(), AllocError>
    ensures { OnOk result (string_bytes out.new ≡ string_bytes out.old ++
        report.line (report.session_text names.now (line_in of.now))) }
{
    write!(out, "tc:{} ", of.xid.0)?;
    add_place(out, Place::Man(of.session.manager), names)?;
    let status = of.session.status;
    write!(out, " {} {}", status.code(), status_name(status))?;
    put_failed(out, of.session.failed)?;
    out.push_str("\n")
}

/// The lines of the sessions.
pub(crate) fn put_sessions(
    out: &mut String,
    sessions: &[SessionEntry],
    names: &Names,
) -> Result<(), AllocError>
    ensures { OnOk result (string_bytes out.new ≡ string_bytes out.old ++
        report.lines (report.session_text names.now) (map line_in sessions.now)) }
{
    for session in sessions {
        put_session(out, session, names)?;
    }
    Ok(())
}

/// The line of a row that is held.
fn put_lock(out: &mut String, key: &RowKey, holder: Xid, names: &Names) -> Result<(), AllocError>
    ensures { OnOk result (string_bytes out.new ≡ string_bytes out.old ++
        report.line (report.holder_text names.now (key.now, holder.0))) }
{
    add_key(out, key, names)?;
    write!(out, " tc:{}\n", holder.0)
}

/// The lines of the rows that are held.
pub(crate) fn put_locks(
    out: &mut String,
    locks: &[(RowKey, Xid)],
    names: &Names,
) -> Result<(), AllocError>
    ensures { OnOk result (string_bytes out.new ≡ string_bytes out.old ++
        report.lines (report.holder_text names.now) (map holder_in locks.now)) }
{
    for (key, holder) in locks {
        put_lock(out, key, *holder, names)?;
    }
    Ok(())
}

// ---- tables and fences

/// A row behind its resource and its table.
fn put_table_row(out: &mut String, key: &RowKey, row: &Row, names: &Names) -> Result<(), AllocError>
    ensures { OnOk result (string_bytes out.new ≡ string_bytes out.old ++
        report.line (report.table_row_text names.now (key.now, row.now))) }
{
    add_place(out, Place::Res(key.resource), names)?;
    write!(out, ".{} ", key.table.as_str())?;
    add_row(out, row)?;
    out.push_str("\n")
}

/// Whether a row is of this table of a resource.
pub(crate) fn is_in(resource: u16, def: &TableDef, key: &RowKey) -> bool
    ensures { result ≡ is_in resource def.now key.now }
{
    key.resource == resource && key.table == def.name
}

/// The lines of the rows of a table, of all rows of its resource.
fn put_table(
    out: &mut String,
    resource: u16,
    def: &TableDef,
    rows: &[(RowKey, Row)],
    names: &Names,
) -> Result<(), AllocError>
    ensures { OnOk result (string_bytes out.new ≡ string_bytes out.old ++
        report.lines (report.table_row_text names.now)
        (filter (λ e. is_in resource def.now e.0) rows.now)) }
{
    for (key, row) in rows {
        if is_in(resource, def, key) {
            put_table_row(out, key, row, names)?;
        }
    }
    Ok(())
}

/// The lines of all rows of a resource, table by table.
pub(crate) fn put_tables(
    out: &mut String,
    resource: u16,
    defs: &[TableDef],
    rows: &[(RowKey, Row)],
    names: &Names,
) -> Result<(), AllocError>
    ensures { OnOk result (string_bytes out.new ≡ string_bytes out.old ++
        report.lines (report.table_row_text names.now)
        (rows_of_tables resource rows.now defs.now)) }
{
    for def in defs {
        put_table(out, resource, def, rows, names)?;
    }
    Ok(())
}

/// A fence's status, as in Seata's `tcc_fence_log`.
fn fence_name(status: FenceStatus) -> &'static str
    ensures { result.now ≡ report.fence_name (status_of status) }
{
    match status {
        FenceStatus::Tried => "tried",
        FenceStatus::Committed => "committed",
        FenceStatus::Rollbacked => "rollbacked",
        FenceStatus::Suspended => "suspended",
    }
}

/// The line of a branch that has a fence.
fn put_fence(
    out: &mut String,
    resource: u16,
    leg: Leg,
    status: FenceStatus,
    names: &Names,
) -> Result<(), AllocError>
    ensures { OnOk result (string_bytes out.new ≡ string_bytes out.old ++
        report.line (report.fence_text names.now (resource, entry_of (leg, status)))) }
{
    add_place(out, Place::Res(resource), names)?;
    write!(
        out,
        " tc:{} b{} {}\n",
        leg.xid.0,
        leg.branch.0,
        fence_name(status)
    )
}

/// The lines of the branches of a resource that have a fence.
pub(crate) fn put_fences(
    out: &mut String,
    resource: u16,
    fences: &[(Leg, FenceStatus)],
    names: &Names,
) -> Result<(), AllocError>
    ensures { OnOk result (string_bytes out.new ≡ string_bytes out.old ++
        report.lines (report.fence_text names.now) (map (λ f. (resource, entry_of f)) fences.now)) }
{
    for (leg, status) in fences {
        put_fence(out, resource, *leg, *status, names)?;
    }
    Ok(())
}

// ---- reads

/// The line of a row that the local commit of a branch read.
fn put_read(
    out: &mut String,
    xid: Xid,
    branch: BranchId,
    read: &ReadRow,
    names: &Names,
) -> Result<(), AllocError>
    ensures { OnOk result (string_bytes out.new ≡ string_bytes out.old ++
        report.line (report.read_text names.now (read_line xid.0 branch.0 read.now))) }
{
    write!(out, "tc:{} b{} ", xid.0, branch.0)?;
    put_table_row(out, &read.key, &read.row, names)
}

/// The lines of the rows that the local commit of a branch read.
fn put_commit_reads(
    out: &mut String,
    xid: Xid,
    branch: BranchId,
    reads: &[ReadRow],
    names: &Names,
) -> Result<(), AllocError>
    ensures { OnOk result (string_bytes out.new ≡ string_bytes out.old ++
        report.lines (report.read_text names.now) (map (read_line xid.0 branch.0) reads.now)) }
{
    for read in reads {
        put_read(out, xid, branch, read, names)?;
    }
    Ok(())
}

/// The lines of the rows that a record's local commit read; none of any other record. Nothing is said where memory ends.
pub(crate) fn put_reads(
    out: &mut String,
    made: &Option<ResourceRecord>,
    names: &Names,
) -> Result<(), AllocError>
    ensures { OnOk result (string_bytes out.new ≡ string_bytes out.old ++
        reads_text names.now made.now) }
{
    match made {
        Some(
            ResourceRecord::Committed {
                xid,
                branch,
                reads,
                ..
            },
        ) => put_commit_reads(out, *xid, *branch, reads.as_slice(), names),
        _ => Ok(()),
    }
}
