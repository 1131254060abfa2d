//! A snapshot after one more record.
ghost use Rattle.std.specs.Prelude.{◌≡◌, ◌<◌, ◌+◌, ◌^◌, OnOk, OnErr};
ghost use Rattle.durable_records.specs.declared.coordinators.SessionRecord.TheVariants as log;
ghost use Rattle.session_log.specs.Soundness.{entry_xid};
ghost use Rattle.session_memory.specs.Order.{AreRising, Each, HasRising};
ghost use Rattle.session_memory.specs.Owners.{IsOwned, KeepsOthers, OthersStay};
ghost use Rattle.session_memory.specs.Changes.{after, with_turned, with_registered};

use crate::owners::TicketOwners;
use crate::sessions;
use durable_records::SessionRecord;
use seata_types::{GlobalStatus, List, NoMemory, Xid};
use session_log::{Branch, Session, SessionEntry, Snapshot};
use std::alloc::Global;

/// A transaction begins. After an error all is as before.
pub(crate) fn begin(
    alloc: Global,
    snapshot: &mut Snapshot,
    xid: Xid,
    manager: u16,
    begun: u64,
    timeout: u64,
) -> Result<(), NoMemory>
    requires acts { snapshot.old.acts + 1 < 2 ^ 32 }
    requires begun { snapshot.old.begun + 1 < 2 ^ 64 }
    ensures ok { OnOk result (snapshot.new ≡ after (log.Begun xid manager begun timeout) snapshot.old) }
    ensures err { OnErr result (snapshot.new ≡ snapshot.old) }
{
    let entry = SessionEntry {
        xid,
        session: Session {
            manager,
            begun,
            timeout,
            status: GlobalStatus::Begin,
            branches: List::of(Vec::new(alloc)),
            failed: None,
        },
    };
    let mut entries = sessions::take_items(alloc, &mut snapshot.sessions);
    let pushed = entries.push(entry);
    snapshot.sessions = List::of(entries);
    if pushed.is_err() {
        return Err(NoMemory);
    }
    snapshot.begun += 1;
    snapshot.acts += 1;
    Ok(())
}

/// A branch is registered for a transaction, and is its by its ticket. After an error the snapshot is as before.
pub(crate) fn register(
    alloc: Global,
    snapshot: &mut Snapshot,
    owners: &mut TicketOwners,
    xid: Xid,
    branch: Branch,
) -> Result<(), NoMemory>
    requires acts { snapshot.old.acts + 1 < 2 ^ 32 }
    requires granted { snapshot.old.granted + 1 < 2 ^ 64 }
    requires rising { AreRising entry_xid snapshot.old.sessions }
    ensures ok { OnOk result (snapshot.new ≡ with_registered snapshot.old xid.0 branch) }
    ensures err { OnErr result (snapshot.new ≡ snapshot.old) }
    ensures owned { OnOk result (IsOwned owners.new xid branch) }
    ensures others { KeepsOthers branch owners.old owners.new }
{
    owners.put(xid, &branch)?;
    let mut entries = sessions::take_items(alloc, &mut snapshot.sessions);
    let added = sessions::add_branch(alloc, &mut entries, xid, branch);
    snapshot.sessions = List::of(entries);
    added?;
    snapshot.granted += 1;
    snapshot.acts += 1;
    Ok(())
}

/// A transaction is known no more, and has no tickets. After an error all is as before.
pub(crate) fn forget(
    alloc: Global,
    snapshot: &mut Snapshot,
    owners: &mut TicketOwners,
    xid: Xid,
) -> Result<(), NoMemory>
    requires acts { snapshot.old.acts + 1 < 2 ^ 32 }
    requires rising { AreRising entry_xid snapshot.old.sessions }
    ensures ok { OnOk result (snapshot.new ≡ after (log.Forgot xid) snapshot.old) }
    ensures others { OthersStay xid owners.old owners.new }
    ensures err { OnErr result (snapshot.new ≡ snapshot.old) }
    ensures same { OnErr result (owners.new ≡ owners.old) }
{
    let mut entries = sessions::take_items(alloc, &mut snapshot.sessions);
    let mut forgotten = sessions::take_items(alloc, &mut snapshot.forgotten);
    let result = sessions::forget(&mut entries, &mut forgotten, owners, xid);
    snapshot.sessions = List::of(entries);
    snapshot.forgotten = List::of(forgotten);
    result?;
    snapshot.acts += 1;
    Ok(())
}

/// A record changes its transaction, and registers no branch.
pub(crate) fn turn(alloc: Global, snapshot: &mut Snapshot, item: &SessionRecord)
    requires acts { snapshot.old.acts + 1 < 2 ^ 32 }
    requires rising { AreRising entry_xid snapshot.old.sessions }
    requires branches { Each HasRising snapshot.old.sessions }
    ensures { snapshot.new ≡ with_turned item.now snapshot.old }
{
    let mut entries = sessions::take_items(alloc, &mut snapshot.sessions);
    sessions::turn_one(alloc, &mut entries, item);
    snapshot.sessions = List::of(entries);
    snapshot.acts += 1;
}
