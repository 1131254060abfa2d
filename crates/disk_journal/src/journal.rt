//! The journal: what fits on its disk, and how a record is added.
ghost use Rattle.std.specs.Prelude.{◌≡◌, ◌⊎◌, ◌↔◌, ◌+◌, ◌^◌, ◌<◌, ◌≤◌, ℕ, List, [], ◌∷◌, ◌++◌, length, vec_len, vec_capacity, true, false, is_err, Ok, Err, Some, IsTrue, IfOk, IfErr, OnOk, OnErr};
ghost use Rattle.std.specs.Borrow.{sem};
ghost use Rattle.disk_model.specs.Disk.{present, IsSettled, Leaves, CountsCalls, HasCause, KeepsRest, Rose};
ghost use Rattle.seata_types.specs.declared.limits.TheConstants.{BODY_BYTES};
ghost use Rattle.disk_journal.specs.declared.layout.TheConstants.{RECORD_HEAD_BYTES, GREATEST};
ghost use Rattle.disk_journal.specs.Reading.{row_length, staged};
ghost use Rattle.disk_journal.specs.Keeping.{StandsFor, Holds, AddsAtMost, SameFront, OnlyReads, IsDamageIn, IsFull, Stages, CountsAppend};

use crate::device::write_through;
use crate::errors::{AppendError, JournalError};
use crate::layout::{CLOSED, GREATEST, OPEN, RECORD_HEAD_BYTES, SHORTEST};
use crate::opening::read_records;
use disk_model::{Disk, Failed, append};
use seata_types::limits::BODY_BYTES;
use seata_types::{Full, List};
use std::alloc::Global;
use std::mem::swap;

/// A row of records on a disk.
#[derive(Drop)]
pub struct Journal<D> {
    disk: D,
    // Where its first record begins.
    from: u64,
    // The offset of the closed gate behind the last record.
    end: u64,
    // Room for the greatest record, so that no append takes memory.
    scratch: Vec<u8>,
    down: bool,
    ghost order: { from ≤ end },
    ghost small: { end < 2 ^ 32 },
    ghost room: { GREATEST ≤ vec_capacity scratch },
}

impl<D: Disk> Journal<D> {
    ghost use Rattle.disk_journal.specs.Journals.{disk_of, from_of, end_of, disk_after, is_down, needed_for, Keeps, Recovers, LendsDisk};

    /// Reads a disk as a journal from an offset on, and gives its records in order. It writes nothing. The disk comes back
    /// where it fails: `Damaged` where its bytes are no journal from there on, with the offset counted from the disk's first
    /// byte, `NoMemory` where there is none for the records or for appends.
    pub fn open(
        alloc: Global,
        disk: D,
        from: u64,
    ) -> Result<(Journal<D>, List<List<u8>>), (JournalError, D)>
        requires { IsSettled (D.state disk) }

        ensures keeps { IfOk result (λ opened. Keeps D.state opened.1 opened.0) }
        ensures begins { IfOk result (λ opened. from_of opened.0 ≡ from) }
        ensures up { IfOk result (λ opened. is_down opened.0 ≡ false) }
        // These are exactly the records that the bytes hold, and the damage is where they have it.
        ensures records { IfOk result (λ opened. (c : List ℕ) → present (D.state disk) ≡ Some c → StandsFor from opened.1 c) }
        ensures damaged { IfErr result (λ failed. (c : List ℕ) → present (D.state disk) ≡ Some c → IsDamageIn from c failed.0) }

        // What a journal left is never damaged.
        ensures recovers { (bodies : List (List ℕ)) (c : List ℕ) →
            present (D.state disk) ≡ Some c → StandsFor from bodies c → Recovers bodies result }

        ensures failed { IfErr result (λ failed. failed.0 ≡ JournalError.Failed →
            HasCause (D.state disk).counts (D.state failed.1).counts) }
        ensures only_reads { OnlyReads (D.state disk) (D.state (disk_after result)) }
    {
        let mut journal = match Journal::unread(alloc, disk) {
            Ok(journal) => journal,
            Err(disk) => return Err((JournalError::NoMemory, disk)),
        };
        match journal.reload(alloc, from) {
            Ok(records) => Ok((journal, records)),
            Err(error) => Err((error, journal.into_disk())),
        }
    }

    /// A journal over a disk that it has not read: it is down until `reload` reads it. The disk comes back where there is
    /// no memory for appends.
    pub fn unread(alloc: Global, disk: D) -> Result<Journal<D>, D>
        ensures disk { IfOk result (λ made. disk_of made ≡ disk) }
        ensures down { IfOk result (λ made. is_down made ≡ true) }
        ensures back { IfErr result (λ given. given ≡ disk) }
    {
        match Vec::with_capacity(alloc, GREATEST) {
            Ok(scratch) => Ok(Journal {
                disk,
                from: 0,
                end: 0,
                scratch,
                down: true,
            }),
            Err(_) => Err(disk),
        }
    }

    /// Whether a record with a body of so many bytes fits on the disk.
    pub fn fits(&self, body: usize) -> Result<(), Full>
        requires { body ≤ BODY_BYTES }
        ensures ok { OnOk result (needed_for self.now body ≤ (D.state (disk_of self.now)).size) }
        ensures full { IfErr result (IsFull (needed_for self.now body) (D.state (disk_of self.now)).size) }
        ensures small { OnOk result (needed_for self.now body < 2 ^ 32) }
    {
        let needed = self.end + body as u64 + SHORTEST;
        let size = self.disk.size();
        if needed > size {
            return Err(Full { needed, size });
        }
        Ok(())
    }

    /// Adds a record. At `Ok` it is acknowledged: from then on each crash leaves it.
    ///
    /// It makes four calls of the disk where none fails, two writes each with a sync, and takes no memory. `Full` comes
    /// before any call. After `Failed` the journal is down, and its disk is to be restarted and opened anew.
    pub fn append(&mut self, body: &[u8]) -> Result<(), AppendError>
        requires up { is_down self.old ≡ false }
        requires small { length body.now ≤ BODY_BYTES }

        ensures acknowledged { OnOk result ((bodies : List (List ℕ)) →
            Keeps D.state bodies self.old → Keeps D.state (bodies ++ body.now ∷ []) self.new) }

        // A crash at any moment of the call, however it ends, leaves the records from before, with the new one or without.
        ensures any_moment { (bodies : List (List ℕ)) → Keeps D.state bodies self.old →
            AddsAtMost (from_of self.old) bodies body.now (D.state (disk_of self.old)) (D.state (disk_of self.new)) }

        // Where a stop lets fewer calls pass than the first write with its sync, no image has the new record.
        ensures not_begun { (bodies : List (List ℕ)) → Keeps D.state bodies self.old →
            (calls : ℕ) → (D.state (disk_of self.old)).counts.left ≡ Some calls → calls < 2 →
            Leaves (D.state (disk_of self.old)) (D.state (disk_of self.new)) (StandsFor (from_of self.old) bodies) }

        // It is `Full` exactly where the record doesn't fit, and changes nothing then.
        ensures full { (full : Full) → result ≡ Err (AppendError.Full full) →
            IsFull (needed_for self.old (length body.now)) (D.state (disk_of self.old)).size full × (self.new ≡ self.old) }
        ensures fits { OnOk result (needed_for self.old (length body.now) ≤ (D.state (disk_of self.old)).size) }
        ensures failed { result ≡ Err AppendError.Failed →
            needed_for self.old (length body.now) ≤ (D.state (disk_of self.old)).size }

        // It is `Failed` where a stop lets fewer than four calls pass, and else only by the disk's own fault.
        ensures stopped { (calls : ℕ) → (D.state (disk_of self.old)).counts.left ≡ Some calls → calls < 4 →
            needed_for self.old (length body.now) ≤ (D.state (disk_of self.old)).size → result ≡ Err AppendError.Failed }
        ensures cause { result ≡ Err AppendError.Failed →
            Rose (D.state (disk_of self.old)).counts.own (D.state (disk_of self.new)).counts.own
            ⊎ ((calls : ℕ) × ((D.state (disk_of self.old)).counts.left ≡ Some calls) × (calls < 4)) }
        ensures down { IsTrue (is_down self.new) ↔ (result ≡ Err AppendError.Failed) }

        ensures counts { CountsAppend result (D.state (disk_of self.old)).counts (D.state (disk_of self.new)).counts }
        ensures rest { KeepsRest (D.state (disk_of self.old)) (D.state (disk_of self.new)) }
        // What stands before its first record stays.
        ensures front { Leaves (D.state (disk_of self.old)) (D.state (disk_of self.new))
            (SameFront (from_of self.old) (D.state (disk_of self.old)).may_leave) }
        ensures begins { from_of self.new ≡ from_of self.old }
        ensures moved { OnOk result (end_of self.new ≡ end_of self.old + length body.now + RECORD_HEAD_BYTES) }
    {
        if let Err(full) = self.fits(body.len()) {
            return Err(AppendError::Full(full));
        }
        stage(&mut self.scratch, body);
        match add_record(&mut self.disk, self.end, &self.scratch) {
            Ok(()) => {
                self.end += body.len() as u64 + RECORD_HEAD_BYTES;
                Ok(())
            }
            Err(Failed) => {
                self.down = true;
                Err(AppendError::Failed)
            }
        }
    }

    /// Whether an append failed. Then the journal takes no more records.
    pub fn is_down(&self) -> bool
        ensures { result ≡ is_down self.now }
    {
        self.down
    }

    /// The disk, to arm it or to read its counts. A journal keeps its records only where no call changes the images.
    pub fn disk_mut(&mut self) -> &mut D
        ensures* lends { sem 𝓛 (LendsDisk D.row self.entry result) }
        ensures disk { result.now ≡ disk_of self.old }
    {
        &mut self.disk
    }

    /// How many bytes its disk has.
    pub fn disk_size(&self) -> u64
        ensures size { result ≡ (D.state (disk_of self.now)).size }
        ensures small { result < 2 ^ 32 }
    {
        self.disk.size()
    }

    /// How many bytes its records take, up to the next gate.
    pub fn length(&self) -> u64
        ensures { end_of self.now ≡ from_of self.now + result }
    {
        self.end - self.from
    }

    /// Goes on over the other disk, from an offset and without records. The former disk stands in `other` then. It makes
    /// no call of either disk, and a journal that is down stays so.
    ///
    /// It keeps no record there if nothing is pending on that disk and its gate there is closed.
    pub fn exchange(&mut self, other: &mut D, from: u64)
        requires { from < 2 ^ 32 }
        ensures disk { disk_of self.new ≡ other.old }
        ensures former { other.new ≡ disk_of self.old }
        ensures begins { from_of self.new ≡ from }
        ensures ends { end_of self.new ≡ from }
        ensures keeps { Holds (D.state other.old) from [] → Keeps D.state [] self.new }
        ensures down { is_down self.new ≡ is_down self.old }
    {
        swap(&mut self.disk, other);
        self.from = from;
        self.end = from;
    }

    /// Takes no more records until its disk is read again, as after a crash.
    pub fn fall(&mut self)
        ensures down { is_down self.new ≡ true }
        ensures disk { disk_of self.new ≡ disk_of self.old }
        ensures begins { from_of self.new ≡ from_of self.old }
    {
        self.down = true;
    }

    /// Reads its disk again, in place, as a journal from an offset on. It writes nothing, and is down where it fails: by
    /// the causes of `open`.
    pub fn reload(&mut self, alloc: Global, from: u64) -> Result<List<List<u8>>, JournalError>
        requires { IsSettled (D.state (disk_of self.old)) }
        ensures keeps { IfOk result (λ records. Keeps D.state records self.new) }
        ensures records { IfOk result (λ records. (c : List ℕ) → present (D.state (disk_of self.old)) ≡ Some c → StandsFor from records c) }
        ensures damaged { IfErr result (λ error. (c : List ℕ) → present (D.state (disk_of self.old)) ≡ Some c → IsDamageIn from c error) }
        ensures failed { result ≡ Err JournalError.Failed → HasCause (D.state (disk_of self.old)).counts (D.state (disk_of self.new)).counts }
        ensures only_reads { OnlyReads (D.state (disk_of self.old)) (D.state (disk_of self.new)) }
        ensures begins { OnOk result (from_of self.new ≡ from) }
        ensures up { is_down self.new ≡ is_err result }
    {
        self.down = true;
        let (records, end) = match read_records(alloc, &mut self.disk, from) {
            Ok(found) => found,
            Err(error) => return Err(error),
        };
        self.from = from;
        self.end = end;
        self.down = false;
        Ok(List::of(records))
    }

    /// The disk alone.
    pub fn into_disk(self) -> D
        ensures { result ≡ disk_of self }
    {
        let Journal { disk, .. } = self;
        disk
    }
}

// A record behind its gate, in place of what was there.
fn stage(scratch: &mut Vec<u8>, body: &[u8])
    requires small { length body.now ≤ BODY_BYTES }
    requires room { GREATEST ≤ vec_capacity scratch.old }
    ensures staged { scratch.new.items ≡ staged body.now }
    ensures size { vec_len scratch.new ≡ length body.now + RECORD_HEAD_BYTES }
    ensures room { GREATEST ≤ vec_capacity scratch.new }
{
    scratch.clear();
    append(scratch, &(body.len() as u32).to_be_bytes());
    append(scratch, body);
    append(scratch, &[CLOSED]);
}

// Adds a record whose gate is to be at this offset, where a closed gate stands. Its bytes are stable before its gate is
// opened, and no image has it before.
fn add_record<D: Disk>(disk: &mut D, gate: u64, behind: &[u8]) -> Result<(), Failed>
    requires small { gate < 2 ^ 32 }
    requires fits { gate + 1 + length behind.now ≤ (D.state disk.old).size }
    ensures added { OnOk result ((from : ℕ) (bodies : List (List ℕ)) (body : List ℕ) → Stages gate behind.now from bodies body →
        Holds (D.state disk.old) from bodies → Holds (D.state disk.new) from (bodies ++ body ∷ [])) }
    ensures any_moment { (from : ℕ) (bodies : List (List ℕ)) (body : List ℕ) → Stages gate behind.now from bodies body →
        Holds (D.state disk.old) from bodies → AddsAtMost from bodies body (D.state disk.old) (D.state disk.new) }
    ensures not_begun { (from : ℕ) (bodies : List (List ℕ)) (body : List ℕ) → Stages gate behind.now from bodies body →
        Holds (D.state disk.old) from bodies → (calls : ℕ) → (D.state disk.old).counts.left ≡ Some calls → calls < 2 →
        Leaves (D.state disk.old) (D.state disk.new) (StandsFor from bodies) }
    ensures front { Leaves (D.state disk.old) (D.state disk.new) (SameFront gate (D.state disk.old).may_leave) }
    ensures counts { CountsCalls 4 result (D.state disk.old).counts (D.state disk.new).counts }
    ensures rest { KeepsRest (D.state disk.old) (D.state disk.new) }
{
    write_through(disk, gate + 1, behind)?;
    write_through(disk, gate, &[OPEN])?;
    Ok(())
}
