//! Two disks, of which one is active.
use crate::heads::read_active;
use crate::layout::{AROUND, SNAPSHOT_HEAD_BYTES};
use crate::loading::{begins_at, error_on, read_snapshot};
use crate::restarting::restart_both;
use crate::types::{Active, Found, TwinError};
use crate::writing::write_snapshot;
use disk_journal::{AppendError, Journal};
use disk_model::{Disk, Failed};
use seata_types::Full;
use std::alloc::Global;

/// A journal over two disks.
#[derive(Drop)]
pub struct Twin<D> {
    // Over the active disk.
    journal: Journal<D>,
    other: D,
    // Whether the second disk is the active one.
    second: bool,
    // Of the active disk's snapshot, and 0 where there is none.
    generation: u32,
    // Whether the other disk's switch is open.
    other_open: bool,
}

impl<D: Disk> Twin<D> {
    ghost use Rattle.std.specs.Prelude.{◌≡◌, ◌⊎◌, ◌↔◌, ◌+◌, ◌*◌, ◌^◌, ◌<◌, ◌≤◌, ℕ, true, false, is_err, is_ok, List, length, Option, Some, option_map, Ok, Err, IsTrue, IfOk, IfErr, OnOk, OnErr};
    ghost use Rattle.std.specs.Borrow.{sem};
    ghost use Rattle.disk_model.specs.Disk.{IsSettled, HasCause, KeepsRest, present, Rose};
    ghost use Rattle.disk_model.specs.declared.disk.TheConstants.{LAST_PICK};
    ghost use Rattle.disk_journal.specs.Keeping.{OnlyReads, IsFull, CountsAppend, StandsFor};
    ghost use Rattle.disk_journal.specs.Journals.{from_of, Keeps};
    ghost use Rattle.seata_types.specs.declared.limits.TheConstants.{BODY_BYTES};
    ghost use Rattle.journal_checkpoint.specs.Pairs.{begins_at, snapshot_in};
    ghost use Rattle.journal_checkpoint.specs.Images.{TellAlike, FindsActive, TellsPair, ReadsPair, RestartsPair, FailsItself, CannotCheckpoint, PairStandsFor, FitsSnapshot, HasHead, LeavesPairs, Either, with_record, only_snapshot};
    ghost use Rattle.journal_checkpoint.specs.Keeping.{KeepsPair, IsExchanged, IsFallen, IsHeldDamage, LendsActive, LendsOther, active_disk, other_disk, is_second, generation_of, first_disk, second_disk, first_after, second_after, read_by, disks, is_down, needed_for, records_length, twin_extent};
    ghost use Rattle.journal_checkpoint.specs.Extents.{longer};

    /// Reads two disks, and gives what they hold. It writes nothing. The disks come back where it fails: `Damaged` where
    /// their bytes hold nothing, `NoMemory` where there is none for what they hold or for appends.
    pub fn open(alloc: Global, first: D, second: D) -> Result<(Twin<D>, Found), (TwinError, D, D)>
        requires first { IsSettled (D.state first) }
        requires second { IsSettled (D.state second) }

        ensures keeps { IfOk result (λ opened. TellAlike (D.state first) (D.state second) → KeepsPair D.state opened.1 opened.0) }
        // This is exactly what the bytes hold, and the damage is where they have it.
        ensures reads { ReadsPair (D.state first) (D.state second) (D.state (first_after result)) (D.state (second_after result)) (read_by result) }
        ensures up { IfOk result (λ opened. is_down opened.0 ≡ false) }
    {
        let journal = match Journal::unread(alloc, first) {
            Ok(journal) => journal,
            Err(first) => return Err((TwinError::NoMemory, first, second)),
        };
        let mut twin = Twin {
            journal,
            other: second,
            second: false,
            generation: 0,
            other_open: false,
        };
        match twin.reload(alloc) {
            Ok(found) => Ok((twin, found)),
            Err(error) => {
                let (first, second) = twin.into_disks();
                Err((error, first, second))
            }
        }
    }

    /// Whether a record with a body of so many bytes fits on the active disk.
    pub fn fits(&self, body: usize) -> Result<(), Full>
        requires { body ≤ BODY_BYTES }
        ensures ok { OnOk result (needed_for self.now body ≤ (D.state (active_disk self.now)).size) }
        ensures full { IfErr result (IsFull (needed_for self.now body) (D.state (active_disk self.now)).size) }
        ensures small { OnOk result (needed_for self.now body < 2 ^ 32) }
    {
        self.journal.fits(body)
    }

    /// Adds a record on the active disk. At `Ok` it is acknowledged: from then on each crash leaves it.
    ///
    /// It makes four calls of that disk where none fails, two writes each with a sync, and takes no memory. `Full` comes
    /// before any call. After `Failed` the pair is down, and is to be restarted.
    pub fn append(&mut self, body: &[u8]) -> Result<(), AppendError>
        requires up { is_down self.old ≡ false }
        requires small { length body.now ≤ BODY_BYTES }

        ensures acknowledged { OnOk result ((found : Found) →
            KeepsPair D.state found self.old → KeepsPair D.state (with_record found body.now) self.new) }

        // A crash at any moment of the call, however it ends, leaves what was there, with the new record or without.
        ensures any_moment { (found : Found) → KeepsPair D.state found self.old →
            LeavesPairs (disks D.state self.old) (disks D.state self.new) (Either found (with_record found body.now)) }

        // Where a stop lets fewer calls pass than the first write with its sync, no image has the new record.
        ensures not_begun { (found : Found) → KeepsPair D.state found self.old →
            (calls : ℕ) → (D.state (active_disk self.old)).counts.left ≡ Some calls → calls < 2 →
            LeavesPairs (disks D.state self.old) (disks D.state self.new) (PairStandsFor found) }

        // It is `Full` exactly where the record doesn't fit, and changes nothing then.
        ensures full { (full : Full) → result ≡ Err (AppendError.Full full) →
            IsFull (needed_for self.old (length body.now)) (D.state (active_disk self.old)).size full × (self.new ≡ self.old) }
        ensures fits { OnOk result (needed_for self.old (length body.now) ≤ (D.state (active_disk self.old)).size) }
        ensures failed { result ≡ Err AppendError.Failed →
            needed_for self.old (length body.now) ≤ (D.state (active_disk self.old)).size }

        // It is `Failed` where a stop lets fewer than four calls pass, and else only by the active disk's own fault.
        ensures stopped { (calls : ℕ) → (D.state (active_disk self.old)).counts.left ≡ Some calls → calls < 4 →
            needed_for self.old (length body.now) ≤ (D.state (active_disk self.old)).size → result ≡ Err AppendError.Failed }
        ensures cause { result ≡ Err AppendError.Failed →
            Rose (D.state (active_disk self.old)).counts.own (D.state (active_disk self.new)).counts.own
            ⊎ ((calls : ℕ) × ((D.state (active_disk self.old)).counts.left ≡ Some calls) × (calls < 4)) }
        ensures down { IsTrue (is_down self.new) ↔ (result ≡ Err AppendError.Failed) }

        ensures counts { CountsAppend result (D.state (active_disk self.old)).counts (D.state (active_disk self.new)).counts }
        ensures rest { KeepsRest (D.state (active_disk self.old)) (D.state (active_disk self.new)) }
        ensures other { other_disk self.new ≡ other_disk self.old }
        ensures second { is_second self.new ≡ is_second self.old }
        ensures generation { generation_of self.new ≡ generation_of self.old }
        ensures extent { OnOk result
            (twin_extent self.new ≡ longer (length body.now) (twin_extent self.old)) }
    {
        self.journal.append(body)
    }

    /// Whether the records past the snapshot take more than half of the disk, up to the next gate.
    pub fn due(&self) -> bool
        ensures { IsTrue result ↔ ((D.state (active_disk self.now)).size < 2 * records_length self.now) }
    {
        self.journal.length() > self.journal.disk_size() / 2
    }

    /// Puts a snapshot in place of the snapshot and records, on the other disk, which then is the active one. It takes no
    /// memory.
    ///
    /// It answers `false`, before any call of a disk, where the snapshot doesn't fit or there is no greater generation.
    /// After `Failed` the pair is down, and is to be restarted. A stop on the active disk counts no call of it.
    pub fn checkpoint(&mut self, snapshot: &[u8]) -> Result<bool, Failed>
        requires up { is_down self.old ≡ false }

        ensures done { result ≡ Ok true → (found : Found) →
            KeepsPair D.state found self.old → KeepsPair D.state (only_snapshot found snapshot.now) self.new }

        // A crash at any moment of the call, however it ends, leaves the old snapshot and records, or the new snapshot.
        ensures any_moment { (found : Found) → KeepsPair D.state found self.old →
            LeavesPairs (disks D.state self.old) (disks D.state self.new) (Either found (only_snapshot found snapshot.now)) }

        ensures refused { result ≡ Ok false ↔ CannotCheckpoint (D.state (other_disk self.old)).size (length snapshot.now) (generation_of self.old) }
        ensures unchanged { result ≡ Ok false → self.new ≡ self.old }
        ensures exchanged { result ≡ Ok true → IsExchanged D.state (length snapshot.now) self.old self.new }
        ensures fallen { IfErr result (λ error. IsFallen D.state error self.old self.new) }
        ensures down { is_down self.new ≡ is_err result }
    {
        let length = snapshot.len() as u64;
        if length + AROUND > self.other.size() {
            return Ok(false);
        }
        if self.generation == u32::MAX {
            return Ok(false);
        }
        match write_snapshot(&mut self.other, self.other_open, self.generation, snapshot) {
            Err(error) => {
                self.journal.fall();
                Err(error)
            }
            Ok(()) => {
                self.journal
                    .exchange(&mut self.other, SNAPSHOT_HEAD_BYTES + length);
                self.other_open = self.generation > 0;
                self.second = !self.second;
                self.generation += 1;
                Ok(true)
            }
        }
    }

    /// Takes no more records until it is restarted, as after a crash.
    pub fn fall(&mut self)
        ensures first { first_disk self.new ≡ first_disk self.old }
        ensures second { second_disk self.new ≡ second_disk self.old }
        ensures down { is_down self.new ≡ true }
    {
        self.journal.fall();
    }

    /// Comes back after a crash, in place: both disks restart with this pick, and are read. It is down where that fails, by
    /// the causes of `open`.
    pub fn restart(&mut self, alloc: Global, pick: u16) -> Result<Found, TwinError>
        requires { pick ≤ LAST_PICK }

        ensures keeps { IfOk result (λ found. TellAlike (D.state (first_disk self.new)) (D.state (second_disk self.new)) →
            KeepsPair D.state found self.new) }
        // This is exactly what the bytes hold, and the damage is where they have it.
        ensures tells { TellsPair (D.state (first_disk self.new)) (D.state (second_disk self.new)) result }
        ensures restarts { RestartsPair (is_ok result) pick (D.state (first_disk self.old)) (D.state (second_disk self.old)) (D.state (first_disk self.new)) (D.state (second_disk self.new)) }
        ensures failed { result ≡ Err TwinError.Failed →
            FailsItself (D.state (first_disk self.old)).counts (D.state (first_disk self.new)).counts
            ⊎ FailsItself (D.state (second_disk self.old)).counts (D.state (second_disk self.new)).counts }
        ensures up { is_down self.new ≡ is_err result }
    {
        self.fall();
        if let Err(Failed) = self.restart_disks(pick) {
            return Err(TwinError::Failed);
        }
        match self.reload(alloc) {
            Ok(found) => Ok(found),
            Err(error) => Err(error),
        }
    }

    /// Whether a call failed, or `fall` was called. Then the pair takes no more records until it is restarted.
    pub fn is_down(&self) -> bool
        ensures { result ≡ is_down self.now }
    {
        self.journal.is_down()
    }

    /// Whether the second disk is the active one: it has the snapshot and the records, and takes what is added.
    pub fn is_second(&self) -> bool
        ensures { result ≡ is_second self.now }
    {
        self.second
    }

    /// The active disk, to arm it or to read its counts. The pair keeps what it holds only where no call changes the images.
    pub fn active_mut(&mut self) -> &mut D
        ensures* lends { sem 𝓛 (LendsActive D.row self.entry result) }
        ensures disk { result.now ≡ active_disk self.old }
    {
        self.journal.disk_mut()
    }

    /// The disk that is not active, to arm it or to read its counts.
    pub fn other_mut(&mut self) -> &mut D
        ensures* lends { sem 𝓛 (LendsOther D.row self.entry result) }
        ensures disk { result.now ≡ other_disk self.old }
    {
        &mut self.other
    }

    /// The two disks, in their order.
    pub fn into_disks(self) -> (D, D)
        ensures { result ≡ (first_disk self, second_disk self) }
    {
        let Twin {
            journal,
            other,
            second,
            ..
        } = self;
        let active = journal.into_disk();
        if second {
            return (other, active);
        }
        (active, other)
    }

    // Restarts both disks.
    fn restart_disks(&mut self, pick: u16) -> Result<(), Failed>
        requires { pick ≤ LAST_PICK }
        ensures restarts { RestartsPair (is_ok result) pick (D.state (first_disk self.old)) (D.state (second_disk self.old)) (D.state (first_disk self.new)) (D.state (second_disk self.new)) }
        ensures cause { OnErr result (FailsItself (D.state (first_disk self.old)).counts (D.state (first_disk self.new)).counts
            ⊎ FailsItself (D.state (second_disk self.old)).counts (D.state (second_disk self.new)).counts) }
        ensures down { is_down self.new ≡ is_down self.old }
    {
        if self.second {
            return restart_both(&mut self.other, self.journal.disk_mut(), pick);
        }
        restart_both(self.journal.disk_mut(), &mut self.other, pick)
    }

    // Which disk is active, by their heads.
    fn read_heads(&mut self) -> Result<Active, TwinError>
        ensures found { FindsActive (D.state (first_disk self.old)) (D.state (second_disk self.old)) (D.state (first_disk self.new)) (D.state (second_disk self.new)) result }
        ensures side { is_second self.new ≡ is_second self.old }
        ensures down { is_down self.new ≡ is_down self.old }
    {
        if self.second {
            return read_active(&mut self.other, self.journal.disk_mut());
        }
        read_active(self.journal.disk_mut(), &mut self.other)
    }

    // Goes over to a disk that is still to be read, from wherever its records begin.
    fn turn_to(&mut self, second: bool)
        ensures first { first_disk self.new ≡ first_disk self.old }
        ensures second { second_disk self.new ≡ second_disk self.old }
        ensures side { is_second self.new ≡ second }
        ensures down { is_down self.new ≡ is_down self.old }
    {
        if self.second != second {
            self.journal.exchange(&mut self.other, 0);
            self.second = second;
        }
    }

    // Reads the snapshot and the records of the active disk.
    fn load(&mut self, alloc: Global, active: Active) -> Result<Found, TwinError>
        requires down { is_down self.old ≡ true }
        requires settled { IsSettled (D.state (active_disk self.old)) }
        requires fits { FitsSnapshot (D.state (active_disk self.old)).size active.snapshot }
        ensures snapshot { IfOk result (λ found. (c : List ℕ) → present (D.state (active_disk self.old)) ≡ Some c
            → found.snapshot ≡ option_map (snapshot_in c) active.snapshot) }
        ensures records { IfOk result (λ found. (c : List ℕ) → present (D.state (active_disk self.old)) ≡ Some c
            → StandsFor (begins_at active.snapshot) found.records c) }
        ensures keeps { IfOk result (λ found. Keeps D.state found.records self.new.journal) }
        ensures head { IfOk result (HasHead active) }
        ensures damaged { IfErr result (λ error. (c : List ℕ) → present (D.state (active_disk self.old)) ≡ Some c → IsHeldDamage active c error) }
        ensures failed { result ≡ Err TwinError.Failed → HasCause (D.state (active_disk self.old)).counts (D.state (active_disk self.new)).counts }
        ensures only_reads { OnlyReads (D.state (active_disk self.old)) (D.state (active_disk self.new)) }
        ensures other { other_disk self.new ≡ other_disk self.old }
        ensures side { is_second self.new ≡ is_second self.old }
        ensures begins { OnOk result (from_of self.new.journal ≡ begins_at active.snapshot) }
        ensures generation { OnOk result (self.new.generation ≡ active.generation) }
        ensures other_open { OnOk result (self.new.other_open ≡ active.other_open) }
        ensures up { is_down self.new ≡ is_err result }
    {
        let snapshot = match read_snapshot(alloc, self.journal.disk_mut(), active.snapshot) {
            Ok(snapshot) => snapshot,
            Err(error) => return Err(error),
        };
        match self.journal.reload(alloc, begins_at(active.snapshot)) {
            Ok(records) => {
                self.generation = active.generation;
                self.other_open = active.other_open;
                Ok(Found {
                    second: active.second,
                    generation: active.generation,
                    snapshot,
                    records,
                })
            }
            Err(error) => {
                drop(snapshot);
                Err(error_on(active.second, error))
            }
        }
    }

    // Reads both disks. It is down where that fails.
    fn reload(&mut self, alloc: Global) -> Result<Found, TwinError>
        requires first { IsSettled (D.state (first_disk self.old)) }
        requires second { IsSettled (D.state (second_disk self.old)) }
        ensures keeps { IfOk result (λ found. TellAlike (D.state (first_disk self.old)) (D.state (second_disk self.old)) → KeepsPair D.state found self.new) }
        ensures reads { ReadsPair (D.state (first_disk self.old)) (D.state (second_disk self.old)) (D.state (first_disk self.new)) (D.state (second_disk self.new)) result }
        ensures up { is_down self.new ≡ is_err result }
    {
        self.fall();
        let active = match self.read_heads() {
            Ok(active) => active,
            Err(error) => return Err(error),
        };
        self.turn_to(active.second);
        match self.load(alloc, active) {
            Ok(found) => Ok(found),
            Err(error) => Err(error),
        }
    }
}
