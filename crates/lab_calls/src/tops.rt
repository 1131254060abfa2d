//! The calls at the top: one replay, one run, one listing, one made scenario, one look at disks, one audit, and the program's words.
ghost use Rattle.std.specs.Prelude.{◌≡◌, ◌≤◌, ◌⊎◌, ℕ, ◌∷◌, false};
ghost use Rattle.seata_types.specs.declared.limits.TheConstants.{HISTORY_BYTES, INPUT_BYTES};
ghost use Rattle.scenario_nodes.specs.Shelves.{ReturnsAll};
ghost use Rattle.replay_runner.specs.Leaving as replayed;
ghost use Rattle.thread_runner.specs.Running as ran;
ghost use Rattle.lab_calls.specs.Answers.{IsFramesAnswer, TellsFaults, TellsUsage, frames_statuses, replay_statuses, with_failures};
ghost use Rattle.lab_calls.specs.Auditing.{AuditsOnce, IsJudged, audit_statuses};
ghost use Rattle.lab_calls.specs.Making.{MakesOnce};
ghost use Rattle.lab_calls.specs.Once.{ListsOnce, ReplaysOnce, RunsOnce};
ghost use Rattle.lab_calls.specs.Kept.{EndsKept};
ghost use Rattle.lab_calls.specs.Steps.{AnswersInput, PlaysInput, ReadsScenario, WritesAnswer, WritesText};
ghost use Rattle.lab_calls.specs.Showing.{ShowsOnce};
ghost use Rattle.lab_calls.specs.Stressing.{StressesMade, StressesOnce};
ghost use Rattle.lab_calls.specs.Streams.{devices};
ghost use Rattle.lab_calls.specs.Tasks.{reads_source, task_of, uses_shelf};

use crate::answers::{Answer, refused, told};
use crate::auditing::answer_judged;
use crate::frames::list_frames;
use crate::making::answer_made;
use crate::played::{replay_kept, run_kept, run_over};
use crate::showing::answer_shown;
use crate::statuses::{MEMORY, SINK, SOURCE, WORDS};
use crate::streams::{Failed, Sink, Source};
use crate::stressing::{made_scenario, stressed};
use crate::tasks::Task;
use crate::transfer::{ReadFault, read_all, write_all};
use crate::words::task_of;
use disk_model::Shelf;
use scenario_reader::{Scenario, read};
use seata_types::Text;
use seata_types::limits::{HISTORY_BYTES, INPUT_BYTES};
use std::alloc::Global;
use std::sync::Wait;
use std::thread::Threads;
use thread_runner::Gate;

/// Writes a text, and gives the status once it was written.
fn finish<K: Sink>(sink: &mut K, text: &str, status: u8) -> u8
    ensures { WritesText text.now status result (K.state sink.old) (K.state sink.new) }
{
    match write_all(sink, text.as_bytes()) {
        Ok(()) => status,
        Err(Failed) => SINK,
    }
}

/// The status of what kept an input from being read.
fn fault_status(fault: ReadFault) -> u8
    ensures statuses { (result ≡ 4) ⊎ (result ≡ 6) }
    ensures failed { result ≡ 4 → fault ≡ ReadFault.Failed }
{
    match fault {
        ReadFault::Failed => SOURCE,
        ReadFault::NoMemory => MEMORY,
    }
}

/// Reads the scenario of a source. Where there is none: the text that says so with its status, or the status of what kept the
/// input from being read.
fn read_scenario<S: Source>(alloc: Global, source: &mut S) -> Result<Scenario, Result<Answer, u8>>
    ensures { ReadsScenario (S.state source.old) (S.state source.new) result }
{
    let bytes = match read_all(alloc, source, INPUT_BYTES) {
        Ok(bytes) => bytes,
        Err(fault) => return Err(Err(fault_status(fault))),
    };
    match read(alloc, bytes.as_slice()) {
        Ok(scenario) => Ok(scenario),
        Err(error) => Err(refused(alloc, &error)),
    }
}

/// Reads a scenario and replays it: the text with its status, or the status of what kept it from being told.
fn replay_input<S: Source, H: Shelf>(
    alloc: Global,
    source: &mut S,
    shelf: &mut H,
) -> Result<Answer, u8>
    ensures { PlaysInput
        (λ s. EndsKept (replayed.Leaves s) H.D.state H.state shelf.old shelf.new s)
        (H.state shelf.old) (H.state shelf.new) (shelf.new ≡ shelf.old)
        (S.state source.old) (S.state source.new) result }
{
    match read_scenario(alloc, source) {
        Ok(scenario) => told(alloc, &scenario, replay_kept(alloc, &scenario, shelf)),
        Err(answer) => answer,
    }
}

/// Reads a scenario and runs it, likewise.
fn run_input<S: Source, H: Shelf, G: Gate, R: Threads + Wait + Sync>(
    rt: &R,
    alloc: Global,
    workers: u32,
    source: &mut S,
    shelf: &mut H,
    gate: &G,
) -> Result<Answer, u8>
    requires workers { (1 ≤ workers) × (workers ≤ 16) }
    ensures { PlaysInput
        (λ s. EndsKept (ran.Leaves s) H.D.state H.state shelf.old shelf.new s)
        (H.state shelf.old) (H.state shelf.new) (shelf.new ≡ shelf.old)
        (S.state source.old) (S.state source.new) result }
{
    match read_scenario(alloc, source) {
        Ok(scenario) => {
            let end = run_kept(rt, alloc, &scenario, workers, shelf, gate);
            told(alloc, &scenario, end)
        }
        Err(answer) => answer,
    }
}

/// Runs a made scenario: the text of its numbers with its status, or the status of want of memory.
fn stress_made<H: Shelf, G: Gate, R: Threads + Wait + Sync>(
    rt: &R,
    alloc: Global,
    number: u64,
    size: u32,
    workers: u32,
    shelf: &mut H,
    gate: &G,
) -> Result<Answer, u8>
    requires size { (1 ≤ size) × (size ≤ 256) }
    requires workers { (1 ≤ workers) × (workers ≤ 16) }
    ensures { StressesMade H.D.state H.state shelf.old shelf.new
        (shelf.new ≡ shelf.old) number size result }
{
    let Ok(scenario) = made_scenario(alloc, number, size) else {
        return Err(MEMORY);
    };
    let end = run_over(rt, alloc, &scenario, workers, shelf, gate);
    stressed(alloc, &scenario, end)
}

/// Reads an input and lists its frames, likewise.
fn list_input<S: Source>(alloc: Global, source: &mut S) -> Result<Answer, u8>
    ensures { AnswersInput INPUT_BYTES IsFramesAnswer frames_statuses
        (S.state source.old) (S.state source.new) result }
{
    match list_frames(alloc, source) {
        Ok(answer) => Ok(answer),
        Err(fault) => Err(fault_status(fault)),
    }
}

/// Reads an input and judges it, likewise.
fn audit_input<S: Source>(alloc: Global, source: &mut S) -> Result<Answer, u8>
    ensures { AnswersInput HISTORY_BYTES IsJudged audit_statuses
        (S.state source.old) (S.state source.new) result }
{
    match read_all(alloc, source, HISTORY_BYTES) {
        Ok(bytes) => answer_judged(alloc, bytes.as_slice()),
        Err(fault) => Err(fault_status(fault)),
    }
}

/// Writes the text of an answer, if there is one, and gives its status once it was written.
fn write_answer<K: Sink>(sink: &mut K, answer: Result<Answer, u8>) -> u8
    ensures { WritesAnswer answer result (K.state sink.old) (K.state sink.new) }
{
    match answer {
        Ok(answer) => finish(sink, answer.text.as_str(), answer.status),
        Err(status) => status,
    }
}

/// Replays the scenario of a source once, with the coordinator and each resource on two disks of the shelf, which are all read
/// before a resource writes its boot, and writes the report of its history. Before that the text of the scenario without its
/// schedule and stops is kept on the disk `net` of the shelf. The status is 0 where that is done, 3 where the input is no
/// scenario or the records of `net` aren't the first ones of its text, 4 where the source failed, 5 where the sink did, 6 where
/// memory was refused, 7 where a disk couldn't be had or its opening or restart failed, 8 where the next record of a node or of
/// the text would pass the end of its disk, and 9 where a disk has bytes that are no journal: it is 9 then, or that of a fault
/// which came before, and a scenario is never done over such a disk, nor is it taken for another scenario's. At each status the
/// disks that were taken are given back: where the shelf tells of them, each name that has a place there had one before or has a
/// disk that was given back to it, and a name that had such a disk still has one. Where a shelf had no place for any node before,
/// its places say of how many nodes the disks were taken. What is said of the history and its report is said over whatever
/// records the disks held before. Where nothing fails, the shelf and its disks tell, and these held records of the nodes and
/// `net` the first ones of the text, the status of a scenario is 0, 6 or 8.
pub fn replay_once<S: Source, K: Sink, H: Shelf>(
    alloc: Global,
    source: &mut S,
    sink: &mut K,
    shelf: &mut H,
) -> u8
    ensures { ReplaysOnce H.D.state H.state shelf.old shelf.new
        (shelf.new ≡ shelf.old) result
        (devices (S.state source.old) (K.state sink.old))
        (devices (S.state source.new) (K.state sink.new)) }
{
    write_answer(sink, replay_input(alloc, source, shelf))
}

/// Runs the scenario of a source once, by its nodes alone on so many worker threads, and writes the report of its history. It
/// ignores the schedule and the local transactions of the scenario. Its statuses are those of `replay_once`, and so is what
/// they say of the input, of what was written and of the disks; at 6 the history may also have had more entries than a report
/// counts. It may wait, and where messages are lost for good it may never return.
pub fn run_once<S: Source, K: Sink, H: Shelf, G: Gate, R: Threads + Wait + Sync>(
    rt: &R,
    alloc: Global,
    workers: u32,
    source: &mut S,
    sink: &mut K,
    shelf: &mut H,
    gate: &G,
) -> u8
    requires workers { (1 ≤ workers) × (workers ≤ 16) }
    ensures { RunsOnce H.D.state H.state shelf.old shelf.new
        (shelf.new ≡ shelf.old) result
        (devices (S.state source.old) (K.state sink.old))
        (devices (S.state source.new) (K.state sink.new)) }
{
    write_answer(sink, run_input(rt, alloc, workers, source, shelf, gate))
}

/// Reads frames, one behind the other, and writes a line for each, up to the first bad one, whose line is the last. The
/// status is 0 where that is done, a bad frame or not, 3 where the input has more bytes than `INPUT_BYTES`, 4 where the
/// source failed, 5 where the sink did, and 6 where memory was refused.
pub fn frames_once<S: Source, K: Sink>(alloc: Global, source: &mut S, sink: &mut K) -> u8
    ensures { ListsOnce result
        (devices (S.state source.old) (K.state sink.old))
        (devices (S.state source.new) (K.state sink.new)) }
{
    write_answer(sink, list_input(alloc, source))
}

/// Writes the scenario that is made of a number for so many managers, and a line feed. The status is 0 where that is done, 5
/// where the sink failed, and 6 where memory was refused.
pub fn make_once<K: Sink>(alloc: Global, number: u64, size: u32, sink: &mut K) -> u8
    requires least { 1 ≤ size }
    requires most { size ≤ 256 }
    ensures { MakesOnce number size result (K.state sink.old) (K.state sink.new) }
{
    write_answer(sink, answer_made(alloc, number, size))
}

/// Runs the scenario that is made of a number for so many managers, on worker threads, and writes four lines of the numbers of
/// its history: how many transactions began and how many of these are finished or failed, the sum of all `acc.m`, the sum of
/// all `stock.held`, and how many rows are held. It keeps no text on the disk `net`. Its other statuses are those of `run_once`
/// but 4, since there is no input, and so is what they say of the disks of the nodes; 3 isn't said to be impossible on disks that
/// hold no records of the nodes, but it is on those that do. It may wait, and where messages are lost for good it may never
/// return.
pub fn stress_once<K: Sink, H: Shelf, G: Gate, R: Threads + Wait + Sync>(
    rt: &R,
    alloc: Global,
    number: u64,
    size: u32,
    workers: u32,
    sink: &mut K,
    shelf: &mut H,
    gate: &G,
) -> u8
    requires size { (1 ≤ size) × (size ≤ 256) }
    requires workers { (1 ≤ workers) × (workers ≤ 16) }
    ensures { StressesOnce H.D.state H.state shelf.old shelf.new
        (shelf.new ≡ shelf.old) number size result (K.state sink.old) (K.state sink.new) }
{
    write_answer(
        sink,
        stress_made(rt, alloc, number, size, workers, shelf, gate),
    )
}

/// Writes what the disks of a shelf hold of the scenario whose text the disk `net` keeps: the transactions that are known, the
/// rows that are held, the rows of all tables, and the branches that have a fence, as in a report. No byte of a disk is changed,
/// one that is taken anew stays blank, and no other is taken than `net` and those of the nodes of its scenario. The status is 0 where that is done, 3 where `net` keeps no whole text or one that is no scenario, 5 where the sink failed, 6
/// where memory was refused, 7 where a disk couldn't be had or read, and 9 where a disk has bytes that are no journal. At each
/// status the disks that were taken are given back.
pub fn show_once<K: Sink, H: Shelf>(alloc: Global, sink: &mut K, shelf: &mut H) -> u8
    ensures { ShowsOnce H.D.state H.state shelf.old shelf.new result
        (K.state sink.old) (K.state sink.new) }
{
    write_answer(sink, answer_shown(alloc, shelf))
}

/// Judges a printed report: reads a scenario in one line and behind it a report, and writes `legal`, or what is wrong. The status
/// is 0 where the report is that of a legal history of the scenario, 3 where the first line is no scenario, a line is unreadable
/// or the input has more bytes than `HISTORY_BYTES`, 4 where the source failed, 5 where the sink did, 6 where memory was refused,
/// and 10 where an entry breaks a rule or the sections aren't those of the entries. A report is judged as one over disks without
/// records.
pub fn audit_once<S: Source, K: Sink>(alloc: Global, source: &mut S, sink: &mut K) -> u8
    ensures { AuditsOnce result
        (devices (S.state source.old) (K.state sink.old))
        (devices (S.state source.new) (K.state sink.new)) }
{
    write_answer(sink, audit_input(alloc, source))
}

/// The usage line.
const USAGE: &str = "usage: seata_lab replay | run | make | stress | frames | audit | show\n";

/// Does what the words ask for: `replay` replays the scenario of the source and writes the report, `run` runs it on as many
/// worker threads as its option says and writes the report, `frames` writes a line for each frame of the source, `make` writes
/// the scenario that is made of its number, for as many managers as its size, `stress` runs it and writes the numbers of its
/// history, `show` writes what the disks of the shelf hold, and `audit` judges the report of the source. Whose disks the shelf
/// gives is the caller's, by the folder of `--store`. Words outside the grammar are answered with the usage line and status 2.
/// What `replay_once` says of the disks that were taken holds whatever the words and the status. Only `run` and `stress` may
/// wait.
pub fn top<S: Source, K: Sink, H: Shelf, G: Gate, R: Threads + Wait + Sync>(
    rt: &R,
    alloc: Global,
    words: &[Text],
    source: &mut S,
    sink: &mut K,
    shelf: &mut H,
    gate: &G,
) -> u8
    ensures words { result ≡ 2 → task_of words.now ≡ Task.Usage }
    ensures unread { reads_source (task_of words.now) ≡ false → source.new ≡ source.old }
    ensures usage { task_of words.now ≡ Task.Usage → TellsUsage result
        (devices (S.state source.old) (K.state sink.old))
        (devices (S.state source.new) (K.state sink.new)) }
    ensures replay { task_of words.now ≡ Task.Replay → ReplaysOnce H.D.state
        H.state shelf.old shelf.new (shelf.new ≡ shelf.old) result
        (devices (S.state source.old) (K.state sink.old))
        (devices (S.state source.new) (K.state sink.new)) }
    ensures run { (workers : ℕ) → task_of words.now ≡ Task.Run workers → RunsOnce H.D.state
        H.state shelf.old shelf.new (shelf.new ≡ shelf.old) result
        (devices (S.state source.old) (K.state sink.old))
        (devices (S.state source.new) (K.state sink.new)) }
    ensures returned { ReturnsAll (H.state shelf.old) (H.state shelf.new) }
    ensures untouched { uses_shelf (task_of words.now) ≡ false → shelf.new ≡ shelf.old }
    ensures frames { task_of words.now ≡ Task.Frames → ListsOnce result
        (devices (S.state source.old) (K.state sink.old))
        (devices (S.state source.new) (K.state sink.new)) }
    ensures make { (number size : ℕ) → task_of words.now ≡ Task.Make number size
        → MakesOnce number size result (K.state sink.old) (K.state sink.new) }
    ensures stress { (number size workers : ℕ) → task_of words.now ≡ Task.Stress number size workers
        → StressesOnce H.D.state H.state shelf.old shelf.new (shelf.new ≡ shelf.old)
        number size result (K.state sink.old) (K.state sink.new) }
    ensures show { task_of words.now ≡ Task.Show → ShowsOnce H.D.state H.state shelf.old shelf.new
        result (K.state sink.old) (K.state sink.new) }
    ensures audit { task_of words.now ≡ Task.Audit → AuditsOnce result
        (devices (S.state source.old) (K.state sink.old))
        (devices (S.state source.new) (K.state sink.new)) }
    ensures faults { TellsFaults (2 ∷ 10 ∷ with_failures replay_statuses) result
        (devices (S.state source.old) (K.state sink.old))
        (devices (S.state source.new) (K.state sink.new)) }
{
    match task_of(words) {
        Task::Replay => replay_once(alloc, source, sink, shelf),
        Task::Run { workers } => run_once(rt, alloc, workers, source, sink, shelf, gate),
        Task::Frames => frames_once(alloc, source, sink),
        Task::Make { number, size } => make_once(alloc, number, size, sink),
        Task::Stress {
            number,
            size,
            workers,
        } => { stress_once(rt, alloc, number, size, workers, sink, shelf, gate) }
        Task::Show => show_once(alloc, sink, shelf),
        Task::Audit => audit_once(alloc, source, sink),
        Task::Usage => finish(sink, USAGE, WORDS),
    }
}
