//! What holds of every legal history.
ghost use Rattle.history_law.specs.SessionSafety.{SessionsLaw, QuestionsLaw, SessionsOfChains};
ghost use Rattle.history_law.specs.TicketSafety.{TicketsLaw, TicketsOfChains};
ghost use Rattle.history_law.specs.EndingSafety.{EndingsLaw, EndingsOfChains};
ghost use Rattle.history_law.specs.WorkSafety.{CommitsLaw, CommitsOfChains};
ghost use Rattle.history_law.specs.OrderSafety.{RowsLaw, RowsOfChains, FreeLaw, FreeOfChains};
ghost use Rattle.history_law.specs.FinishSafety.{FinishesLaw};
ghost use Rattle.history_law.specs.EntrySafety.{EntriesTellMoments};
ghost use Rattle.history_law.specs.AskSafety.{AskingLaw};
ghost use Rattle.history_law.specs.GrantSafety.{GrantsLaw};
ghost use Rattle.history_law.specs.OpenSafety.{OpenTicketsLaw};
ghost use Rattle.history_law.specs.LeastSafety.{BusyLaw, RollbackRowsLaw, RollbackRowsOfChains};
ghost use Rattle.history_law.specs.PlaySafety.{PlayedLaw, WorkedLaw, TransferPlaysSafely};
ghost use Rattle.history_law.specs.BranchSafety.{BranchesLaw, BranchesOfChains};
ghost use Rattle.history_law.specs.MessageSafety.{MessagesLaw, MessagesOverAnyRecords, RecordsNameResources};
ghost use Rattle.history_law.specs.OnceSafety.{OnceLaw, OnceOfChains};
ghost use Rattle.history_law.specs.Safety.{SafetyLaw, SafetyOfChains};
ghost use Rattle.history_law.specs.ChainSafety.{SafetyAfterChains};
ghost use Rattle.history_law.specs.ValueSafety.{ValuesLaw, ValuesOfChains, DirtyLaw, DirtyOfChains};
ghost use Rattle.history_law.specs.CallSafety.{CallsLaw, CallsOfChains, UnfencedLaw, UnfencedOfChains};

/// At each point of a legal history, over records each of which may come after those before it, the coordinator's records
/// are in order: each transaction is decided at most once,
/// its branches are granted before that and ended after it, it is finished once all of them are; its status changes along
/// the table; no row has two holders; and a row's holder changes by a grant, an end and a commit alone.
pub fn sessions_and_holders_are_safe()
    ensures { SessionsLaw }
{}

/// The coordinator asks an unended branch to commit only where its transaction is decided commit, and to roll back only
/// where it is decided rollback or timeout.
pub fn branches_are_asked_as_decided()
    ensures { QuestionsLaw }
{}

/// The same holds of every history of a chain, one after the other on the same disks.
pub fn sessions_of_chains_are_safe()
    ensures { SessionsOfChains }
{}

/// At each point of a legal history, over records that are covered, as those of disks without records are, and where each
/// resource stands at its number, each local commit that isn't undone is covered: its transaction is decided commit, or
/// holds each row that it touched. Its branch was granted before; open tickets have different rows; a marked branch has no
/// undo record; and a branch that is ended without a commit has none.
pub fn local_commits_are_covered()
    ensures { TicketsLaw }
{}

/// The same holds of every history of a chain.
pub fn local_commits_of_chains_are_covered()
    ensures { TicketsOfChains }
{}

/// At each point of a legal history over disks without records, for each branch of a transaction that is finished: after a
/// commit an AT branch was never undone, and a TCC branch was confirmed once and never cancelled or suspended; after a
/// rollback or timeout an AT branch committed at most once and was undone as often, and a TCC branch was cancelled or
/// suspended once, never tried where it is suspended, and never confirmed. And of every branch: it is confirmed only after
/// a commit, and cancelled or suspended only after a rollback or timeout.
pub fn endings_are_safe()
    ensures { EndingsLaw }
{}

/// The same holds of every history of a chain.
pub fn endings_of_chains_are_safe()
    ensures { EndingsOfChains }
{}

/// At each point of a legal history over disks without records a transaction is decided commit only where there is a
/// manager each of whose calls has worked for it: the record of its local commit or of its Try stands.
pub fn commits_follow_their_work()
    ensures { CommitsLaw }
{}

/// The same holds of every history of a chain.
pub fn commits_of_chains_follow_their_work()
    ensures { CommitsOfChains }
{}

/// At each point of a legal history over disks without records each branch is of a call of the manager that began its
/// transaction, at this call's resource and of its kind; a call has one TCC branch at most; and a transaction is decided commit
/// only where each call of its own manager has worked for it: the record of its local commit or of its Try stands.
pub fn branches_are_of_calls()
    ensures { CallsLaw }
{}

/// The same holds of every history of a chain.
pub fn branches_of_chains_are_of_calls()
    ensures { CallsOfChains }
{}

/// In a legal history over disks without records no fence refuses a confirm or a cancel.
pub fn no_fence_refuses()
    ensures { UnfencedLaw }
{}

/// The same holds of every history of a chain.
pub fn no_fence_of_chains_refuses()
    ensures { UnfencedOfChains }
{}

/// At each point of a legal history over disks without records, on each row: under a change by a branch that isn't undone lie,
/// of those by branches, only changes of transactions that are decided commit and of earlier branches of its own transaction;
/// under a change by a local transaction only the former. So the changes that aren't decided commit stand last, are of one
/// transaction and rise by branch. The same lies under a local commit on the rows that it only read, and on all rows of a
/// branch's ticket from its grant on while the ticket is open.
pub fn changes_of_rows_are_in_order()
    ensures { RowsLaw }
{}

/// The same holds of every history of a chain.
pub fn changes_of_rows_of_chains_are_in_order()
    ensures { RowsOfChains }
{}

/// At each point of a legal history over disks without records at which a branch is granted and hasn't committed locally yet, so at
/// its grant: on each row that its local commit touches or reads later lie, of changes by branches, only those of transactions
/// that are decided commit and of earlier branches of its own transaction.
pub fn rows_are_free_from_the_grant_on()
    ensures { FreeLaw }
{}

/// The same holds of every history of a chain.
pub fn rows_of_chains_are_free_from_the_grant_on()
    ensures { FreeOfChains }
{}

/// Each finish that an entry of the coordinator names, one that is done, one in flight as it goes down or one that its restart
/// keeps, tells the status of its decision: committed after a commit, rolled back after a rollback, rolled back by the timeout
/// after that.
pub fn finishes_tell_the_decision()
    ensures { FinishesLaw }
{}

/// Each message of a legal history over disks without records goes from a node to a node; a Begin names a manager, and a Register a
/// resource and rows of resources.
pub fn messages_reach_nodes()
    ensures { MessagesLaw }
{}

/// The same holds over all records whose branches are of resources.
pub fn messages_over_any_records_reach_nodes()
    ensures { MessagesOverAnyRecords }
{}

/// The branches of records that a coordinator of so many managers and resources can have made are of its resources.
pub fn records_name_resources()
    ensures { RecordsNameResources }
{}

/// Two legal histories over the same disks are the same where their entries show the same: stamp, place, clock, cause and act.
/// The event, and the message that was sent with all that it holds, then follow.
pub fn entries_tell_moments()
    ensures { EntriesTellMoments }
{}

/// At each point of a legal history over disks without records, where AT calls name AT tables and TCC actions TCC tables, for each
/// row of an AT table: since the last outside write on it each change found the value under it, and the row is what the last one
/// left. A row that no outside write touched is the opening row with the changes that aren't undone. The images of an open
/// ticket found the row as it is now. And a local commit is the effect of its call's statements, as the manager that began the
/// transaction has them, on the tables that stood when its branch's ticket was opened, whose rows were kept in this way; the rows
/// that it touched or read are the same at the commit.
pub fn rows_have_their_values()
    ensures { ValuesLaw }
{}

/// The same holds of every history of a chain; but of a local commit that the disks had before, whose ticket was opened in an
/// earlier history, it says only that the tables were those of some earlier records.
pub fn rows_of_chains_have_their_values()
    ensures { ValuesOfChains }
{}

/// In such a history a rollback finds a row dirty only where an outside write touched it after the branch's local commit.
pub fn only_outside_writes_make_rows_dirty()
    ensures { DirtyLaw }
{}

/// The same holds of every history of a chain.
pub fn only_outside_writes_make_rows_of_chains_dirty()
    ensures { DirtyOfChains }
{}

/// At each point of a legal history over disks without records the work of a call stands at most once at each resource: the
/// record of its local commit, or of its Try. Where a transaction is decided commit each call of the manager that began it
/// has worked exactly once, at its resource, and nowhere else.
pub fn calls_work_once()
    ensures { OnceLaw }
{}

/// The same holds of every history of a chain.
pub fn calls_of_chains_work_once()
    ensures { OnceOfChains }
{}

/// In each legal history, over any records, a GlobalCommit is sent by a manager alone, and only after entries told it of each of its
/// calls that it is done.
pub fn commits_are_asked_for_when_all_is_done()
    ensures { AskingLaw }
{}

/// At each point of a legal history, over any records, each branch that is granted, the one in flight among them, was so before
/// the history, or an entry had opened its ticket at its resource, for its call.
pub fn grants_follow_the_opening()
    ensures { GrantsLaw }
{}

/// At each point of a legal history over disks without records each record of a local commit, an undo, a marker or a clearing, and
/// each of a Try, a Confirm, a Cancel or a suspension, the one in flight among them, is of a branch that was granted to this
/// resource: in the first four an AT branch, in the others a TCC branch. So all records of a branch stand at its own resource, and
/// are of its mode.
pub fn records_are_of_granted_branches()
    ensures { BranchesLaw }
{}

/// The same holds of every history of a chain.
pub fn records_of_chains_are_of_granted_branches()
    ensures { BranchesOfChains }
{}

/// In each legal history, over any records, the open tickets of a resource are those that one of its entries opened, where none after
/// that took it down or ended the ticket. Of two of them the one that stands last in the list, which a turn sends again, is the one that
/// was sent longest ago: each other one was sent since.
pub fn open_tickets_are_opened_and_not_ended()
    ensures { OpenTicketsLaw }
{}

/// A call or local transaction that is busy names the least row of its effect that an open ticket has.
pub fn busy_names_the_least_row()
    ensures { BusyLaw }
{}

/// At each point of a legal history over disks without records: a rollback that is blocked names the least row of its undo record that an
/// open ticket has, one that is dirty the least row of it that isn't as the branch left it.
pub fn rollbacks_name_the_least_row()
    ensures { RollbackRowsLaw }
{}

/// The same holds of every history of a chain.
pub fn rollbacks_of_chains_name_the_least_row()
    ensures { RollbackRowsOfChains }
{}

/// What is played of a schedule that names nodes is a run of it, legal and whole, over all records whose branches are of resources. So
/// each such schedule has a run: the rules leave no step of it without an act.
pub fn what_is_played_is_a_run()
    ensures { PlayedLaw }
{}

/// Each schedule that names nodes, of each scenario of the worked histories, plays safely: what is played of it is a run, and safe.
pub fn worked_histories_play_safely()
    ensures { WorkedLaw }
{}

/// So does the transfer by automatic steps, whose history is computed whole beside the rules.
pub fn the_transfer_plays_safely()
    ensures { TransferPlaysSafely }
{}

/// Each legal history over disks without records is safe, where AT calls name AT tables and TCC actions TCC tables. At each
/// point: no row has two holders; each change that isn't undone is covered; each row of an AT table that no outside write touched
/// is kept; of a transaction that is decided commit each call has worked once; each record of a branch is of one that was granted to
/// its resource, in its mode; of one that is finished after a commit no branch was
/// undone, and each TCC branch was confirmed once; of one that is finished after a rollback or timeout each branch that committed
/// was undone, and each TCC branch was cancelled or suspended once; all records of these branches stand at their own resources; and local commits did and read what their calls do on rows that
/// were kept at the opening of their tickets. No fence refuses a second phase, a rollback finds a row dirty only after an outside
/// write, each finish tells the status of its decision, and from the grant of a branch to its local commit no other undecided
/// transaction has changed its rows.
pub fn legal_histories_are_safe()
    ensures { SafetyLaw }
{}

/// The same holds of every history of a chain; of local commits that the disks had before, the opening of their tickets is spoken
/// of in the history in which they were asked for.
pub fn chains_are_safe()
    ensures { SafetyOfChains }
{}

/// Each legal history over any records, where AT calls name AT tables and TCC actions TCC tables, is safe after each chain that may
/// have left these records, and so is each history of that chain. Disks without records are what the empty chain leaves.
pub fn histories_are_safe_after_chains()
    ensures { SafetyAfterChains }
{}
