//! Whole histories, computed by the rules of all nodes: each contract is one.
ghost use Rattle.std.specs.Prelude.{◌≡◌, List, [], ◌∷◌, ◌++◌, Some, None, false, true};
ghost use Rattle.seata_types.specs.declared.acts.Act.TheVariants as act;
ghost use Rattle.seata_types.specs.declared.acts.Durable.TheVariants as durable;
ghost use Rattle.seata_types.specs.declared.errors.Why.TheVariants as why;
ghost use Rattle.seata_types.specs.declared.statements.Work.TheVariants as work;
ghost use Rattle.seata_types.specs.declared.statuses.Decision.TheVariants as how;
ghost use Rattle.seata_types.specs.declared.statuses.Ending.TheVariants as ending;
ghost use Rattle.seata_types.specs.declared.statuses.GlobalStatus.TheVariants as status;
ghost use Rattle.durable_records.specs.Fences.{IsCommitted, IsSuspended};
ghost use Rattle.history_rules.specs.CoordinatorRules.{xid_of, branch_of};
ghost use Rattle.history_rules.specs.Schedules.{TurnOf, WaitFor, StopOf, CrashOf, RestartOf, LocalOf, OutsideOf, Auto};
ghost use Rattle.history_rules.specs.Played.{played, told};
ghost use Rattle.history_rules.specs.Nodes.{no_past};
ghost use Rattle.history_rules.specs.Chains.{past_after};
ghost use Rattle.history_rules.specs.Reports.{report};
ghost use Rattle.history_rules.specs.Worked.{tc, man, res, ticket, delivers, session_line, failed_line, no_calls, forgetting, transfer, one_row, setter, taking, two_rows, sets_m, row, acc_key, acc_row, stock_row, read_of, begun, granted, committed, tried, decides, asked, ended, cleared, undone, finished, reader, twice};

/// A transfer between two resources, by automatic steps alone: both branches commit, and their undo records are cleared.
pub fn a_transfer_commits()
    ensures { told transfer (Auto 29 ∷ []) ≡ record {
      acts = act.Nothing ∷ act.Nothing ∷ act.Nothing ∷ act.Starts ∷ begun 1 ∷ act.GoesOn
          ∷ act.Opened (xid_of 1) 1 (ticket 1 1) ∷ granted 1 1 ∷ committed 1 1 (ticket 1 1) ∷ act.GoesOn
          ∷ act.Opened (xid_of 1) 2 (ticket 1 1) ∷ granted 1 2 ∷ committed 1 2 (ticket 1 1) ∷ act.GoesOn
          ∷ decides 1 how.Commit ∷ act.Closes status.AsyncCommitting
          ∷ asked 1 1 ∷ cleared 1 1 ∷ ended 1 1 ∷ act.Nothing ∷ act.Nothing ∷ act.Nothing
          ∷ asked 1 2 ∷ cleared 1 2 ∷ ended 1 2 ∷ act.Nothing ∷ act.Nothing ∷ act.Nothing
          ∷ finished 1 status.Committed ∷ [];
      sessions = session_line 1 1 status.Committed ∷ [];
      locks = [];
      tables = acc_row 1 1 900 ∷ acc_row 2 1 100 ∷ [];
      fences = [];
      reads = [];
    } }
{}

/// A rollback is blocked while a waiting call has its row open, and that call gives up as it learns of the rollback.
pub fn a_waiting_call_gives_way_to_a_rollback()
    ensures { told (one_row [] (setter 1 ending.Rollback 900 ∷ setter 2 ending.Commit 800 ∷ []))
        (TurnOf (man 1) ∷ delivers (1 ∷ 2 ∷ 3 ∷ 4 ∷ 5 ∷ []) ++ TurnOf (man 2) ∷ delivers (7 ∷ 8 ∷ 9 ∷ 10 ∷ 11 ∷ 6 ∷ 13 ∷ [])
        ++ TurnOf tc ∷ delivers (15 ∷ 16 ∷ []) ++ TurnOf (res 1) ∷ delivers (18 ∷ 19 ∷ []) ++ WaitFor 1000 ∷ TurnOf tc
        ∷ delivers (22 ∷ 23 ∷ []) ++ TurnOf tc ∷ delivers (20 ∷ 26 ∷ []) ++ TurnOf tc ∷ [])
        ≡ record {
          acts = act.Starts ∷ begun 1 ∷ act.GoesOn ∷ act.Opened (xid_of 1) 1 (ticket 1 1) ∷ granted 1 1 ∷ committed 1 1 (ticket 1 1)
              ∷ act.Starts ∷ begun 2 ∷ act.GoesOn ∷ act.Opened (xid_of 2) 1 (ticket 1 2)
              ∷ act.Conflict (xid_of 2) (acc_key 1 1) (xid_of 1) false ∷ act.Conflicted (ticket 1 2) 1
              ∷ act.GoesOn ∷ decides 1 how.Rollback ∷ asked 1 1 ∷ act.Blocked (xid_of 1) (branch_of 1) (acc_key 1 1) (ticket 1 2)
              ∷ act.Durable (durable.Retrying (xid_of 1) (branch_of 1)) ∷ act.Resent (ticket 1 2)
              ∷ act.Conflict (xid_of 2) (acc_key 1 1) (xid_of 1) true
              ∷ act.Dropped (xid_of 2) 1 (ticket 1 2) (why.Rolling (xid_of 1)) ∷ act.Nothing
              ∷ asked 1 1 ∷ undone 1 1 ∷ ended 1 1 ∷ finished 1 status.Rollbacked
              ∷ act.GivesUp ∷ decides 2 how.Rollback ∷ finished 2 status.Rollbacked ∷ [];
          sessions = session_line 1 1 status.Rollbacked ∷ session_line 2 2 status.Rollbacked ∷ [];
          locks = [];
          tables = acc_row 1 1 1000 ∷ [];
          fences = [];
          reads = [];
        } }
{}

/// A crash takes a resource's open tickets: the grant of a lost one is ignored, and its call opens again on the rows as they
/// are then.
pub fn a_crash_closes_open_tickets()
    ensures { told two_rows
        (TurnOf (man 1) ∷ delivers (1 ∷ 2 ∷ 3 ∷ 4 ∷ []) ++ CrashOf (res 1) ∷ RestartOf (res 1) 0 None ∷ TurnOf (man 2)
        ∷ delivers (8 ∷ 9 ∷ 10 ∷ 11 ∷ 12 ∷ 13 ∷ 14 ∷ []) ++ TurnOf (man 1) ∷ delivers (16 ∷ 5 ∷ 17 ∷ 19 ∷ 20 ∷ 21 ∷ []) ++ TurnOf tc
        ∷ delivers (23 ∷ 24 ∷ []) ++ TurnOf tc ∷ delivers (26 ∷ 27 ∷ []) ++ TurnOf tc ∷ TurnOf tc ∷ delivers (30 ∷ 31 ∷ []) ++ TurnOf tc ∷ [])
        ≡ record {
          acts = act.Starts ∷ begun 1 ∷ act.GoesOn ∷ act.Opened (xid_of 1) 1 (ticket 1 1) ∷ granted 1 1
              ∷ act.Down None None ∷ act.Restarted None
              ∷ act.Starts ∷ begun 2 ∷ act.GoesOn ∷ act.Opened (xid_of 2) 1 (ticket 2 1) ∷ granted 2 2 ∷ committed 2 2 (ticket 2 1)
              ∷ act.GoesOn ∷ decides 2 how.Commit
              ∷ act.Repeats ∷ act.Opened (xid_of 1) 1 (ticket 2 2) ∷ act.Ignored ∷ granted 1 3 ∷ committed 1 3 (ticket 2 2)
              ∷ act.GoesOn ∷ decides 1 how.Commit
              ∷ asked 1 1 ∷ act.Empty (xid_of 1) (branch_of 1) ∷ ended 1 1 ∷ asked 1 3 ∷ cleared 1 3 ∷ ended 1 3
              ∷ finished 1 status.Committed ∷ asked 2 2 ∷ cleared 2 2 ∷ ended 2 2 ∷ finished 2 status.Committed ∷ [];
          sessions = session_line 1 1 status.Committed ∷ session_line 2 2 status.Committed ∷ [];
          locks = [];
          tables = acc_row 1 1 101 ∷ acc_row 1 2 101 ∷ [];
          fences = [];
          reads = [];
        } }
{}

/// Two branches on one row are undone from the last to the first.
pub fn branches_are_undone_from_the_last()
    ensures { told (one_row [] (twice 900 800 ∷ []))
        (TurnOf (man 1) ∷ delivers (1 ∷ 2 ∷ 3 ∷ 4 ∷ 5 ∷ 6 ∷ 7 ∷ 8 ∷ 9 ∷ 10 ∷ 11 ∷ []) ++ TurnOf tc ∷ delivers (13 ∷ 14 ∷ [])
        ++ TurnOf tc ∷ delivers (16 ∷ 17 ∷ []) ++ TurnOf tc ∷ [])
        ≡ record {
          acts = act.Starts ∷ begun 1 ∷ act.GoesOn ∷ act.Opened (xid_of 1) 1 (ticket 1 1) ∷ granted 1 1 ∷ committed 1 1 (ticket 1 1)
              ∷ act.GoesOn ∷ act.Opened (xid_of 1) 2 (ticket 1 2) ∷ granted 1 2 ∷ committed 1 2 (ticket 1 2)
              ∷ act.GoesOn ∷ decides 1 how.Rollback ∷ asked 1 2 ∷ undone 1 2 ∷ ended 1 2 ∷ asked 1 1 ∷ undone 1 1 ∷ ended 1 1
              ∷ finished 1 status.Rollbacked ∷ [];
          sessions = session_line 1 1 status.Rollbacked ∷ [];
          locks = [];
          tables = acc_row 1 1 1000 ∷ [];
          fences = [];
          reads = [];
        } }
{}

/// A decision whose record was cut at its third device call is kept by a restart that keeps what was open.
pub fn a_cut_decision_is_kept()
    ensures { told no_calls (TurnOf (man 1) ∷ delivers (1 ∷ 2 ∷ []) ++ StopOf tc 2 ∷ delivers (3 ∷ []) ++ RestartOf tc 1 None ∷ [])
        ≡ record {
          acts = act.Starts ∷ begun 1 ∷ act.GoesOn ∷ act.Armed
              ∷ act.Down None (Some (durable.Decided (xid_of 1) how.Commit))
              ∷ act.Restarted (Some (durable.Decided (xid_of 1) how.Commit)) ∷ [];
          sessions = session_line 1 1 status.AsyncCommitting ∷ [];
          locks = [];
          tables = [];
          fences = [];
          reads = [];
        } }
{}

/// A restart that drops what was open loses the decision, and the transaction is undecided.
pub fn a_cut_decision_is_lost()
    ensures { told no_calls (TurnOf (man 1) ∷ delivers (1 ∷ 2 ∷ []) ++ StopOf tc 2 ∷ delivers (3 ∷ []) ++ RestartOf tc 0 None ∷ [])
        ≡ record {
          acts = act.Starts ∷ begun 1 ∷ act.GoesOn ∷ act.Armed
              ∷ act.Down None (Some (durable.Decided (xid_of 1) how.Commit)) ∷ act.Restarted None ∷ [];
          sessions = session_line 1 1 status.Begin ∷ [];
          locks = [];
          tables = [];
          fences = [];
          reads = [];
        } }
{}

/// A Confirm that is delivered again was done already, and an answer for an ended branch is ignored.
pub fn a_confirm_runs_once()
    ensures { told (taking 60000)
        (TurnOf (man 1) ∷ delivers (1 ∷ 2 ∷ 3 ∷ 4 ∷ 5 ∷ 6 ∷ 7 ∷ []) ++ TurnOf tc ∷ delivers (9 ∷ 9 ∷ 9 ∷ 10 ∷ 11 ∷ []) ++ TurnOf tc ∷ [])
        ≡ record {
          acts = act.Starts ∷ begun 1 ∷ act.GoesOn ∷ act.Opened (xid_of 1) 1 (ticket 1 1) ∷ granted 1 1 ∷ tried 1 1 (ticket 1 1)
              ∷ act.GoesOn ∷ decides 1 how.Commit ∷ asked 1 1
              ∷ act.Durable (durable.Confirmed (xid_of 1) (branch_of 1)) ∷ act.Already (xid_of 1) (branch_of 1) ∷ act.Already (xid_of 1) (branch_of 1)
              ∷ ended 1 1 ∷ act.Ignored ∷ finished 1 status.Committed ∷ [];
          sessions = session_line 1 1 status.Committed ∷ [];
          locks = [];
          tables = stock_row 1 7 0 ∷ [];
          fences = (1, ((1, 1), IsCommitted)) ∷ [];
          reads = [];
        } }
{}

/// A Cancel that comes before its Try suspends the branch, and the fence then refuses the Try.
pub fn a_suspended_branch_refuses_its_try()
    ensures { told (taking 5)
        (TurnOf (man 1) ∷ delivers (1 ∷ 2 ∷ 3 ∷ 4 ∷ []) ++ WaitFor 6 ∷ TurnOf tc ∷ TurnOf tc ∷ delivers (8 ∷ 9 ∷ []) ++ TurnOf tc ∷ delivers (5 ∷ []))
        ≡ record {
          acts = act.Starts ∷ begun 1 ∷ act.GoesOn ∷ act.Opened (xid_of 1) 1 (ticket 1 1) ∷ granted 1 1 ∷ act.Nothing
              ∷ decides 1 how.Timeout ∷ asked 1 1 ∷ act.Durable (durable.Suspended (xid_of 1) (branch_of 1)) ∷ ended 1 1
              ∷ finished 1 status.TimeoutRollbacked ∷ act.Dropped (xid_of 1) 1 (ticket 1 1) why.Fence ∷ [];
          sessions = session_line 1 1 status.TimeoutRollbacked ∷ [];
          locks = [];
          tables = stock_row 1 10 0 ∷ [];
          fences = (1, ((1, 1), IsSuspended)) ∷ [];
          reads = [];
        } }
{}

/// A call that only reads a row for update waits until no other transaction holds it, and reads what was committed.
pub fn a_read_for_update_waits()
    ensures { told (one_row [] (setter 1 ending.Commit 900 ∷ reader 2 ∷ []))
        (TurnOf (man 1) ∷ delivers (1 ∷ 2 ∷ 3 ∷ 4 ∷ 5 ∷ []) ++ TurnOf (man 2) ∷ delivers (7 ∷ 8 ∷ 9 ∷ 10 ∷ 11 ∷ 6 ∷ 13 ∷ [])
        ++ TurnOf (res 1) ∷ delivers (15 ∷ 16 ∷ 17 ∷ 18 ∷ []) ++ TurnOf tc ∷ delivers (20 ∷ 21 ∷ []) ++ TurnOf tc ∷ TurnOf tc
        ∷ delivers (24 ∷ 25 ∷ []) ++ TurnOf tc ∷ [])
        ≡ record {
          acts = act.Starts ∷ begun 1 ∷ act.GoesOn ∷ act.Opened (xid_of 1) 1 (ticket 1 1) ∷ granted 1 1 ∷ committed 1 1 (ticket 1 1)
              ∷ act.Starts ∷ begun 2 ∷ act.GoesOn ∷ act.Opened (xid_of 2) 1 (ticket 1 2)
              ∷ act.Conflict (xid_of 2) (acc_key 1 1) (xid_of 1) false ∷ act.Conflicted (ticket 1 2) 1
              ∷ act.GoesOn ∷ decides 1 how.Commit ∷ act.Resent (ticket 1 2) ∷ granted 2 2 ∷ committed 2 2 (ticket 1 2)
              ∷ act.GoesOn ∷ decides 2 how.Commit ∷ asked 1 1 ∷ cleared 1 1 ∷ ended 1 1 ∷ finished 1 status.Committed
              ∷ asked 2 2 ∷ cleared 2 2 ∷ ended 2 2 ∷ finished 2 status.Committed ∷ [];
          sessions = session_line 1 1 status.Committed ∷ session_line 2 2 status.Committed ∷ [];
          locks = [];
          tables = acc_row 1 1 900 ∷ [];
          fences = [];
          reads = read_of 2 2 1 900 ∷ [];
        } }
{}

/// A finished transaction is forgotten after its time: its status is then Finished, and its manager is still known.
pub fn a_finished_transaction_is_forgotten()
    ensures { told forgetting
        (TurnOf (man 1) ∷ delivers (1 ∷ 2 ∷ 3 ∷ 4 ∷ []) ++ TurnOf tc ∷ TurnOf (man 1) ∷ delivers (7 ∷ 8 ∷ []) ++ WaitFor 5
        ∷ TurnOf tc ∷ delivers (7 ∷ 12 ∷ 1 ∷ []))
        ≡ record {
          acts = act.Starts ∷ begun 1 ∷ act.GoesOn ∷ decides 1 how.Commit ∷ act.Closes status.AsyncCommitting
              ∷ finished 1 status.Committed ∷ act.Polls ∷ act.Told (xid_of 1) status.Committed ∷ act.Learns status.Committed ∷ act.Nothing
              ∷ act.Durable (durable.Forgot (xid_of 1)) ∷ act.Told (xid_of 1) status.Finished ∷ act.Learns status.Finished
              ∷ act.Known (xid_of 1) ∷ [];
          sessions = [];
          locks = [];
          tables = [];
          fences = [];
          reads = [];
        } }
{}

/// A guarded local transaction is dropped where a transaction holds its row.
pub fn a_guarded_local_is_dropped()
    ensures { told (one_row ((1, sets_m 5) ∷ []) (setter 1 ending.Rollback 900 ∷ []))
        (TurnOf (man 1) ∷ delivers (1 ∷ 2 ∷ 3 ∷ 4 ∷ 5 ∷ []) ++ LocalOf 1 ∷ delivers (7 ∷ 8 ∷ []))
        ≡ record {
          acts = act.Starts ∷ begun 1 ∷ act.GoesOn ∷ act.Opened (xid_of 1) 1 (ticket 1 1) ∷ granted 1 1 ∷ committed 1 1 (ticket 1 1)
              ∷ act.OpenedLocal 1 (ticket 1 2) ∷ act.Held (acc_key 1 1) (xid_of 1)
              ∷ act.DroppedLocal 1 (ticket 1 2) (acc_key 1 1) (xid_of 1) ∷ [];
          sessions = session_line 1 1 status.Begin ∷ [];
          locks = (acc_key 1 1, 1) ∷ [];
          tables = acc_row 1 1 900 ∷ [];
          fences = [];
          reads = [];
        } }
{}

/// An outside write on a branch's row makes its rollback dirty: the transaction fails, and its row stays held.
pub fn an_outside_write_makes_a_rollback_dirty()
    ensures { told (one_row ((1, sets_m 5) ∷ []) (setter 1 ending.Rollback 900 ∷ []))
        (TurnOf (man 1) ∷ delivers (1 ∷ 2 ∷ 3 ∷ 4 ∷ 5 ∷ []) ++ OutsideOf 1 ∷ delivers (6 ∷ 8 ∷ []) ++ TurnOf tc ∷ delivers (10 ∷ 11 ∷ []))
        ≡ record {
          acts = act.Starts ∷ begun 1 ∷ act.GoesOn ∷ act.Opened (xid_of 1) 1 (ticket 1 1) ∷ granted 1 1 ∷ committed 1 1 (ticket 1 1)
              ∷ act.Durable (durable.Outside 1) ∷ act.GoesOn ∷ decides 1 how.Rollback ∷ asked 1 1
              ∷ act.Dirty (xid_of 1) (branch_of 1) (acc_key 1 1) (Some (row (1 ∷ 900 ∷ []))) (Some (row (1 ∷ 5 ∷ [])))
              ∷ act.Durable (durable.Failed (xid_of 1) (branch_of 1) 0) ∷ [];
          sessions = failed_line 1 1 status.RollbackFailed 1 ∷ [];
          locks = (acc_key 1 1, 1) ∷ [];
          tables = acc_row 1 1 5 ∷ [];
          fences = [];
          reads = [];
        } }
{}

/// A boot that a stop cut, and that the next restart keeps, counts: tickets name the third boot.
pub fn a_cut_boot_counts()
    ensures { told (one_row [] (setter 1 ending.Commit 900 ∷ []))
        (CrashOf (res 1) ∷ RestartOf (res 1) 0 (Some 2) ∷ RestartOf (res 1) 1 None ∷ TurnOf (man 1) ∷ delivers (4 ∷ 5 ∷ 6 ∷ []))
        ≡ record {
          acts = act.Down None None ∷ act.Down None (Some durable.Boot) ∷ act.Restarted (Some durable.Boot)
              ∷ act.Starts ∷ begun 1 ∷ act.GoesOn ∷ act.Opened (xid_of 1) 1 (ticket 3 1) ∷ [];
          sessions = session_line 1 1 status.Begin ∷ [];
          locks = [];
          tables = acc_row 1 1 1000 ∷ [];
          fences = [];
          reads = [];
        } }
{}

/// On the disks that an earlier history left its transaction is known, and goes on to its end.
pub fn a_later_history_goes_on()
    ensures { report no_calls (past_after no_calls no_past (played no_calls no_past (TurnOf (man 1) ∷ delivers (1 ∷ []))))
        (played no_calls (past_after no_calls no_past (played no_calls no_past (TurnOf (man 1) ∷ delivers (1 ∷ []))))
        (TurnOf (man 1) ∷ delivers (1 ∷ 2 ∷ 3 ∷ []) ++ TurnOf tc ∷ []))
        ≡ record {
          acts = act.Starts ∷ act.Known (xid_of 1) ∷ act.GoesOn ∷ decides 1 how.Commit ∷ finished 1 status.Committed ∷ [];
          sessions = session_line 1 1 status.Committed ∷ [];
          locks = [];
          tables = [];
          fences = [];
          reads = [];
        } }
{}
