//! Which branches of each transaction are known to be ended, so that an open one is found without passing over these again.
ghost use Rattle.std.specs.Prelude.{◌≡◌, [], None, find, take, drop};
ghost use Rattle.std.specs.Option.{option_copied};
ghost use Rattle.session_log.specs.Soundness.{entry_xid, is_open_branch};
ghost use Rattle.session_memory.specs.Ends.{AreSpans, IsEnded, IsFirstOpen, IsLastOpen, IsSpan, IsSpanIn, SpansStay, span_of};
ghost use Rattle.session_memory.specs.Lookups.{last_open, next_open};
ghost use Rattle.session_memory.specs.Order.{AreRising, Each};

use crate::{lookups, statuses};
use durable_records::SessionRecord;
use seata_types::Xid;
use session_log::{Branch, SessionEntry};
use std::alloc::Global;
use std::collections::BTreeMap;
use std::marker::Model;

/// The places of a transaction's branches between which one may be open.
#[derive(Clone, Copy)]
pub(crate) struct Span {
    first: usize,
    last: usize,
}

/// These places of the transactions of which a branch is ended.
#[derive(Drop)]
pub(crate) struct Ends {
    spans: BTreeMap<u64, Span>,
}

impl Model for Ends {
    ghost use Rattle.session_memory.specs.Ends.{Spans};

    ghost Value = { Spans };

    ghost view = { λ e. e.spans.entries };
}

impl Ends {
    /// Nothing is known; takes no memory.
    pub(crate) fn new(alloc: Global) -> Ends
        ensures { result ≡ [] }
    {
        Ends {
            spans: BTreeMap::new(alloc),
        }
    }

    /// What is found of these transactions. Where memory is refused less is known.
    pub(crate) fn of(alloc: Global, sessions: &[SessionEntry]) -> Ends
        requires { AreRising entry_xid sessions.now }
        ensures { AreSpans result sessions.now }
    {
        let mut ends = Ends::new(alloc);
        for entry in sessions {
            if statuses::is_going(entry.session.status) {
                ends.note_end(sessions, entry.xid);
            }
        }
        ends
    }

    fn known(&self, xid: Xid) -> Option<Span>
        ensures { result ≡ span_of self.now xid.0 }
    {
        self.spans.get(&xid.0).copied()
    }

    fn span(&self, xid: Xid, branches: &[Branch]) -> Span
        requires { IsSpanIn (span_of self.now xid.0) branches.now }
        ensures { IsSpan result branches.now }
    {
        match self.known(xid) {
            Some(span) => span,
            None => Span {
                first: 0,
                last: branches.len(),
            },
        }
    }

    /// The branch of these of a transaction that is asked next: after a commit the first one that isn't ended, else the last one. Takes
    /// no memory.
    pub(crate) fn next_open<'a>(
        &self,
        xid: Xid,
        branches: &'a [Branch],
        commit: bool,
    ) -> Option<&'a Branch>
        requires { IsSpanIn (span_of self.now xid.0) branches.now }
        ensures { option_copied result ≡ next_open commit branches.now }
    {
        let span = self.span(xid, branches);
        if commit {
            first_open(branches, span.first)
        } else {
            last_open(branches, span.last)
        }
    }

    /// What a record that registers no branch leaves, of these transactions after it. Where memory is refused nothing is known.
    pub(crate) fn note(&mut self, sessions: &[SessionEntry], item: &SessionRecord)
        requires rising { AreRising entry_xid sessions.now }
        requires spans { AreSpans self.old sessions.now }
        ensures { AreSpans self.new sessions.now }
    {
        if let SessionRecord::Ended { xid, .. } = item {
            self.note_end(sessions, *xid);
        }
    }

    // One more branch of a transaction is ended.
    fn note_end(&mut self, sessions: &[SessionEntry], xid: Xid)
        requires rising { AreRising entry_xid sessions.now }
        requires spans { AreSpans self.old sessions.now }
        ensures { AreSpans self.new sessions.now }
    {
        if let Some(session) = lookups::session(sessions, xid) {
            self.find_span(xid, session.branches.as_slice());
        }
    }

    // Finds these places of a transaction anew.
    fn find_span(&mut self, xid: Xid, branches: &[Branch])
        requires { IsSpanIn (span_of self.old xid.0) branches.now }
        ensures span { IsSpanIn (span_of self.new xid.0) branches.now }
        ensures others { SpansStay xid.0 self.old self.new }
    {
        let span = self.span(xid, branches);
        let first = first_from(branches, span.first);
        let last = last_before(branches, span.last);
        self.set(xid, Span { first, last }, branches);
    }

    fn set(&mut self, xid: Xid, span: Span, branches: &[Branch])
        requires old { IsSpanIn (span_of self.old xid.0) branches.now }
        requires new { IsSpan span branches.now }
        ensures span { IsSpanIn (span_of self.new xid.0) branches.now }
        ensures others { SpansStay xid.0 self.old self.new }
    {
        drop(self.spans.insert(xid.0, span));
    }

    /// Nothing is known of a transaction; takes no memory.
    pub(crate) fn forget(&mut self, xid: Xid)
        ensures span { span_of self.new xid.0 ≡ None }
        ensures others { SpansStay xid.0 self.old self.new }
    {
        self.spans.remove(&xid.0);
    }
}

fn first_open(branches: &[Branch], from: usize) -> Option<&Branch>
    requires { Each IsEnded (take from branches.now) }
    ensures { option_copied result ≡ find is_open_branch branches.now }
{
    let at = first_from(branches, from);
    if at < branches.len() {
        return Some(&branches[at]);
    }
    None
}

fn last_open(branches: &[Branch], behind: usize) -> Option<&Branch>
    requires { Each IsEnded (drop behind branches.now) }
    ensures { option_copied result ≡ last_open branches.now }
{
    let last = last_before(branches, behind);
    if last == 0 {
        return None;
    }
    Some(&branches[last - 1])
}

// The place of the first branch that isn't ended, where all before this place are.
fn first_from(branches: &[Branch], from: usize) -> usize
    requires { Each IsEnded (take from branches.now) }
    ensures { IsFirstOpen result branches.now }
{
    let mut at = from;
    while at < branches.len() {
        if !branches[at].ended {
            return at;
        }
        at += 1;
    }
    at
}

// The number of branches up to the last one that isn't ended, where all from this place on are.
fn last_before(branches: &[Branch], behind: usize) -> usize
    requires { Each IsEnded (drop behind branches.now) }
    ensures { IsLastOpen result branches.now }
{
    let mut at = behind.min(branches.len());
    while at > 0 {
        if !branches[at - 1].ended {
            return at;
        }
        at -= 1;
    }
    at
}
