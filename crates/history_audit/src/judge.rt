//! The verdict on one entry.
ghost use Rattle.std.specs.Prelude.{◌≡◌};
ghost use Rattle.seata_types.specs.declared.acts.Act.TheVariants as act;
ghost use Rattle.std.specs.Bool.{Decides};

use crate::kept::{Found, Judge, Letters, Nodes};
use crate::order::{is_in_order, is_timely};
use crate::shown::shows;
use history_text::{Entry, origin_of};
use scenario_form::Scenario;
use seata_types::{Act, NoMemory, Outgoing, Place, Step};
use std::alloc::Global;
use verdict_law::Rule;

// Whether an act says that nothing was done.
fn is_nothing(done: &Act) -> bool
    ensures { Decides result (act.Nothing ≡ done.now) }
{
    matches!(done, Act::Nothing)
}

// Lets the act of a step go, and gives what was sent.
fn sent_by(step: Step) -> Option<Outgoing>
    ensures { result ≡ step.sent }
{
    let Step { act, sent } = step;
    drop(act);
    sent
}

impl Judge {
    ghost use Rattle.std.specs.Prelude.{◌≤◌, [], length, IfOk};
    ghost use Rattle.judged_devices.specs.declared.limits.TheConstants.{OWN_ENTRIES};
    ghost use Rattle.scenario_form.specs.Runnable.{IsRunnable};
    ghost use Rattle.history_text.specs.Worlds.{world_of};
    ghost use Rattle.history_audit.specs.Judging.{CanJudge, Enters, Follows, HasFound, HasJudged, HasJudgedAll, HasRested, HasSent, IsFirst};

    /// Nothing was judged yet.
    pub(crate) fn new(alloc: Global, scenario: &Scenario) -> Result<Judge, NoMemory>
        requires { IsRunnable scenario.now }
        ensures { IfOk result (λ judge. Follows (world_of scenario.now) judge []) }
    {
        let nodes = Nodes::new(alloc, scenario)?;
        Ok(Judge {
            newest: None,
            clock: 0,
            letters: Letters::new(alloc),
            nodes,
        })
    }

    // What is found of an entry that brings nothing to a node.
    fn rest(&self, next: &Entry) -> Found
        ensures { HasRested self.now next.entry.now result }
    {
        if !self.letters.come_to_none(next.place, &next.cause) {
            return Found::Breaks(Rule::Cause);
        }
        if !is_nothing(&next.act) {
            return Found::Breaks(Rule::Act);
        }
        Found::Does(Step {
            act: Act::Nothing,
            sent: None,
        })
    }

    // What is found of an entry that stands in order.
    fn find(&mut self, alloc: Global, next: &Entry) -> Result<Found, NoMemory>
        requires { CanJudge self.old }
        ensures { IfOk result (HasFound self.old self.new next.entry.now) }
    {
        match self.letters.event(alloc, next.place, &next.cause)? {
            Some(event) => {
                let found = self.nodes.take(alloc, &event, next);
                drop(event);
                found
            }
            None => Ok(self.rest(next)),
        }
    }

    // Keeps what an entry sent, where it is what its line shows.
    fn send(&mut self, alloc: Global, next: &Entry, step: Step) -> Result<Option<Rule>, NoMemory>
        ensures { IfOk result (HasSent self.old self.new next.entry.now step) }
    {
        let sent = sent_by(step);
        let Ok(same) = shows(alloc, &sent, &next.sent) else {
            drop(sent);
            return Err(NoMemory);
        };
        if !same {
            drop(sent);
            return Ok(Some(Rule::Sent));
        }
        self.letters.add(next.stamp, next.place, sent)?;
        self.enter(next);
        Ok(None)
    }

    // Keeps where an entry stands, and the clock.
    fn enter(&mut self, next: &Entry)
        ensures { Enters self.old self.new next.entry.now }
    {
        self.newest = Some(origin_of(next.stamp, next.place));
        if matches!(next.place, Place::Tc) {
            self.clock = next.now;
        }
    }

    /// Judges the next entry: the first rule that it breaks, if it breaks one.
    pub(crate) fn judge(&mut self, alloc: Global, next: &Entry) -> Result<Option<Rule>, NoMemory>
        requires { CanJudge self.old }
        ensures { IfOk result (HasJudged self.old self.new next.entry.now) }
    {
        if !is_in_order(self.newest, next) {
            return Ok(Some(Rule::Stamp));
        }
        if !is_timely(self.clock, next) {
            return Ok(Some(Rule::Clock));
        }
        match self.find(alloc, next)? {
            Found::Breaks(rule) => Ok(Some(rule)),
            Found::Does(step) => self.send(alloc, next, step),
        }
    }

    /// Judges entries, one after the other: the number of the first one that breaks a rule, counted from 1, and the rule.
    pub(crate) fn judge_all(
        &mut self,
        alloc: Global,
        entries: &[Entry],
    ) -> Result<Option<(usize, Rule)>, NoMemory>
        requires first { IsFirst self.old }
        requires room { length entries.now ≤ OWN_ENTRIES }
        ensures { IfOk result (HasJudgedAll self.old entries.now) }
    {
        for (k, next) in entries.iter().enumerate() {
            if let Some(broken) = self.judge(alloc, next)? {
                return Ok(Some((k + 1, broken)));
            }
        }
        Ok(None)
    }
}
