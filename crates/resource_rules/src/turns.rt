//! Turns.
ghost use Rattle.std.specs.Prelude.{◌≡◌, [], IfOk, option_map};
ghost use Rattle.std.specs.Option.{option_copied};
ghost use Rattle.seata_types.specs.declared.acts.Act.TheVariants as act;
ghost use Rattle.seata_types.specs.declared.messages.Input.TheVariants as input;
ghost use Rattle.local_txn.specs.OpenTickets.{last_of};
ghost use Rattle.local_txn.specs.Answers.{open_of};
ghost use Rattle.resource_memory.specs.Known.{Known};
ghost use Rattle.history_rules.specs.ResourceRules.{requests};
ghost use Rattle.resource_rules.specs.Answers.{Answers, answer_by};

use crate::answers::{Answer, Change};
use crate::requests::request;
use crate::setups::Setup;
use crate::telling::rests;
use local_txn::{LocalTxns, OpenTxn};
use seata_types::{Act, NoMemory, Outgoing, Place, Step};
use std::alloc::Global;

/// A turn: the open ticket that was sent longest ago asks again.
pub(crate) fn turn(alloc: Global, setup: &Setup, txns: &LocalTxns) -> Result<Answer, NoMemory>
    ensures { IfOk result (λ a. (k : Known) → Answers setup.now k txns.now input.Turn a) }
{
    match oldest(txns) {
        Some(txn) => resent(alloc, setup.number, txn),
        None => Ok(rests(Act::Nothing, None)),
    }
}

// The local transaction whose ticket was sent longest ago.
fn oldest(txns: &LocalTxns) -> Option<&OpenTxn>
    ensures { option_map open_of (option_copied result) ≡ last_of txns.now.opens }
{
    match txns.next_to_send() {
        Some(ticket) => txns.find(ticket),
        None => None,
    }
}

fn resent(alloc: Global, number: u16, txn: &OpenTxn) -> Result<Answer, NoMemory>
    ensures { IfOk result (λ a. a ≡ answer_by 0 [] [] (requests number (act.Resent txn.now.ticket) (open_of txn.now))) }
{
    let message = request(alloc, number, txn)?;
    let ticket = txn.ticket;
    Ok(Answer {
        step: Step {
            act: Act::Resent { ticket },
            sent: Some(Outgoing {
                to: Place::Tc,
                message,
            }),
        },
        asked: None,
        change: Change::Sends(ticket),
    })
}
