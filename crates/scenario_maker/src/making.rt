//! The text of a made scenario, as compact JSON whose members stand in order of their names.
ghost use Rattle.std.specs.Prelude.{◌≡◌, ◌+◌, ◌++◌, ◌≤◌, ℕ, codes, IfOk, OnOk, string_bytes};
ghost use Rattle.scenario_maker.specs.Made as texts;

use crate::draws::Draws;
use crate::plans::Plan;
use seata_types::NoMemory;
use std::alloc::{AllocError, Global};

/// The tables of each resource, with their rows.
const ACCOUNTS: &str =
    r#"{"columns":[["id","int"],["m","int"]],"key":"id","mode":"AT","name":"acc","rows":[[1,1000],[2,1000],[3,1000],[4,1000],[5,1000],[6,1000],[7,1000],[8,1000]]}"#;

const STOCKS: &str =
    r#"{"columns":[["id","int"],["free","int"],["held","int"]],"key":"id","mode":"TCC","name":"stock","rows":[[1,100,0],[2,100,0],[3,100,0],[4,100,0],[5,100,0],[6,100,0],[7,100,0],[8,100,0]]}"#;

/// The most steps that a schedule lets the replay choose, and how many each manager adds.
const MOST_STEPS: u32 = 20_000;

const STEPS_PER_MANAGER: u32 = 400;

/// What stands before the item at a place of a list: a comma, unless it is the first.
fn add_comma(out: &mut String, place: u32) -> Result<(), AllocError>
    ensures { OnOk result (string_bytes out.new ≡ string_bytes out.old ++ texts.comma place) }
{
    if place > 0 {
        out.push_str(",")?;
    }
    Ok(())
}

/// A call that adds an amount to an account, or takes it away, by the sign.
#[tactic(auto, unfolding(crate::specs::Made::payment))]
fn add_payment(
    out: &mut String,
    resource: u32,
    sign: &str,
    amount: u32,
    account: u32,
) -> Result<(), AllocError>
    ensures { OnOk result (string_bytes out.new ≡ string_bytes out.old ++ texts.payment resource sign.now amount account) }
{
    write!(
        out,
        r#"{{"at":"r{resource}","do":["UPDATE acc SET m = m {sign} {amount} WHERE id = {account}"]}}"#
    )
}

/// A call that reserves one of a stock, with what confirms it and what cancels it.
#[tactic(auto, unfolding(crate::specs::Made::reservation))]
fn add_reservation(out: &mut String, resource: u32, stock: u32) -> Result<(), AllocError>
    ensures { OnOk result (string_bytes out.new ≡ string_bytes out.old ++ texts.reservation resource stock) }
{
    write!(
        out,
        r#"{{"at":"r{resource}","cancel":["UPDATE stock SET free = free + 1, held = held - 1 WHERE id = {stock}"],"confirm":["UPDATE stock SET held = held - 1 WHERE id = {stock}"],"try":["UPDATE stock SET free = free - 1, held = held + 1 WHERE id = {stock} AND free >= 1"]}}"#
    )
}

/// The calls of a manager.
#[tactic(auto, unfolding(crate::specs::Made::calls, crate::specs::Made::third_call))]
fn add_calls(out: &mut String, plan: &Plan) -> Result<(), AllocError>
    ensures { OnOk result (string_bytes out.new ≡ string_bytes out.old ++ texts.calls plan.now) }
{
    add_payment(out, plan.first, "-", plan.amount, plan.payer)?;
    out.push_str(",")?;
    add_payment(out, plan.second, "+", plan.amount, plan.payee)?;
    if plan.reserves {
        out.push_str(",")?;
        add_reservation(out, plan.second, plan.payee)?;
    }
    Ok(())
}

/// How a plan ends.
#[tactic(auto, unfolding(crate::specs::Made::end))]
fn end(plan: &Plan) -> &'static str
    ensures { result.now ≡ texts.end plan.now }
{
    if plan.rolls_back {
        "rollback"
    } else {
        "commit"
    }
}

/// A manager, by its number.
#[tactic(auto, unfolding(crate::specs::Made::manager))]
fn add_manager(out: &mut String, number: u32, plan: &Plan) -> Result<(), AllocError>
    ensures { OnOk result (string_bytes out.new ≡ string_bytes out.old ++ texts.manager number plan.now) }
{
    out.push_str(r#"{"calls":["#)?;
    add_calls(out, plan)?;
    write!(out, r#"],"end":"{}","name":"m{number}"}}"#, end(plan))?;
    Ok(())
}

/// The managers of a number, with a comma between two.
fn add_managers(out: &mut String, number: u64, size: u32) -> Result<(), AllocError>
    requires { size ≤ 256 }
    ensures { OnOk result (string_bytes out.new ≡ string_bytes out.old ++ texts.managers number size) }
{
    let mut draws = Draws::of(number);
    for place in 0..size {
        add_comma(out, place)?;
        add_manager(out, place + 1, &draws.plan())?;
    }
    Ok(())
}

/// A resource, by its number.
#[tactic(auto, unfolding(crate::specs::Made::resource, crate::specs::Made::accounts, crate::specs::Made::stocks))]
fn add_resource(out: &mut String, number: u32) -> Result<(), AllocError>
    ensures { OnOk result (string_bytes out.new ≡ string_bytes out.old ++ texts.resource number) }
{
    write!(out, r#"{{"name":"r{number}","tables":["#)?;
    out.push_str(ACCOUNTS)?;
    out.push_str(",")?;
    out.push_str(STOCKS)?;
    out.push_str("]}")
}

/// The resources, which are alike.
fn add_resources(out: &mut String) -> Result<(), AllocError>
    ensures { OnOk result (string_bytes out.new ≡ string_bytes out.old ++ texts.resources) }
{
    for place in 0..4 {
        add_comma(out, place)?;
        add_resource(out, place + 1)?;
    }
    Ok(())
}

/// The schedule: one text, by which the replay chooses so many steps.
#[tactic(auto, unfolding(crate::specs::Made::schedule))]
fn add_schedule(out: &mut String, size: u32) -> Result<(), AllocError>
    requires { size ≤ 256 }
    ensures { OnOk result (string_bytes out.new ≡ string_bytes out.old ++ texts.schedule size) }
{
    let steps = (STEPS_PER_MANAGER * size).min(MOST_STEPS);
    write!(out, r#"["auto {steps}"]"#)
}

/// The whole text.
#[tactic(auto, unfolding(crate::specs::Made::made))]
fn add_scenario(out: &mut String, number: u64, size: u32) -> Result<(), AllocError>
    requires { size ≤ 256 }
    ensures { OnOk result (string_bytes out.new ≡ string_bytes out.old ++ texts.made number size) }
{
    out.push_str(r#"{"managers":["#)?;
    add_managers(out, number, size)?;
    out.push_str(r#"],"resources":["#)?;
    add_resources(out)?;
    out.push_str(r#"],"schedule":"#)?;
    add_schedule(out, size)?;
    out.push_str("}")?;
    Ok(())
}

/// The text of the scenario that is made of a number for so many managers, 1 to 256: compact JSON,
/// whose members stand in order of their names. It can be read (`made_texts_are_scenarios`).
pub fn make(alloc: Global, number: u64, size: u32) -> Result<String, NoMemory>
    requires least { 1 ≤ size }
    requires most { size ≤ 256 }
    ensures { IfOk result (λ text. string_bytes text ≡ texts.made number size) }
{
    let mut text = String::new(alloc);
    add_scenario(&mut text, number, size)?;
    Ok(text)
}
