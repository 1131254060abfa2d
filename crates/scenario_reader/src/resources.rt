//! Resources: their names, their tables and the rows that these have at the opening.
ghost use Rattle.std.specs.Prelude.{◌≡◌, ◌≤◌, ◌+◌, ◌++◌, [], option_map, option_copied, length, IfOk, IfErr, OnOk};
ghost use Rattle.seata_types.specs.declared.limits.TheConstants.{RESOURCES};
ghost use Rattle.serde_json.specs.View.{view, items_view};
ghost use Rattle.scenario_reader.specs.Resources as form;
ghost use Rattle.scenario_reader.specs.Faults.{Answers, AnswersAs, each, vec_of};

use crate::errors::ScenarioError;
use crate::names::new_node;
use crate::shapes::{an_object, list, only};
use crate::tables::table;
use local_tables::{Schema, TableDef};
use scenario_form::ResourceDef;
use seata_types::limits::{RESOURCES, TABLES};
use seata_types::{Duplicate, List, Row, Text};
use serde_json::Value;
use std::alloc::Global;

/// These rows, each with the name of its table, behind the others.
fn name_rows(
    alloc: Global,
    name: &Text,
    rows: List<Row>,
    opening: &mut Vec<(Text, Row)>,
) -> Result<(), ScenarioError>
    ensures ok { OnOk result (opening.new.items ≡ opening.old.items ++ form.named_rows name.now rows) }
    ensures counted { OnOk result (length opening.new.items ≡ length opening.old.items + length rows) }
    ensures refused { IfErr result (λ e. e ≡ ScenarioError.NoMemory) }
{
    for row in rows.into_vec() {
        opening.push((name.copy(alloc)?, row))?;
    }
    Ok(())
}

/// The tables, each behind those before it, and all their opening rows.
#[tactic(auto, using(crate::proofs::Opened::next_table))]
fn each_table(
    alloc: Global,
    values: &[Value],
) -> Result<(Vec<TableDef>, Vec<(Text, Row)>), ScenarioError>
    ensures { AnswersAs (λ t. (t.0.items, t.1.items)) (form.each_table [] [] (items_view values.now)) result }
{
    let mut defs = Vec::new(alloc);
    let mut opening = Vec::new(alloc);
    for value in values {
        let (def, rows) = match table(alloc, defs.as_slice(), opening.len(), value) {
            Ok(found) => found,
            Err(fault) => return Err(fault.in_item(alloc, defs.len())),
        };
        name_rows(alloc, &def.name, rows, &mut opening)?;
        defs.push(def)?;
    }
    Ok((defs, opening))
}

#[tactic(auto, unfolding(crate::specs::Resources::tables))]
fn tables(
    alloc: Global,
    found: Option<&Value>,
) -> Result<(Vec<TableDef>, Vec<(Text, Row)>), ScenarioError>
    ensures { AnswersAs (λ t. (t.0.items, t.1.items)) (form.tables (option_map view (option_copied found.entry))) result }
{
    let values = list(alloc, TABLES, found)?;
    each_table(alloc, values)
}

const RESOURCE_MEMBERS: [&str; 2] = ["name", "tables"];

/// A resource, behind these.
#[tactic(auto, unfolding(crate::specs::Resources::resource))]
fn resource(
    alloc: Global,
    defs: &[ResourceDef],
    value: &Value,
) -> Result<ResourceDef, ScenarioError>
    ensures { Answers (form.resource defs.now (view value.now)) result }
{
    an_object(alloc, value)?;
    let name = match new_node(alloc, defs, &[], value.get("name")) {
        Ok(name) => name,
        Err(fault) => return Err(fault.in_member(alloc, "name")),
    };
    let (tables, opening) = match tables(alloc, value.get("tables")) {
        Ok(found) => found,
        Err(fault) => return Err(fault.in_member(alloc, "tables")),
    };
    only(alloc, &RESOURCE_MEMBERS, value)?;
    Ok(ResourceDef {
        name,
        schema: Schema {
            tables: List::of(tables),
        },
        opening: List::of(opening),
    })
}

fn each_resource(alloc: Global, values: &[Value]) -> Result<Vec<ResourceDef>, ScenarioError>
    ensures exact { AnswersAs vec_of (each form.resource [] (items_view values.now)) result }
    ensures whole { IfOk result (λ resources. length resources.items ≡ length values.now) }
{
    let mut resources = Vec::new(alloc);
    for value in values {
        let found = match resource(alloc, resources.as_slice(), value) {
            Ok(found) => found,
            Err(fault) => return Err(fault.in_item(alloc, resources.len())),
        };
        resources.push(found)?;
    }
    Ok(resources)
}

/// The resources, with different names.
#[tactic(auto, unfolding(crate::specs::Resources::resources))]
pub fn resources(alloc: Global, found: Option<&Value>) -> Result<List<ResourceDef>, ScenarioError>
    ensures exact { Answers (form.resources (option_map view (option_copied found.entry))) result }
    ensures few { IfOk result (λ resources. length resources ≤ RESOURCES) }
{
    let values = list(alloc, RESOURCES, found)?;
    let resources = each_resource(alloc, values)?;
    Ok(List::of(resources))
}
