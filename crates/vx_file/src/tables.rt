//! What the table of a region means.
ghost use Rattle.std.specs.Prelude.{◌≡◌, [], ◌∷◌, map, Some, None, option_map, option_copied};
ghost use Rattle.toml.specs.Data.{get_member};
ghost use Rattle.toml.specs.View.{view, table_view};
ghost use Rattle.vx_policy.specs.Asked.{asked};
ghost use Rattle.vx_file.specs.FileReads.{Adds};
ghost use Rattle.vx_file.specs.FileValues.{has_only};
ghost use Rattle.vx_file.specs.RegionsFile.{if_there, in_turn, text_at, region_keys, definition_in, definition_at, priority_in, parent_in, name_in, names_in, rank_in, rosters_in, changes_in, changes_at};
ghost use Rattle.vx_base.specs.Unread.{Gives};

use crate::edits::add;
use crate::file_version::FileVersion;
use crate::flags::flags;
use crate::keys::{has_only, text_at, value_at};
use crate::shapes::shape;
use crate::values::number;
use std::alloc::Global;
use toml::{Table, Value};
use vx_base::Unread;
use vx_policy::{Edit, Listing};
use vx_region::Roster;

/// The keys that a region may have in version 1.
const KEYS_OF_ONE: [&str; 9] = [
    "id", "cuboid", "polygon", "y", "priority", "parent", "owners", "members", "flags",
];

/// The keys that a region may have in version 2.
const KEYS_OF_TWO: [&str; 10] = [
    "id", "cuboid", "polygon", "y", "priority", "parent", "owners", "members", "domains", "flags",
];

/// Adds the definition of a region.
#[tactic(auto, unfolding(crate::specs::RegionsFile::definition_at))]
pub fn definition(
    alloc: Global,
    version: FileVersion,
    value: &Value,
    edits: &mut Vec<Edit>,
) -> Result<(), Unread>
    ensures { Adds result edits.old.items edits.new.items (definition_at version (view value.now)) }
{
    let Some(table) = value.as_table() else {
        return Err(Unread::Faulty);
    };
    let edit = definition_of(alloc, version, table)?;
    add(edits, edit)
}

#[tactic(auto, unfolding(crate::specs::RegionsFile::definition_in))]
fn definition_of(alloc: Global, version: FileVersion, table: &Table) -> Result<Edit, Unread>
    ensures { Gives asked result (definition_in version (table_view table.now)) }
{
    if !has_only_region_keys(version, table) {
        return Err(Unread::Faulty);
    }
    let Some(id) = text_at(table, "id") else {
        return Err(Unread::Faulty);
    };
    let shape = shape(alloc, table)?;
    Ok(Edit::Define(String::from_str(alloc, id)?, shape))
}

fn has_only_region_keys(version: FileVersion, table: &Table) -> bool
    ensures { result ≡ has_only (region_keys version) (table_view table.now) }
{
    match version {
        FileVersion::One => has_only(table, &KEYS_OF_ONE),
        FileVersion::Two => has_only(table, &KEYS_OF_TWO),
    }
}

/// Adds what is said of a region beside its definition.
#[tactic(auto, unfolding(crate::specs::RegionsFile::changes_at))]
pub fn changes(alloc: Global, value: &Value, edits: &mut Vec<Edit>) -> Result<(), Unread>
    ensures { Adds result edits.old.items edits.new.items (changes_at (view value.now)) }
{
    let Some(table) = value.as_table() else {
        return Err(Unread::Faulty);
    };
    changes_of(alloc, table, edits)
}

#[tactic(auto, unfolding(crate::specs::RegionsFile::changes_in))]
fn changes_of(alloc: Global, table: &Table, edits: &mut Vec<Edit>) -> Result<(), Unread>
    ensures { Adds result edits.old.items edits.new.items (changes_in (table_view table.now)) }
{
    let Some(id) = text_at(table, "id") else {
        return Err(Unread::Faulty);
    };
    rank(alloc, id, table, edits)?;
    rosters(alloc, id, table, edits)?;
    flags(alloc, id, value_at(table, "flags"), edits)
}

#[tactic(auto, unfolding(crate::specs::RegionsFile::rank_in))]
fn rank(alloc: Global, id: &str, table: &Table, edits: &mut Vec<Edit>) -> Result<(), Unread>
    ensures { Adds result edits.old.items edits.new.items (rank_in id.now (table_view table.now)) }
{
    priority(alloc, id, value_at(table, "priority"), edits)?;
    parent(alloc, id, value_at(table, "parent"), edits)
}

#[tactic(auto, unfolding(crate::specs::RegionsFile::rosters_in))]
fn rosters(alloc: Global, id: &str, table: &Table, edits: &mut Vec<Edit>) -> Result<(), Unread>
    ensures { Adds result edits.old.items edits.new.items
        (rosters_in id.now (table_view table.now)) }
{
    names(alloc, Roster::Owners, id, value_at(table, "owners"), edits)?;
    names(
        alloc,
        Roster::Members,
        id,
        value_at(table, "members"),
        edits,
    )?;
    names(
        alloc,
        Roster::Domains,
        id,
        value_at(table, "domains"),
        edits,
    )
}

#[tactic(auto, unfolding(crate::specs::RegionsFile::priority_in))]
fn priority(
    alloc: Global,
    id: &str,
    value: Option<&Value>,
    edits: &mut Vec<Edit>,
) -> Result<(), Unread>
    ensures { Adds result edits.old.items edits.new.items
        (if_there (priority_in id.now) (option_map (λ v. view v.now) value.entry)) }
{
    let Some(value) = value else {
        return Ok(());
    };
    let Some(priority) = number(value) else {
        return Err(Unread::Faulty);
    };
    let id = String::from_str(alloc, id)?;
    add(edits, Edit::Priority(id, priority))
}

#[tactic(auto, unfolding(crate::specs::RegionsFile::parent_in))]
fn parent(
    alloc: Global,
    id: &str,
    value: Option<&Value>,
    edits: &mut Vec<Edit>,
) -> Result<(), Unread>
    ensures { Adds result edits.old.items edits.new.items
        (if_there (parent_in id.now) (option_map (λ v. view v.now) value.entry)) }
{
    let Some(value) = value else {
        return Ok(());
    };
    let Some(parent) = value.as_str() else {
        return Err(Unread::Faulty);
    };
    let id = String::from_str(alloc, id)?;
    let parent = String::from_str(alloc, parent)?;
    add(edits, Edit::Parent(id, Some(parent)))
}

#[tactic(auto, unfolding(crate::specs::RegionsFile::names_in), using(crate::proofs::FileLists::data_of_view))]
fn names(
    alloc: Global,
    roster: Roster,
    id: &str,
    value: Option<&Value>,
    edits: &mut Vec<Edit>,
) -> Result<(), Unread>
    ensures { Adds result edits.old.items edits.new.items
        (if_there (names_in roster id.now) (option_map (λ v. view v.now) value.entry)) }
{
    let Some(value) = value else {
        return Ok(());
    };
    let Some(values) = value.as_array() else {
        return Err(Unread::Faulty);
    };
    each_name(alloc, roster, id, values, edits)
}

fn each_name(
    alloc: Global,
    roster: Roster,
    id: &str,
    values: &[Value],
    edits: &mut Vec<Edit>,
) -> Result<(), Unread>
    ensures { Adds result edits.old.items edits.new.items
        (in_turn (name_in roster id.now) (map view values.now)) }
{
    for value in values {
        name(alloc, roster, id, value, edits)?;
    }
    Ok(())
}

#[tactic(auto, unfolding(crate::specs::RegionsFile::name_in))]
fn name(
    alloc: Global,
    roster: Roster,
    id: &str,
    value: &Value,
    edits: &mut Vec<Edit>,
) -> Result<(), Unread>
    ensures { Adds result edits.old.items edits.new.items (name_in roster id.now (view value.now)) }
{
    let Some(name) = value.as_str() else {
        return Err(Unread::Faulty);
    };
    let id = String::from_str(alloc, id)?;
    let name = String::from_str(alloc, name)?;
    add(edits, Edit::listed(roster, id, Listing::Add, name))
}
