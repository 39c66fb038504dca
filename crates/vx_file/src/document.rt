//! What a whole document means.
ghost use Rattle.std.specs.Prelude.{◌≡◌, map, option_map};
ghost use Rattle.toml.specs.Data.{get_member};
ghost use Rattle.toml.specs.View.{view, table_view};
ghost use Rattle.vx_file.specs.FileReads.{Adds};
ghost use Rattle.vx_file.specs.FileValues as values;
ghost use Rattle.vx_file.specs.RegionsFile.{if_there, in_turn, definition_at, changes_at, regions_of, regions_in, version_in, contents_in, edits_in_table};

use crate::file_version::FileVersion;
use crate::flags::flags;
use crate::keys::{has_only, value_at};
use crate::tables::{changes, definition};
use std::alloc::Global;
use toml::{Table, Value};
use vx_base::Unread;
use vx_policy::Edit;

/// The keys that the file may have.
const FILE_KEYS: [&str; 3] = ["version", "region", "global"];

/// Adds the edits that a document of version 1 or 2 means.
#[tactic(auto, unfolding(crate::specs::RegionsFile::edits_in_table))]
pub fn document(alloc: Global, table: &Table, edits: &mut Vec<Edit>) -> Result<(), Unread>
    ensures { Adds result edits.old.items edits.new.items (edits_in_table (table_view table.now)) }
{
    if !has_only(table, &FILE_KEYS) {
        return Err(Unread::Faulty);
    }
    let Some(version) = version(value_at(table, "version")) else {
        return Err(Unread::Faulty);
    };
    contents(alloc, version, table, edits)
}

fn version(value: Option<&Value>) -> Option<FileVersion>
    ensures { result ≡ version_in (option_map (λ v. view v.now) value.entry) }
{
    match value?.as_integer()? {
        1 => Some(FileVersion::One),
        2 => Some(FileVersion::Two),
        _ => None,
    }
}

#[tactic(auto, unfolding(crate::specs::RegionsFile::contents_in))]
fn contents(
    alloc: Global,
    version: FileVersion,
    table: &Table,
    edits: &mut Vec<Edit>,
) -> Result<(), Unread>
    ensures { Adds result edits.old.items edits.new.items
        (contents_in version (table_view table.now)) }
{
    regions(alloc, version, value_at(table, "region"), edits)?;
    flags(alloc, "__global__", value_at(table, "global"), edits)
}

#[tactic(auto, unfolding(crate::specs::RegionsFile::regions_in), using(crate::proofs::FileLists::data_of_view))]
fn regions(
    alloc: Global,
    version: FileVersion,
    value: Option<&Value>,
    edits: &mut Vec<Edit>,
) -> Result<(), Unread>
    ensures { Adds result edits.old.items edits.new.items
        (if_there (regions_in version) (option_map (λ v. view v.now) value.entry)) }
{
    let Some(value) = value else {
        return Ok(());
    };
    let Some(values) = value.as_array() else {
        return Err(Unread::Faulty);
    };
    each_region(alloc, version, values, edits)
}

// All regions are defined before anything else is said of them, so a parent may stand after its
// child.
#[tactic(auto, unfolding(crate::specs::RegionsFile::regions_of))]
fn each_region(
    alloc: Global,
    version: FileVersion,
    values: &[Value],
    edits: &mut Vec<Edit>,
) -> Result<(), Unread>
    ensures { Adds result edits.old.items edits.new.items
        (regions_of version (map view values.now)) }
{
    each_definition(alloc, version, values, edits)?;
    each_change(alloc, values, edits)
}

fn each_definition(
    alloc: Global,
    version: FileVersion,
    values: &[Value],
    edits: &mut Vec<Edit>,
) -> Result<(), Unread>
    ensures { Adds result edits.old.items edits.new.items
        (in_turn (definition_at version) (map view values.now)) }
{
    for value in values {
        definition(alloc, version, value, edits)?;
    }
    Ok(())
}

fn each_change(alloc: Global, values: &[Value], edits: &mut Vec<Edit>) -> Result<(), Unread>
    ensures { Adds result edits.old.items edits.new.items
        (in_turn changes_at (map view values.now)) }
{
    for value in values {
        changes(alloc, value, edits)?;
    }
    Ok(())
}
