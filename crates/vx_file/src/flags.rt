//! What a table of flags means.
ghost use Rattle.std.specs.Prelude.{◌≡◌, [], ◌∷◌, map, option_map};
ghost use Rattle.toml.specs.Data.{get_member};
ghost use Rattle.toml.specs.View.{view, table_view};
ghost use Rattle.vx_flag.specs.Flag as texts;
ghost use Rattle.vx_flag.specs.Flag.{flag_text};
ghost use Rattle.vx_file.specs.FileReads.{Adds};
ghost use Rattle.vx_file.specs.FileValues.{joined};
ghost use Rattle.vx_file.specs.RegionsFile.{if_there, flag_in, flags_in, flags_at};

use crate::edits::add;
use crate::keys::{has_only_flags, value_at};
use crate::values::setting;
use std::alloc::Global;
use toml::{Table, Value};
use vx_base::Unread;
use vx_flag::Flag;
use vx_policy::Edit;

/// Adds what a value, where it is there, sets the flags of the region of that id to.
#[tactic(auto, unfolding(crate::specs::RegionsFile::flags_at))]
pub fn flags(
    alloc: Global,
    id: &str,
    value: Option<&Value>,
    edits: &mut Vec<Edit>,
) -> Result<(), Unread>
    ensures { Adds result edits.old.items edits.new.items
        (if_there (flags_at id.now) (option_map (λ v. view v.now) value.entry)) }
{
    let Some(value) = value else {
        return Ok(());
    };
    let Some(table) = value.as_table() else {
        return Err(Unread::Faulty);
    };
    flags_of(alloc, id, table, edits)
}

#[tactic(auto, unfolding(crate::specs::RegionsFile::flags_in))]
fn flags_of(alloc: Global, id: &str, table: &Table, edits: &mut Vec<Edit>) -> Result<(), Unread>
    ensures { Adds result edits.old.items edits.new.items (flags_in id.now (table_view table.now)) }
{
    if !has_only_flags(table) {
        return Err(Unread::Faulty);
    }
    each_flag(alloc, id, table, &Flag::ALL, edits)
}

fn each_flag(
    alloc: Global,
    id: &str,
    table: &Table,
    flags: &[Flag],
    edits: &mut Vec<Edit>,
) -> Result<(), Unread>
    ensures { Adds result edits.old.items edits.new.items
        (joined (map (λ flag. if_there (flag_in id.now flag)
        (get_member (flag_text flag) (table_view table.now))) flags.now)) }
{
    for flag in flags {
        one_flag(alloc, id, *flag, value_at(table, flag.text()), edits)?;
    }
    Ok(())
}

#[tactic(auto, unfolding(crate::specs::RegionsFile::flag_in))]
fn one_flag(
    alloc: Global,
    id: &str,
    flag: Flag,
    value: Option<&Value>,
    edits: &mut Vec<Edit>,
) -> Result<(), Unread>
    ensures { Adds result edits.old.items edits.new.items
        (if_there (flag_in id.now flag) (option_map (λ v. view v.now) value.entry)) }
{
    let Some(value) = value else {
        return Ok(());
    };
    let Some(setting) = setting(value) else {
        return Err(Unread::Faulty);
    };
    let id = String::from_str(alloc, id)?;
    add(edits, Edit::SetFlag(id, flag, setting))
}
