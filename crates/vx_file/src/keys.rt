//! The keys of a table, and the values at them.
ghost use Rattle.std.specs.Prelude.{◌≡◌, map, bytes_eq, option_map, option_copied};
ghost use Rattle.std.specs.List.{list_any};
ghost use Rattle.toml.specs.Data.{get_member};
ghost use Rattle.toml.specs.View.{view, table_view};
ghost use Rattle.vx_file.specs.FileValues.{has_only, has_only_flags};
ghost use Rattle.vx_file.specs.RegionsFile.{text_at};

use toml::{Table, Value};
use vx_flag::Flag;

/// Whether the table has no keys but these.
pub fn has_only(table: &Table, keys: &[&str]) -> bool
    ensures { result ≡ has_only (map (λ k. k.now) keys.now) (table_view table.now) }
{
    'keys: for (key, _) in table.iter() {
        if !is_among(key, keys) {
            return false;
        }
    }
    true
}

/// Whether each key of the table is the text of a flag.
pub fn has_only_flags(table: &Table) -> bool
    ensures { result ≡ has_only_flags (table_view table.now) }
{
    'keys: for (key, _) in table.iter() {
        if Flag::read(key).is_none() {
            return false;
        }
    }
    true
}

fn is_among(key: &str, keys: &[&str]) -> bool
    ensures { result ≡ list_any (bytes_eq key.now) (map (λ k. k.now) keys.now) }
{
    for other in keys {
        if key == *other {
            return true;
        }
    }
    false
}

/// The value at a key.
pub fn value_at<'a>(table: &'a Table, key: &str) -> Option<&'a Value>
    ensures { option_map (λ v. view v.now) result ≡ get_member key.now (table_view table.now) }
{
    table.get(key)
}

/// The text at a key.
#[tactic(auto, unfolding(crate::specs::RegionsFile::text_at))]
pub fn text_at<'a>(table: &'a Table, key: &str) -> Option<&'a str>
    ensures { option_map (λ text. text.now) result ≡ text_at key.now (table_view table.now) }
{
    match value_at(table, key) {
        Some(value) => value.as_str(),
        None => None,
    }
}
