//! The words of the lines that edit the policy.
ghost use Rattle.std.specs.Prelude.{◌≡◌, string_bytes, IfOk, IfErr};
ghost use Rattle.vx_geom.specs.Written.{written};
ghost use Rattle.vx_policy.specs.Asked.{asked};
ghost use Rattle.vx_grammar.specs.EditLines.{Ended, end_of, corners_of, points_of, path_of, shape_by, shape_of, define_of, reshape_of, remove_of, priority_of, parent_of, flag_at, state_at, group_at_end, set_flag_of, clear_flag_of, listing_of, listing_at, listed_of, edit_by, edit_of};
ghost use Rattle.vx_grammar.specs.Readings.{next_of, coordinate_at, position_at};
ghost use Rattle.vx_base.specs.Unread.{Gives, GivesWith};

use crate::arguments::{coordinate, position};
use crate::number::read_i32;
use crate::words::Words;
use std::alloc::Global;
use vx_base::Unread;
use vx_flag::{Flag, Group, Setting, State};
use vx_geom::{Pos, ShapeSpec};
use vx_policy::{Edit, Listing};
use vx_region::Roster;

/// Reads the words of an edit, those after `region`.
#[tactic(auto, unfolding(crate::specs::EditLines::edit_of))]
pub fn read_edit(alloc: Global, words: &mut Words) -> Result<Edit, Unread>
    ensures { Gives asked result (edit_of words.old) }
{
    let verb = word(words)?;
    edit_by(alloc, verb, words)
}

#[tactic(auto, unfolding(crate::specs::EditLines::edit_by))]
fn edit_by(alloc: Global, verb: &str, words: &mut Words) -> Result<Edit, Unread>
    ensures { Gives asked result (edit_by verb.now words.old) }
{
    match verb {
        "define" => define(alloc, words),
        "reshape" => reshape(alloc, words),
        "remove" => remove(alloc, words),
        "priority" => priority(alloc, words),
        "parent" => parent(alloc, words),
        "flag" => set_flag(alloc, words),
        "clear" => clear_flag(alloc, words),
        "owner" => listed(alloc, Roster::Owners, words),
        "member" => listed(alloc, Roster::Members, words),
        "domain" => listed(alloc, Roster::Domains, words),
        _ => Err(Unread::Faulty),
    }
}

#[tactic(auto, unfolding(crate::specs::EditLines::define_of))]
fn define(alloc: Global, words: &mut Words) -> Result<Edit, Unread>
    ensures { Gives asked result (define_of words.old) }
{
    let id = word(words)?;
    let shape = shape(alloc, words)?;
    Ok(Edit::Define(text(alloc, id)?, shape))
}

#[tactic(auto, unfolding(crate::specs::EditLines::reshape_of))]
fn reshape(alloc: Global, words: &mut Words) -> Result<Edit, Unread>
    ensures { Gives asked result (reshape_of words.old) }
{
    let id = word(words)?;
    let shape = shape(alloc, words)?;
    Ok(Edit::Reshape(text(alloc, id)?, shape))
}

#[tactic(auto, unfolding(crate::specs::EditLines::remove_of))]
fn remove(alloc: Global, words: &mut Words) -> Result<Edit, Unread>
    ensures { Gives asked result (remove_of words.old) }
{
    let id = word(words)?;
    end(words)?;
    Ok(Edit::Remove(text(alloc, id)?))
}

#[tactic(auto, unfolding(crate::specs::EditLines::priority_of))]
fn priority(alloc: Global, words: &mut Words) -> Result<Edit, Unread>
    ensures { Gives asked result (priority_of words.old) }
{
    let id = word(words)?;
    let priority = number(words)?;
    end(words)?;
    Ok(Edit::Priority(text(alloc, id)?, priority))
}

#[tactic(auto, unfolding(crate::specs::EditLines::parent_of))]
fn parent(alloc: Global, words: &mut Words) -> Result<Edit, Unread>
    ensures { Gives asked result (parent_of words.old) }
{
    let id = word(words)?;
    let parent = word(words)?;
    end(words)?;
    if parent == "*" {
        return Ok(Edit::Parent(text(alloc, id)?, None));
    }
    let id = text(alloc, id)?;
    Ok(Edit::Parent(id, Some(text(alloc, parent)?)))
}

#[tactic(auto, unfolding(crate::specs::EditLines::set_flag_of))]
fn set_flag(alloc: Global, words: &mut Words) -> Result<Edit, Unread>
    ensures { Gives asked result (set_flag_of words.old) }
{
    let id = word(words)?;
    let flag = flag(words)?;
    let state = state(words)?;
    let group = group_at_end(words)?;
    Ok(Edit::SetFlag(text(alloc, id)?, flag, Setting { state, group }))
}

#[tactic(auto, unfolding(crate::specs::EditLines::clear_flag_of))]
fn clear_flag(alloc: Global, words: &mut Words) -> Result<Edit, Unread>
    ensures { Gives asked result (clear_flag_of words.old) }
{
    let id = word(words)?;
    let flag = flag(words)?;
    end(words)?;
    Ok(Edit::ClearFlag(text(alloc, id)?, flag))
}

// Reads an id, and a name that is added to that roster there, or dropped from it.
#[tactic(auto, unfolding(crate::specs::EditLines::listed_of))]
fn listed(alloc: Global, roster: Roster, words: &mut Words) -> Result<Edit, Unread>
    ensures { Gives asked result (listed_of roster words.old) }
{
    let id = word(words)?;
    let listing = listing(words)?;
    let name = word(words)?;
    end(words)?;
    let id = text(alloc, id)?;
    Ok(Edit::listed(roster, id, listing, text(alloc, name)?))
}

#[tactic(auto, unfolding(crate::specs::EditLines::shape_of))]
fn shape(alloc: Global, words: &mut Words) -> Result<ShapeSpec, Unread>
    ensures { Gives written result (shape_of words.old) }
{
    let kind = word(words)?;
    shape_by(alloc, kind, words)
}

#[tactic(auto, unfolding(crate::specs::EditLines::shape_by))]
fn shape_by(alloc: Global, kind: &str, words: &mut Words) -> Result<ShapeSpec, Unread>
    ensures { Gives written result (shape_by kind.now words.old) }
{
    match kind {
        "cuboid" => cuboid(words),
        "polygon" => polygon(alloc, words),
        _ => Err(Unread::Faulty),
    }
}

#[tactic(auto, unfolding(crate::specs::EditLines::corners_of))]
fn cuboid(words: &mut Words) -> Result<ShapeSpec, Unread>
    ensures { Gives written result (corners_of words.old) }
{
    let a = corner(words)?;
    let b = corner(words)?;
    end(words)?;
    Ok(ShapeSpec::Cuboid(a, b))
}

#[tactic(auto, unfolding(crate::specs::EditLines::path_of))]
fn polygon(alloc: Global, words: &mut Words) -> Result<ShapeSpec, Unread>
    ensures { Gives written result (path_of words.old) }
{
    let low = number(words)?;
    let high = number(words)?;
    let points = points(alloc, words)?;
    Ok(ShapeSpec::Poly(points, low, high))
}

// Points to the end of the line.
fn points(alloc: Global, words: &mut Words) -> Result<Vec<(i32, i32)>, Unread>
    ensures { Gives (λ v. v.items) result (points_of words.old) }
{
    let mut points = Vec::new(alloc);
    while let Some(word) = words.next() {
        let Some(x) = read_i32(word) else {
            return Err(Unread::Faulty);
        };
        let Some(z) = coordinate(words) else {
            return Err(Unread::Faulty);
        };
        let Ok(()) = points.push((x, z)) else {
            return Err(Unread::NoMemory);
        };
    }
    Ok(points)
}

fn corner(words: &mut Words) -> Result<Pos, Unread>
    ensures { GivesWith (λ p. p) result words.new (position_at words.old) }
{
    position(words).ok_or(Unread::Faulty)
}

fn number(words: &mut Words) -> Result<i32, Unread>
    ensures { GivesWith (λ n. n) result words.new (coordinate_at words.old) }
{
    coordinate(words).ok_or(Unread::Faulty)
}

#[tactic(auto, unfolding(crate::specs::EditLines::flag_at))]
fn flag(words: &mut Words) -> Result<Flag, Unread>
    ensures { GivesWith (λ f. f) result words.new (flag_at words.old) }
{
    let word = word(words)?;
    Flag::read(word).ok_or(Unread::Faulty)
}

#[tactic(auto, unfolding(crate::specs::EditLines::state_at))]
fn state(words: &mut Words) -> Result<State, Unread>
    ensures { GivesWith (λ s. s) result words.new (state_at words.old) }
{
    let word = word(words)?;
    State::read(word).ok_or(Unread::Faulty)
}

// A group to the end of the line: all, where no word is left.
#[tactic(auto, unfolding(crate::specs::EditLines::group_at_end))]
fn group_at_end(words: &mut Words) -> Result<Group, Unread>
    ensures { Gives (λ g. g) result (group_at_end words.old) }
{
    let Some(word) = words.next_text() else {
        return Ok(Group::All);
    };
    let group = Group::read(word).ok_or(Unread::Faulty)?;
    end(words)?;
    Ok(group)
}

#[tactic(auto, unfolding(crate::specs::EditLines::listing_at))]
fn listing(words: &mut Words) -> Result<Listing, Unread>
    ensures { GivesWith (λ l. l) result words.new (listing_at words.old) }
{
    let word = word(words)?;
    listing_of(word).ok_or(Unread::Faulty)
}

#[tactic(auto, unfolding(crate::specs::EditLines::listing_of))]
fn listing_of(word: &str) -> Option<Listing>
    ensures { result ≡ listing_of word.now }
{
    match word {
        "add" => Some(Listing::Add),
        "drop" => Some(Listing::Drop),
        _ => None,
    }
}

fn word<'a>(words: &mut Words<'a>) -> Result<&'a str, Unread>
    ensures { GivesWith (λ word. word.now) result words.new (next_of words.old) }
{
    words.next_text().ok_or(Unread::Faulty)
}

// That no word is left.
fn end(words: &mut Words) -> Result<(), Unread>
    ensures { Gives (λ _. Ended) result (end_of words.old) }
{
    match words.next() {
        None => Ok(()),
        Some(_) => Err(Unread::Faulty),
    }
}

fn text(alloc: Global, word: &str) -> Result<String, Unread>
    ensures ok { IfOk result (λ text. string_bytes text ≡ word.now) }
    ensures err { IfErr result (λ unread. unread ≡ Unread.NoMemory) }
{
    String::from_str(alloc, word).map_err(|_| Unread::NoMemory)
}
