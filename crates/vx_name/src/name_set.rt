ghost use Rattle.std.specs.Prelude.{◌≡◌, [], true, false, bytes_eq, IfOk, OnOk, OnErr};
ghost use Rattle.std.specs.Arc.{arc_value};
ghost use Rattle.std.specs.List.{list_any};
ghost use Rattle.vx_name.specs.Names.{names, names_with, names_without};
ghost use Rattle.vx_name.specs.Names.{same_names};
ghost use Rattle.vx_name.specs.Texts.{texts};

use crate::name::Name;
use indexmap::IndexSet;
use std::alloc::{AllocError, Global};
use std::marker::Model;
use std::sync::Arc;

/// Up to so many names are compared one by one.
const FEW: usize = 8;

/// Names in the order in which they were added, each once. Copies share them until one of them is
/// changed, and then all of its names are copied.
#[derive(Drop)]
pub struct NameSet {
    alloc: Global,
    // `None` until there is a name, since an `Arc` takes memory.
    names: Option<Arc<IndexSet<Name>>>,
}

impl Model for NameSet {
    ghost use Rattle.std.specs.Prelude.{List, [], ℕ};
    ghost use Rattle.std.specs.Arc.{arc_value};
    ghost use Rattle.std.specs.Option.{option_map_or};
    ghost use Rattle.indexmap.specs.IndexSet.{IndexSet as Names};
    ghost use Rattle.vx_name.specs.Texts.{texts};
    ghost use Rattle.vx_name.specs.declared.name.Name.{Name as AnyName};

    ghost Value = { List (List ℕ) };

    ghost view = { λ a. option_map_or
        (λ n. texts (arc_value {X = Names AnyName _} n).keys) a.names [] };
}

impl NameSet {
    /// No names. It takes no memory.
    pub fn new(alloc: Global) -> NameSet
        ensures { result ≡ [] }
    {
        NameSet { alloc, names: None }
    }

    /// The names, in the order in which they were added.
    pub fn as_slice(&self) -> &[Name]
        ensures { texts result.now ≡ self.now }
    {
        match &self.names {
            Some(names) => names.as_slice(),
            None => &[],
        }
    }

    /// Whether the name is among them. Few are looked at one by one, which costs less than to look
    /// it up.
    #[tactic(auto, using(crate::proofs::NameLemmas::names_texts))]
    pub fn has(&self, name: &Name) -> bool
        ensures { result ≡ names self.now name.now.text.bytes }
    {
        let Some(names) = &self.names else {
            return false;
        };
        if FEW < names.len() {
            return names.contains(name);
        }
        is_one_of(names.as_slice(), name)
    }

    /// Adds a name. One that is there already stays where it is, and needs no room.
    pub fn add(&mut self, name: Name) -> Result<(), AllocError>
        ensures ok { OnOk result (self.new ≡ names_with self.old name.text.bytes) }
        ensures err { OnErr result (self.new ≡ self.old) }
        ensures absent { OnErr result (names self.old name.text.bytes ≡ false) }
    {
        if self.has(&name) {
            return Ok(());
        }
        match &mut self.names {
            Some(shared) => put(shared, name),
            None => {
                self.names = Some(first(self.alloc, name)?);
                Ok(())
            }
        }
    }

    /// Takes a name away. Nothing changes where it is not there, and that needs no room.
    pub fn remove(&mut self, name: &Name) -> Result<(), AllocError>
        ensures ok { OnOk result (self.new ≡ names_without self.old name.now.text.bytes) }
        ensures err { OnErr result (self.new ≡ self.old) }
        ensures there { OnErr result (names self.old name.now.text.bytes ≡ true) }
    {
        if !self.has(name) {
            return Ok(());
        }
        match &mut self.names {
            Some(shared) => take_out(shared, name),
            None => Ok(()),
        }
    }

    /// Whether both have the same names in the same order.
    pub fn is_same(&self, other: &NameSet) -> bool
        ensures { result ≡ same_names self.now other.now }
    {
        same_names(self.as_slice(), other.as_slice())
    }
}

impl Clone for NameSet {
    ghost is_clone = { λ names copy. copy ≡ names };

    fn clone(&self) -> Result<NameSet, AllocError> {
        let Some(names) = &self.names else {
            return Ok(NameSet::new(self.alloc));
        };
        Ok(NameSet {
            alloc: self.alloc,
            names: Some(Arc::try_clone(names)?),
        })
    }
}

// Puts a name behind those that copies may share.
fn put(shared: &mut Arc<IndexSet<Name>>, name: Name) -> Result<(), AllocError>
    ensures ok { OnOk result (texts (arc_value shared.new).keys
        ≡ names_with (texts (arc_value shared.old).keys) name.text.bytes) }
    ensures err { OnErr result ((arc_value shared.new).keys ≡ (arc_value shared.old).keys) }
{
    add_to(Arc::make_mut(shared)?, name)
}

// Puts a name among these, once.
fn add_to(these: &mut IndexSet<Name>, name: Name) -> Result<(), AllocError>
    ensures ok { OnOk result
        (texts these.new.keys ≡ names_with (texts these.old.keys) name.text.bytes) }
    ensures err { OnErr result (these.new.keys ≡ these.old.keys) }
{
    let _added = these.insert(name)?;
    Ok(())
}

// Takes a name out of those that copies may share.
fn take_out(shared: &mut Arc<IndexSet<Name>>, name: &Name) -> Result<(), AllocError>
    ensures ok { OnOk result (texts (arc_value shared.new).keys
        ≡ names_without (texts (arc_value shared.old).keys) name.now.text.bytes) }
    ensures err { OnErr result ((arc_value shared.new).keys ≡ (arc_value shared.old).keys) }
{
    drop_from(Arc::make_mut(shared)?, name);
    Ok(())
}

// Takes a name out of these, if it is there.
fn drop_from(these: &mut IndexSet<Name>, name: &Name)
    ensures { texts these.new.keys ≡ names_without (texts these.old.keys) name.now.text.bytes }
{
    // The length is read since it says that no name is there twice.
    let _count = these.len();
    let _dropped = these.shift_remove(name);
}

// The first name alone.
fn first(alloc: Global, name: Name) -> Result<Arc<IndexSet<Name>>, AllocError>
    ensures { IfOk result (λ shared.
        texts (arc_value shared).keys ≡ names_with [] name.text.bytes) }
{
    let mut names = IndexSet::new(alloc);
    add_to(&mut names, name)?;
    Ok(Arc::new(alloc, names)?)
}

// Whether the name is one of these, which are looked at one by one.
fn is_one_of(these: &[Name], name: &Name) -> bool
    ensures { result ≡ list_any (λ k. bytes_eq name.now.text.bytes k.text.bytes) these.now }
{
    for other in these {
        if name == other {
            return true;
        }
    }
    false
}

// Whether both are the same names in the same order.
#[tactic(auto, unfolding(crate::specs::Names::same_names))]
fn same_names(these: &[Name], those: &[Name]) -> bool
    ensures { result ≡ same_names (texts these.now) (texts those.now) }
{
    these == those
}
