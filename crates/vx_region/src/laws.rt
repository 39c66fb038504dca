ghost use Rattle.vx_region.specs.Laws.{AncestryIsWhole, NoCycles, ParentsAreThere, RemovedIsGone, RemovalKeepsOthers, RemovalKeepsLast, EachHasItsNumber, DefinedIsFresh, DefinitionKeepsOthers, DefinedIsFound, DefinitionKeepsIds, NameIsAdded, AddingKeepsOthers, NameIsDropped, DroppingKeepsOthers, ChangeIsThere, ChangeKeepsOthers, FlagIsSet, FlagKeepsOthers, IdFindsItsRegion, RemovalFreesTheId, RemovalKeepsIds, StrangerAtLarge, ChangeKeepsTheWorld, DefinitionKeepsTheWorld, RemovalKeepsTheWorld, FlagKeepsTheWorld};

/// The region at a place in order of number is the region of the number there.
pub fn each_has_its_number()
    ensures { EachHasItsNumber }
{}

/// The id of a region leads to its number.
pub fn id_finds_its_region()
    ensures { IdFindsItsRegion }
{}

/// A definition adds one region, under a new number and a free id, and changes no other.
pub fn definition_adds_one()
    ensures fresh { DefinedIsFresh }
    ensures others { DefinitionKeepsOthers }
    ensures found { DefinedIsFound }
    ensures ids { DefinitionKeepsIds }
{}

/// Naming an owner, a member or a domain adds that one name to that list of that one region.
pub fn name_is_added()
    ensures added { NameIsAdded }
    ensures others { AddingKeepsOthers }
{}

/// The ancestry of a region is the region itself and then the whole ancestry of its parent: no walk
/// up ends too early.
pub fn ancestry_is_whole()
    ensures { AncestryIsWhole }
{}

/// No region is its own ancestor.
pub fn no_cycles()
    ensures { NoCycles }
{}

/// The parent of a region is a region of the set.
pub fn parents_are_there()
    ensures { ParentsAreThere }
{}

/// A removal takes away that one region and no other. Its id is free again, and its number is not
/// given again.
pub fn removal_takes_one()
    ensures gone { RemovedIsGone }
    ensures others { RemovalKeepsOthers }
    ensures last { RemovalKeepsLast }
    ensures id { RemovalFreesTheId }
    ensures ids { RemovalKeepsIds }
{}

/// Dropping an owner, a member or a domain takes that one name out of that list of that one region.
pub fn name_is_dropped()
    ensures dropped { NameIsDropped }
    ensures others { DroppingKeepsOthers }
{}

/// A change of one region leaves every other as it was.
pub fn one_region_changes()
    ensures there { ChangeIsThere }
    ensures others { ChangeKeepsOthers }
{}

/// Setting a flag, or leaving it unset, changes that flag of that region or of the world at large,
/// and no other.
pub fn one_setting_changes()
    ensures set { FlagIsSet }
    ensures others { FlagKeepsOthers }
{}

/// Everyone is a stranger to the world at large.
pub fn stranger_at_large()
    ensures { StrangerAtLarge }
{}

/// What is done to a region leaves the flags of the world at large as they were.
pub fn world_at_large_is_kept()
    ensures change { ChangeKeepsTheWorld }
    ensures definition { DefinitionKeepsTheWorld }
    ensures removal { RemovalKeepsTheWorld }
    ensures flag { FlagKeepsTheWorld }
{}
