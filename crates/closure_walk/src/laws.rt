//! Laws of closures, needs and paths. Each function does nothing: its contract is the law.
ghost use Rattle.closure_walk.specs.Laws.{AncestorsAreChains, ClosureIsChains, ClosuresAreWhole, SameKeysSameNeed};
ghost use Rattle.closure_walk.specs.Ties.{RelatingIsPlain, KindPathIsRow, PropertyPathIsRow};
ghost use Rattle.closure_walk.specs.FacetRows.{FacetLooksAlongRows};
ghost use Rattle.closure_walk.specs.Table.{ClassificationPathIsRows, MaterialPathIsRows, PartOfPathIsRows};

/// A closure has what a chain of at most so many steps reaches.
pub fn closure_is_chains()
    ensures { ClosureIsChains }
{}

/// Where starts and steps lead to ids, longer chains than those of a closure reach nothing more.
pub fn closures_are_whole()
    ensures { ClosuresAreWhole }
{}

/// The ancestors of an id are what chains of one step up or more reach.
pub fn ancestors_are_chains()
    ensures { AncestorsAreChains }
{}

/// Keys in another order make the same need.
pub fn same_need()
    ensures { SameKeysSameNeed }
{}

/// The relating things are what the plain sentence says.
pub fn relating_is_plain()
    ensures { RelatingIsPlain }
{}

/// The path of types looks at the keys of its row.
pub fn kind_path_is_row()
    ensures { KindPathIsRow }
{}

/// The path of properties looks at the keys of its row.
pub fn property_path_is_row()
    ensures { PropertyPathIsRow }
{}

/// The path of classification looks at the keys of its rows.
pub fn classification_path_is_rows()
    ensures { ClassificationPathIsRows }
{}

/// The path of materials looks at the keys of its rows.
pub fn material_path_is_rows()
    ensures { MaterialPathIsRows }
{}

/// The path of what an element is part of looks at the keys of its row.
pub fn part_of_path_is_rows()
    ensures { PartOfPathIsRows }
{}

/// Each facet looks at the keys of its rows, whatever it finds.
pub fn facet_looks_along_rows()
    ensures { FacetLooksAlongRows }
{}
