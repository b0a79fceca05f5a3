//! Laws of edits: what removals, stores of names and nodes that are made leave of a filestore.
ghost use Rattle.fx_laws.specs.Created.{CreationsAreUndone};
ghost use Rattle.fx_laws.specs.Edited.{RemovalsRemove, StoresRelist, StoresMake, CreationsMake};

/// A removal that is not refused leaves the filestore without the entry where the place's own path lands and without all
/// below it; the directory above lists its other names, and any other path keeps its node.
pub fn a_removal_leaves_the_rest()
    ensures { RemovalsRemove }
{}

/// A store of names that is not refused leaves the directory with just these, in ascending order: each new one an empty
/// file, each dropped one gone with all below; any other path keeps its node.
pub fn a_store_of_names_relists_a_directory()
    ensures { StoresRelist }
{}

/// A store or a creation where the place's path lands at missing names, and that is not refused, leaves the node there; the
/// directory lists the first of the names besides, and any path that is not within it keeps its node.
pub fn a_missing_node_is_made()
    ensures store { StoresMake }
    ensures create { CreationsMake }
{}

/// A creation that makes no directories above its node is undone by a removal, which is not refused: each path has then what
/// it had at first.
pub fn a_creation_is_undone_by_a_removal()
    ensures { CreationsAreUndone }
{}
