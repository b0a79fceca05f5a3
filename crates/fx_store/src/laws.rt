//! Laws of the definitions that the contracts of this crate and of those above it cite. Each stands on a function that does
//! nothing, so that it is proved with the crate.
ghost use Rattle.fx_store.specs.Whole.{Store};
ghost use Rattle.fx_store.specs.Rule.{Ask, Known, AgreesWith, FollowedAt, follow, DependsOnAsked};
ghost use Rattle.fx_store.specs.Landings.{LandsByTheRules, LandingsAreTrue, LandingDependsOnLooks};
ghost use Rattle.fx_store.specs.Examples.{ResolveExamples};
ghost use Rattle.fx_store.specs.Relisted.{RelistingKeepsWhole};

/// What a rule answers and what it consults depends on nothing but what is at the paths that it consulted.
pub fn a_rule_depends_on_what_it_asked<T>()
    ensures { (rule : Ask T) → DependsOnAsked rule }
{}

/// A rule that is followed over what is known of some paths finds what it answers at each filestore that agrees with that;
/// or it needs the first path that it consults there and of which nothing is known.
pub fn following_a_rule_finds_its_answer<T>()
    ensures { (known own : Known) (rule : Ask T) (S : Store) → AgreesWith known S
        → FollowedAt known own rule S (follow known own rule) }
{}

/// A path lands where the rules of resolution, taken one by one, lead from the root.
pub fn paths_land_by_the_rules()
    ensures { LandsByTheRules }
{}

/// What is landed at is there. The directory of an absent landing is there, and has no entry of the first missing name.
pub fn landings_are_true()
    ensures { LandingsAreTrue }
{}

/// The landing of a path, and the paths looked at on the way, depend on nothing but what is at those paths.
pub fn a_landing_depends_on_its_looks()
    ensures { LandingDependsOnLooks }
{}

/// Where paths land in a filestore with an empty directory, an empty file and a link.
pub fn resolution_examples()
    ensures { ResolveExamples }
{}

/// A whole filestore stays whole where a directory lists other names: a new entry is a node that lists nothing, and a
/// dropped one goes with all that is below it.
pub fn relisting_a_directory_keeps_the_filestore_whole()
    ensures { RelistingKeepsWhole }
{}
