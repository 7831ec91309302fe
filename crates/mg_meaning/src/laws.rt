//! The laws of the definitions: each function states one as its contract and does nothing.

ghost use Rattle.mg_meaning.specs.Laws.{OrdersSets, OrdersInstances, RisingIsUnique, LeastIsUnique, SatisfiesWhereSaturated, MinimalListIsUnique, IsHerbrandModel, MinimalAreModels, InstancesExclude, InstancesCover, SatisfyingIsDecided, IncludesMinimal, CoveringNoneRefutes};
ghost use Rattle.mg_meaning.specs.FoldingLaws.{FoldExcludes, LeavesExclude, FoldApplies, LeavesApply};
ghost use Rattle.mg_meaning.specs.PlainLaws.{PlainIsUnique, PlainByTable, HeavyHasNoPlain, PlainCovers, PlainIncludes, BoundIsEnough, FunctionFreeIsEnough};
ghost use Rattle.mg_meaning.specs.MatchLaws.{MatchesAreExact, MatchesGrow, MatchesAreCounted};

/// The order of sets is total, and only equal sets tie.
pub fn sets_are_ordered()
    ensures { OrdersSets }
{}

/// The order of instances is total, and only equal instances of a problem tie.
pub fn instances_are_ordered()
    ensures { OrdersInstances }
{}

/// Two rising lists with the same literals are equal.
pub fn rising_list_is_unique()
    ensures { RisingIsUnique }
{}

/// A branch has at most one least violated instance, and none where it is saturated.
pub fn least_violated_is_unique()
    ensures { LeastIsUnique }
{}

/// A set satisfies a problem exactly where it is clash free, over the problem's symbols and saturated.
pub fn satisfying_is_saturated()
    ensures { SatisfiesWhereSaturated }
{}

/// At most one list has exactly the minimal sets of a problem.
pub fn minimal_list_is_unique()
    ensures { MinimalListIsUnique }
{}

/// The positive literals of a satisfying set are a Herbrand model of the clauses.
pub fn satisfying_is_herbrand_model()
    ensures { IsHerbrandModel }
{}

/// Without items that choose conclusions the minimal sets are exactly the minimal finite Herbrand models.
pub fn minimal_sets_are_minimal_models()
    ensures { MinimalAreModels }
{}

/// What instances of a problem exclude, no satisfying set passes.
pub fn instances_exclude()
    ensures { InstancesExclude }
{}

/// Where instances of a problem cover, each satisfying set includes one of the sets.
pub fn instances_cover()
    ensures { InstancesCover }
{}

/// Where instances of a problem cover nothing, the instances of their clauses refute it.
pub fn covering_none_refutes()
    ensures { CoveringNoneRefutes }
{}

/// The pair folded from the children's pairs excludes where each of those does.
pub fn folded_pair_excludes()
    ensures { FoldExcludes }
{}

/// The pair of a rejection excludes by its instance, that of a clash and of a barred literal always.
pub fn leaf_pair_excludes()
    ensures { LeavesExclude }
{}

/// Where the premises are held and each child's pair applies at its child, the folded pair applies.
pub fn folded_pair_applies()
    ensures { FoldApplies }
{}

/// The pairs of a rejection, a clash and a barred literal apply where they come from.
pub fn leaf_pair_applies()
    ensures { LeavesApply }
{}

/// The plain tree has at most one number of extensions.
pub fn plain_tree_is_unique()
    ensures { PlainIsUnique }
{}

/// The list of prefix matches has exactly the prefix matches, each once where no literal stands twice.
pub fn matches_are_exact()
    ensures { MatchesAreExact }
{}

/// One literal more keeps all prefix matches and adds exactly those that use it.
pub fn matches_grow()
    ensures { MatchesGrow }
{}

/// With a new literal the prefix matches are, up to order, the old ones and those that use it.
pub fn new_matches_are_counted()
    ensures { MatchesAreCounted }
{}

/// Whether a set satisfies a problem, and whether it is minimal, are decided by tests.
pub fn satisfying_is_decided()
    ensures { SatisfyingIsDecided }
{}

/// Each satisfying set includes a minimal one.
pub fn satisfying_includes_minimal()
    ensures { IncludesMinimal }
{}

/// The number of extensions of the plain tree goes by its table, read both ways.
pub fn plain_tree_goes_by_its_table()
    ensures { PlainByTable }
{}

/// The plain tree has no number of extensions where the least violated instance is too heavy.
pub fn heavy_has_no_plain_tree()
    ensures { HeavyHasNoPlain }
{}

/// A clash-free set that obeys the instances of a plain tree and passes its root includes the literals of a saturated node.
pub fn plain_tree_covers()
    ensures { PlainCovers }
{}

/// A satisfying set that passes a node includes the literals of a saturated node of the plain tree from there.
pub fn plain_tree_includes_saturated()
    ensures { PlainIncludes }
{}

/// Where light ground instances refute, the plain tree has at most the bound's number of extensions.
pub fn bound_is_enough()
    ensures { BoundIsEnough }
{}

/// Without functions the plain tree has at most the bound's number of extensions.
pub fn function_free_is_enough()
    ensures { FunctionFreeIsEnough }
{}
