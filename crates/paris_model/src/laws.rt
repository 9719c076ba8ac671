//! Laws of the definitions. Each function does nothing; what it ensures is the law.

ghost use Rattle.paris_model.specs.Laws.{LeavesOthers, RefusedReadsWrites, SameRecipeSameValue, StaysBelow, RefusalDependsOnReads, DependsOnReads, OneIsDirect, RefusedLeavesAll, RunIsDirect, LeavesUnstored, CombinedFit, CombinersCommute, CombinersAssociate, UnitsChangeNothing, ScanIsUncut, CopyScanIsUncut};

/// A plan leaves every key that it doesn't write.
pub fn leaves_others()
    ensures { LeavesOthers }
{}

/// A plan that is refused reads all that it writes, so that its result tells what stays there.
pub fn refused_reads_writes()
    ensures { RefusedReadsWrites }
{}

/// The same recipe gives the same numbers.
pub fn same_recipe_same_value()
    ensures { SameRecipeSameValue }
{}

/// A fit plan leaves one number for each processor at each key that it writes, and each fits the key.
pub fn stays_below()
    ensures { StaysBelow }
{}

/// What a plan does hangs on the numbers at the keys that it reads alone.
pub fn depends_on_reads()
    ensures refusal { RefusalDependsOnReads }
    ensures after { DependsOnReads }
{}

/// The world after a plan has what its instruction gives in the world before, or is that world where the plan is refused.
pub fn one_is_direct()
    ensures stores { OneIsDirect }
    ensures refused { RefusedLeavesAll }
{}

/// A run is the one in which each instruction sees the whole world, where plans and the numbers at the start fit.
pub fn run_is_direct()
    ensures { RunIsDirect }
{}

/// A processor that doesn't store keeps its number at each key that the plan writes.
pub fn leaves_unstored()
    ensures { LeavesUnstored }
{}

/// Each combiner combines numbers of its length to one of that length, in any order and grouping, and its unit changes none.
pub fn combiners_combine()
    ensures fit { CombinedFit }
    ensures commute { CombinersCommute }
    ensures associate { CombinersAssociate }
    ensures unit { UnitsChangeNothing }
{}

/// A segment field that is 1 nowhere cuts no scan.
pub fn no_segments_no_cuts()
    ensures scan { ScanIsUncut }
    ensures copy { CopyScanIsUncut }
{}
