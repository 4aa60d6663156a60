//! Laws of reports, for the crates that rest on them.
ghost use Rattle.std.specs.Prelude.{◌≡◌, ◌↔◌, List, [], Contains};
ghost use Rattle.std.specs.List.Sorted.{IsStrictlySortedBy};
ghost use Rattle.std.specs.Ordering.{nat_cmp};
ghost use Rattle.ix_base.specs.declared.breach.Breach.{Breach};
ghost use Rattle.ix_base.specs.declared.rule.Rule.{Rule};
ghost use Rattle.ix_base.specs.Breaches.{breach_cmp, report_of, rule_cmp, IsOfFirstClass};
ghost use Rattle.ix_base.specs.Once.{SameMembers};
ghost use Rattle.ix_base.specs.Rules.{rank_of};

/// The rules are in the order of the classes, and within a class in that of the numbers.
pub fn ordered_rules()
    ensures { (x y : Rule) → rule_cmp x y ≡ nat_cmp (rank_of x) (rank_of y) }
{}

/// A line of a report is a breach that was found, where none was found of an earlier class, and each such breach is a line.
/// The lines rise by page name, offset and rule, so that each breach stands once.
pub fn reported_lines()
    ensures lines { (bs : List Breach) (b : Breach) → Contains (report_of bs) b ↔ (Contains bs b × IsOfFirstClass bs b) }
    ensures rising { (bs : List Breach) → IsStrictlySortedBy breach_cmp (report_of bs) }
{}

/// The same breaches are reported alike, in whatever order and however often they were found.
pub fn same_report()
    ensures { (xs ys : List Breach) → SameMembers xs ys → report_of xs ≡ report_of ys }
{}

/// A report has no line exactly where no breach was found.
pub fn empty_report()
    ensures { (bs : List Breach) → (report_of bs ≡ []) ↔ (bs ≡ []) }
{}
