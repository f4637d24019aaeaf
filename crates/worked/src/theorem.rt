//! Cases worked out from the definitions.

ghost use Rattle.worked.specs.Worked.{WorkedCases};

/// What the definitions give at the cases of this crate: where formulas hold and whether an act is applicable in
/// the example's start, the lines of the example, of sheets that differ from it in one thing and of a small table, how
/// many places the example needs, and where its search stands after each of a few quotas.
///
/// Its contract is the theorem; it answers nothing.
pub fn worked_cases()
    ensures { WorkedCases }
{}
