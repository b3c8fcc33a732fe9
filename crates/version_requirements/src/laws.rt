//! Laws of empty ranges.

ghost use Rattle.std.specs.Prelude.{◌≡◌, ℕ, List, Some};
ghost use Rattle.version_rules.specs.{grammar.Versioning.PlainVersioning, requirement.Matching.MatchesAll, requirement.Range.range_of, requirement.Range.IsIn, requirement.Range.PlainRange, requirement.Requirement.PlainRequirement};
ghost use Rattle.version_rules.specs.requirement.Requirements.{requirements_of};
ghost use Rattle.version_requirements.specs.{Requirement.ExcludeEachOther, declared.conflict.Conflict.Conflict};
ghost use Rattle.version_requirements.specs.Range.{IsEmpty};

// No version is in an empty range. So a list whose range is empty matches none, nor does a list two of whose members
// exclude each other.
fn empty_ranges()
    ensures within { (range : PlainRange) (v : PlainVersioning) → IsEmpty range → ¬ (IsIn range v) }
    ensures lists { (list : List PlainRequirement) (v : PlainVersioning) → IsEmpty (range_of list)
        → ¬ (MatchesAll list v) }
    ensures two { (text : List ℕ) (conflict : Conflict) (list : List PlainRequirement) (v : PlainVersioning)
        → ExcludeEachOther text conflict → requirements_of text ≡ Some list → ¬ (MatchesAll list v) }
{}
