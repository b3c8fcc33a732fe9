//! Laws of matching.

ghost use Rattle.std.specs.Prelude.{◌⊎◌, ◌↔◌, IsTrue, List};
ghost use Rattle.version_rules.specs.{grammar.Versioning.PlainVersioning, requirement.Matching.MatchesAll, requirement.Range.inexact_members, requirement.Range.IsIn, requirement.Range.range_of, requirement.Requirement.PlainRequirement};
ghost use Rattle.version_rules.specs.worked.Ranges.{WorkedRanges};

// A list of requirements matches a version or does not. Each version that it matches is in its range. If the range is
// exact, the list matches each version in it. Otherwise the members that need not match each version in their range
// decide.
fn ranges()
    ensures told { (list : List PlainRequirement) (v : PlainVersioning)
        → MatchesAll list v ⊎ (¬ (MatchesAll list v)) }
    ensures within { (list : List PlainRequirement) (v : PlainVersioning)
        → MatchesAll list v → IsIn (range_of list) v }
    ensures exact { (list : List PlainRequirement) (v : PlainVersioning)
        → IsTrue (range_of list).is_exact → IsIn (range_of list) v → MatchesAll list v }
    ensures inexact { (list : List PlainRequirement) (v : PlainVersioning)
        → IsIn (range_of list) v → MatchesAll list v ↔ MatchesAll (inexact_members list) v }
{}

// The ranges of lists with every operator and kind, byte by byte.
#[tactic(auto, using(crate::proofs::lemmas::Worked::worked_ranges))]
fn worked_ranges()
    ensures { WorkedRanges }
{}
