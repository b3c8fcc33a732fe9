//! Laws of the definitions, and rows that were worked out by hand.

ghost use Rattle.std.specs.Prelude.{◌≡◌, ℕ, List, Option};
ghost use Rattle.version_rules.specs.grammar.Versioning.{PlainVersioning};
ghost use Rattle.version_tasks.specs.{Next.IsNext, NextPre.IsNextPre, Worked.WorkedRows};

/// The tables of tags, of tags with prefixes, of stabilities, and of what comes next.
#[tactic(auto, using(crate::proofs::lemmas::Worked::worked_rows))]
fn worked_rows()
    ensures { WorkedRows }
{}

/// At most one version comes next after another at a place.
#[tactic(auto, using(crate::proofs::lemmas::Next::Order::one_next))]
fn one_next()
    ensures { (v w u : PlainVersioning) (place : ℕ) → IsNext v place w → IsNext v place u → w ≡ u }
{}

/// At most one pre-release comes next after another version.
fn one_next_pre()
    ensures { (v w u : PlainVersioning) (word : Option (List ℕ)) → IsNextPre v word w
        → IsNextPre v word u → w ≡ u }
{}
