//! Laws of the output of `sort`, and of the lines that are kept.

ghost use Rattle.std.specs.Prelude.{ℕ, ◌≡◌, true, take, Bool, List};
ghost use Rattle.std.specs.{Cmp.IsTotalOrder, List.filter, List.Sorted.IsPermutation, List.Sorted.IsSorted, List.Sorted.IsStable, Option.option_cmp, Ordering.eq_by_cmp, Ordering.on};
ghost use Rattle.version_lines.specs.Sort.{lines_cmp, lines_precedence, Reads, in_order, turned};
ghost use Rattle.version_lines.specs.Newest.{are_of_one_group, first_of_ties, newest};
ghost use Rattle.version_rules.specs.{grammar.Versioning.versioning_of, order.Orders.versioning_cmp};
ghost use Rattle.version_schemes.specs.declared.scheme.Scheme.TheVariants.{Mixed};

// The list in order, or in reverse, has the same lines, no line is below the line before it, and lines that compare
// Equal keep their order. Only one list has these properties, so every stable sort by the versions of the lines returns
// it. Lines whose versions are of the scheme mixed compare as the versions that their texts parse as.
//
// Of the lines that tie with a line the first is kept, and of the lines of its group the first so many once these are
// sorted with the newest first.
fn sorting()
    ensures total { (reversed : Bool) (reads : Reads)
        → IsTotalOrder (turned reversed (lines_cmp reads)) }
    ensures same { (reversed : Bool) (reads : Reads) (lines : List (List ℕ))
        → IsPermutation lines (in_order (turned reversed (lines_cmp reads)) lines) }
    ensures sorted { (reversed : Bool) (reads : Reads) (lines : List (List ℕ))
        → IsSorted (turned reversed (lines_cmp reads))
        (in_order (turned reversed (lines_cmp reads)) lines) }
    ensures stable { (reversed : Bool) (reads : Reads) (lines : List (List ℕ))
        → IsStable (turned reversed (lines_cmp reads)) lines
        (in_order (turned reversed (lines_cmp reads)) lines) }
    ensures only { (reversed : Bool) (reads : Reads) (lines others : List (List ℕ))
        → IsSorted (turned reversed (lines_cmp reads)) others
        → IsStable (turned reversed (lines_cmp reads)) lines others
        → others ≡ in_order (turned reversed (lines_cmp reads)) lines }
    ensures mixed { (text_of : List ℕ → List ℕ) (one other : List ℕ)
        → lines_cmp (record { scheme = Mixed; text_of = text_of }) one other
        ≡ on text_of (on versioning_of (option_cmp versioning_cmp)) one other }
    ensures ties { (reversed : Bool) (reads : Reads) (lines : List (List ℕ))
        (line : List ℕ)
        → filter (eq_by_cmp (lines_precedence reads) line) (first_of_ties reversed reads lines)
        ≡ take 1 (filter (eq_by_cmp (lines_precedence reads) line) lines) }
    ensures newest { (count : ℕ) (group_of : List ℕ → List ℕ) (reads : Reads) (lines : List (List ℕ))
        (line : List ℕ)
        → filter (are_of_one_group group_of line) (newest count group_of reads lines)
        ≡ take count (in_order (turned true (lines_precedence reads))
        (filter (are_of_one_group group_of line) lines)) }
{}
