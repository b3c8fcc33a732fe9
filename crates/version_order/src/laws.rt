//! Laws of how far a text could become a version. Each is the contract of a function that does nothing.

ghost use Rattle.std.specs.Prelude.{◌≡◌, ◌++◌, Bool, List, length, true, ℕ};
ghost use Rattle.version_order.specs.Viable.{IsLongestViable, IsViable};

// One length alone is that of the longest viable beginning: the whole one, if the text passes.
fn lengths()
    ensures one { (test : List ℕ → Bool) (text : List ℕ) (n m : ℕ) → IsLongestViable test text n
        → IsLongestViable test text m → n ≡ m }
    ensures whole { (test : List ℕ → Bool) (text : List ℕ) (n : ℕ) → test text ≡ true → IsLongestViable test text n
        → n ≡ length text }
{}

// What a viable text begins with is viable.
fn beginnings()
    ensures { (test : List ℕ → Bool) (begun more : List ℕ) → IsViable test (begun ++ more) → IsViable test begun }
{}
