//! Laws of what `compare --explain` prints: it is what the order goes by, and compares as the versions do.

ghost use Rattle.std.specs.Prelude.{◌≡◌, ◌↔◌, ℕ, drop, IfSome, List, None, true};
ghost use Rattle.version_texts.specs.declared.order.difference.Difference.TheVariants as difference;
ghost use Rattle.version_texts.specs.declared.versioning_ref.field.Field.TheVariants as field;
ghost use Rattle.std.specs.{List.slice_get, Option.option_map, Option.option_map_or, Ordering.nat_cmp, Str.Parse.digits_value};
ghost use Rattle.version_answers.specs.Two.{part_at, tail_of};
ghost use Rattle.version_order.specs.texts.Front.{is_digits};
ghost use Rattle.version_rules.specs.{grammar.Mess.PlainMess, grammar.Versioning.Complex, grammar.Versioning.PlainVersioning, grammar.Versioning.SpellsVersioning, key.Key.key_of, key.Key.key_of_mess, key.Key.precedence, key.Key.Bare};
ghost use Rattle.version_rules.specs.key.PartKey.{part_cmp, part_key};
ghost use Rattle.version_texts.specs.{Key.sections_of, Key.tail_of_sections, Order.difference_of, VersioningRef.field_text};

// The part that is printed of a version, by its place, is the part that the order has there: the same number or word,
// counted from the same beginning. The word `nothing` stands for it exactly if the version has no such part. The epoch
// that is printed is digits of the value that the order goes by, which is 0 if the version has none to print.
//
// The word `nothing` stands for what follows the parts exactly if the order has nothing there. What is printed of a
// messy version holds, after its first byte, the sections that the order goes by.
//
// The epochs or parts that are printed where two versions differ first compare as the versions do: so the sign between
// them, which is that of the versions, is also theirs.
fn shown()
    ensures parts { (text : List ℕ) (v : PlainVersioning) → SpellsVersioning text v → (place : ℕ)
        → option_map part_key (part_at v place) ≡ slice_get (key_of v).body place }
    ensures digits { (text : List ℕ) (v : PlainVersioning) → SpellsVersioning text v
        → IfSome (field_text field.Epoch v) (λ shown. is_digits shown ≡ true) }
    ensures value { (text : List ℕ) (v : PlainVersioning) → SpellsVersioning text v
        → option_map_or (digits_value 10) (field_text field.Epoch v) 0 ≡ (key_of v).epoch }
    ensures none { (text : List ℕ) (v : PlainVersioning) → SpellsVersioning text v
        → (tail_of v ≡ None) ↔ ((key_of v).tail ≡ Bare) }
    ensures sections { (text : List ℕ) (m : PlainMess) → SpellsVersioning text (Complex m)
        → option_map_or (λ shown. tail_of_sections (sections_of (drop 1 shown)))
        (tail_of (Complex m)) Bare ≡ (key_of_mess m).tail }
    ensures epoch { (text other : List ℕ) (v w : PlainVersioning) → SpellsVersioning text v
        → SpellsVersioning other w → difference_of v w ≡ difference.Epoch
        → nat_cmp (option_map_or (digits_value 10) (field_text field.Epoch v) 0)
        (option_map_or (digits_value 10) (field_text field.Epoch w) 0)
        ≡ precedence (key_of v) (key_of w) }
    ensures part { (text other : List ℕ) (v w : PlainVersioning) → SpellsVersioning text v
        → SpellsVersioning other w → (place : ℕ) → difference_of v w ≡ difference.Part place
        → part_cmp (option_map part_key (part_at v place)) (option_map part_key (part_at w place))
        ≡ precedence (key_of v) (key_of w) }
{}
