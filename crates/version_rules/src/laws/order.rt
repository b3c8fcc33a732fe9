//! Laws of precedence and of the bytes of keys.
#![tactic(auto, using(crate::proofs::lemmas::Order::laws))]

ghost use Rattle.std.specs.Prelude.{ℕ, ◌≡◌, ◌↔◌, ◌∷◌, ◌++◌, List, Option};
ghost use Rattle.std.specs.{Cmp.IsTotalOrder, Ordering.ordering_then, declared.cmp.Ordering.TheVariants.Equal};
ghost use Rattle.version_order.specs.{keys.Codes.Writes, keys.Codes.list_bytes, keys.Lists.bytes_cmp, texts.Grammar.PlainSep};
ghost use Rattle.version_rules.specs.key.Key.{Key, key_of, key_of_semver, key_of_version, precedence, sections_tail, key_bytes, Tail, section_bytes, sections_cmp, tail_bytes, tail_cmp};
ghost use Rattle.version_rules.specs.grammar.{MChunk.PlainMChunk, Mess.mess_plain_cmp, Mess.PlainMess, SemVer.PlainSemVer, Version.PlainVersion, Versioning.versioning_plain_cmp, Versioning.PlainVersioning, Versioning.SameVersioning};
ghost use Rattle.version_rules.specs.{key.PartKey.PartKey, key.Texts.AreBytes, key.Texts.key_text, key.Texts.texts_of, order.Kinds.semver_cmp, order.Kinds.SameButMetadata, order.Kinds.version_plain_cmp};
ghost use Rattle.version_rules.specs.{order.Orders.mess_cmp, order.Orders.version_cmp, order.Orders.versioning_cmp, worked.Keys.WorkedKeys};

// The order of messy sections is total, and Equal only for the same sections. Their bytes compare alike.
fn sections_order()
    ensures total { IsTotalOrder sections_cmp }
    ensures same { (a b : List (List PartKey)) → (sections_cmp a b ≡ Equal) ↔ (a ≡ b) }
    ensures bytes { Writes sections_cmp (list_bytes section_bytes) }
{}

// The order of tails is total, and Equal only for the same tail. Their bytes compare alike.
fn tail_order()
    ensures total { IsTotalOrder tail_cmp }
    ensures same { (a b : Tail) → (tail_cmp a b ≡ Equal) ↔ (a ≡ b) }
    ensures bytes { Writes tail_cmp tail_bytes }
{}

// Precedence is total: it compares every two keys, swapping reverses it, and it is transitive, Equal included. It is
// Equal only for the same key.
fn precedence_order()
    ensures total { IsTotalOrder precedence }
    ensures same { (k l : Key) → (precedence k l ≡ Equal) ↔ (k ≡ l) }
{}

// The bytes of two keys compare as precedence does, whatever bytes follow them. If precedence is Equal, they compare
// as what follows. So the bytes alone compare as precedence does, and are the same exactly if precedence is Equal.
// What follows two different keys does not change their order, and no key is a prefix of a different one.
fn key_bytes_order()
    ensures followed { (k l : Key) (x y : List ℕ)
        → bytes_cmp (key_bytes k ++ x) (key_bytes l ++ y)
        ≡ ordering_then (precedence k l) (bytes_cmp x y) }
    ensures alone { (k l : Key) → bytes_cmp (key_bytes k) (key_bytes l) ≡ precedence k l }
    ensures canonical { (k l : Key) → (key_bytes k ≡ key_bytes l) ↔ (precedence k l ≡ Equal) }
    ensures apart { (k l : Key) (x y : List ℕ) → ¬ (precedence k l ≡ Equal)
        → bytes_cmp (key_bytes k ++ x) (key_bytes l ++ y) ≡ precedence k l }
    ensures no_prefix { (k l : Key) (x y : List ℕ) → key_bytes k ++ x ≡ key_bytes l ++ y → k ≡ l }
{}

// The order of strict versions is total, and Equal only for versions that are the same except for metadata.
fn strict_order()
    ensures total { IsTotalOrder semver_cmp }
    ensures same { (a b : PlainSemVer) → (semver_cmp a b ≡ Equal) ↔ SameButMetadata a b }
{}

// The plain orders of general and of messy versions are total, and Equal only for the same version. So is the plain
// order of versions of any kind, except that it ignores metadata of strict ones.
fn plain_orders()
    ensures general { IsTotalOrder version_plain_cmp }
    ensures same_general { (a b : PlainVersion) → (version_plain_cmp a b ≡ Equal) ↔ (a ≡ b) }
    ensures messy { IsTotalOrder mess_plain_cmp }
    ensures same_messy { (a b : PlainMess) → (mess_plain_cmp a b ≡ Equal) ↔ (a ≡ b) }
    ensures any { IsTotalOrder versioning_plain_cmp }
    ensures same_any { (a b : PlainVersioning)
        → (versioning_plain_cmp a b ≡ Equal) ↔ SameVersioning a b }
{}

// The orders of general versions, of messy ones and of any kind compare by key, then field by field. They are total,
// and Equal only for the same version, except that the order of any kind ignores metadata of strict ones. That order
// refines precedence.
fn version_orders()
    ensures general { IsTotalOrder version_cmp }
    ensures same_general { (a b : PlainVersion) → (version_cmp a b ≡ Equal) ↔ (a ≡ b) }
    ensures messy { IsTotalOrder mess_cmp }
    ensures same_messy { (a b : PlainMess) → (mess_cmp a b ≡ Equal) ↔ (a ≡ b) }
    ensures any { IsTotalOrder versioning_cmp }
    ensures same_any { (a b : PlainVersioning) → (versioning_cmp a b ≡ Equal) ↔ SameVersioning a b }
    ensures refines { (a b : PlainVersioning) → ¬ (precedence (key_of a) (key_of b) ≡ Equal)
        → versioning_cmp a b ≡ precedence (key_of a) (key_of b) }
{}

// On strict versions precedence is the order of strict versions.
fn precedence_of_strict_versions()
    ensures { (a b : PlainSemVer)
        → precedence (key_of_semver a) (key_of_semver b) ≡ semver_cmp a b }
{}

// Every byte of a key is below 256 if the bytes of the texts of the key are, or those of the version.
fn key_bytes_below_256()
    ensures keys { (k : Key) → AreBytes (key_text k) → AreBytes (key_bytes k) }
    ensures versions { (v : PlainVersioning) → AreBytes (texts_of v)
        → AreBytes (key_bytes (key_of v)) }
{}

// Metadata is not in a key, nor are the signs before the sections of its tail.
fn not_looked_at()
    ensures strict { (v : PlainSemVer) (meta : Option (List ℕ))
        → key_of_semver (record v { meta = meta }) ≡ key_of_semver v }
    ensures general { (v : PlainVersion) (meta : Option (List ℕ))
        → key_of_version (record v { meta = meta }) ≡ key_of_version v }
    ensures signs { (sign other : PlainSep) (section : List PlainMChunk) (more : List (PlainSep
        × List PlainMChunk))
        → sections_tail ((sign, section) ∷ more) ≡ sections_tail ((other, section) ∷ more) }
{}

// The keys of versions of every kind, byte by byte.
fn worked_keys()
    ensures { WorkedKeys }
{}
