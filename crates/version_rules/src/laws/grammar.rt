//! Laws of the grammars: parsing meets them, a text spells at most one value, and the value prints the text.

ghost use Rattle.std.specs.Prelude.{◌≡◌, ◌↔◌, [], List, Some, ℕ};
ghost use Rattle.std.specs.Str.{IsAscii};
ghost use Rattle.version_rules.specs.grammar.Mess.{mess_front, mess_of, mess_text, PlainMess, SpellsMess};
ghost use Rattle.version_rules.specs.grammar.SemVer.{semver_front, semver_of, semver_text, PlainSemVer, SpellsSemVer};
ghost use Rattle.version_rules.specs.grammar.Version.{version_front, version_of, version_text, PlainVersion, SpellsVersion};
ghost use Rattle.version_rules.specs.grammar.{Conversions.version_of_semver, MChunk.EndsChunk, Versioning.versioning_of, Versioning.versioning_text, Versioning.PlainVersioning, Versioning.SpellsVersioning};
ghost use Rattle.version_rules.specs.requirement.Requirement.{requirement_of, requirement_text, PlainRequirement, SpellsRequirement};
ghost use Rattle.version_rules.specs.requirement.Requirements.{requirements_of, requirements_text, SpellsRequirements};
ghost use Rattle.version_order.specs.texts.Grammar.{IsKept, IsPrinted, IsSound, IsSoundBefore};

// A text parses as a version without rest exactly if it spells that version. A prefix spells the version that it
// parses as, whatever the rest. A text spells at most one version, which prints the text. Only ASCII spells a version.
fn strict_versions()
    ensures whole { (text : List ℕ) (v : PlainSemVer)
        → (semver_front text ≡ Some (v, [])) ↔ SpellsSemVer text v }
    ensures sound { IsSound SpellsSemVer semver_front }
    ensures only { (text : List ℕ) (v w : PlainSemVer) → SpellsSemVer text v → SpellsSemVer text w
        → v ≡ w }
    ensures printed { IsPrinted SpellsSemVer semver_text }
    ensures ascii { (text : List ℕ) (v : PlainSemVer) → SpellsSemVer text v → IsAscii text }
    ensures answer { (text : List ℕ) (v : PlainSemVer)
        → (semver_of text ≡ Some v) ↔ SpellsSemVer text v }
{}

// The same laws for general versions.
fn general_versions()
    ensures whole { (text : List ℕ) (v : PlainVersion)
        → (version_front text ≡ Some (v, [])) ↔ SpellsVersion text v }
    ensures sound { IsSound SpellsVersion version_front }
    ensures only { (text : List ℕ) (v w : PlainVersion) → SpellsVersion text v
        → SpellsVersion text w → v ≡ w }
    ensures printed { IsPrinted SpellsVersion version_text }
    ensures ascii { (text : List ℕ) (v : PlainVersion) → SpellsVersion text v → IsAscii text }
    ensures answer { (text : List ℕ) (v : PlainVersion)
        → (version_of text ≡ Some v) ↔ SpellsVersion text v }
{}

// Each text that spells a strict version spells a general one too, with the fields of `to_version`.
#[tactic(auto, using(crate::proofs::lemmas::Versioning::strict_is_general))]
fn strict_versions_are_general()
    ensures { (text : List ℕ) (v : PlainSemVer) → SpellsSemVer text v
        → SpellsVersion text (version_of_semver v) }
{}

// The same laws for messy versions, except that a prefix spells its version if a dot, a sign or the end follows.
// Before any other byte a chunk is `Plain`, even of digits. Whatever follows, the version prints the prefix.
fn messy_versions()
    ensures whole { (text : List ℕ) (m : PlainMess)
        → (mess_front text ≡ Some (m, [])) ↔ SpellsMess text m }
    ensures sound { IsSoundBefore EndsChunk SpellsMess mess_front }
    ensures kept { IsKept mess_text mess_front }
    ensures only { (text : List ℕ) (m n : PlainMess) → SpellsMess text m → SpellsMess text n
        → m ≡ n }
    ensures printed { IsPrinted SpellsMess mess_text }
    ensures ascii { (text : List ℕ) (m : PlainMess) → SpellsMess text m → IsAscii text }
    ensures answer { (text : List ℕ) (m : PlainMess) → (mess_of text ≡ Some m) ↔ SpellsMess text m }
{}

// A text spells at most one version of any kind, which prints the text.
fn versions()
    ensures only { (text : List ℕ) (v w : PlainVersioning) → SpellsVersioning text v
        → SpellsVersioning text w → v ≡ w }
    ensures printed { IsPrinted SpellsVersioning versioning_text }
    ensures answer { (text : List ℕ) (v : PlainVersioning)
        → (versioning_of text ≡ Some v) ↔ SpellsVersioning text v }
{}

// A text spells at most one requirement, which prints the text.
fn requirements()
    ensures only { (text : List ℕ) (r q : PlainRequirement) → SpellsRequirement text r
        → SpellsRequirement text q → r ≡ q }
    ensures printed { IsPrinted SpellsRequirement requirement_text }
    ensures answer { (text : List ℕ) (r : PlainRequirement)
        → (requirement_of text ≡ Some r) ↔ SpellsRequirement text r }
{}

// A text spells at most one list of requirements, which prints the text.
fn requirement_lists()
    ensures only { (text : List ℕ) (list others : List PlainRequirement)
        → SpellsRequirements text list → SpellsRequirements text others → list ≡ others }
    ensures printed { IsPrinted SpellsRequirements requirements_text }
    ensures answer { (text : List ℕ) (list : List PlainRequirement)
        → (requirements_of text ≡ Some list) ↔ SpellsRequirements text list }
{}
