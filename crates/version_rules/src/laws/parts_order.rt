//! Laws of the orders of parts and releases, and of their bytes.
#![tactic(auto, using(crate::proofs::lemmas::Order::part_laws))]

ghost use Rattle.std.specs.Prelude.{ℕ, ◌≡◌, ◌↔◌, ◌+◌, ◌<◌, ◌^◌, ◌++◌, ◌∷◌, [], length, List, Option, true, false};
ghost use Rattle.std.specs.{Char.is_ascii_digit, Cmp.IsTotalOrder, Fmt.decimal, List.list_any, Ordering.nat_cmp, Str.Parse.digits_value, declared.cmp.Ordering.TheVariants.Equal};
ghost use Rattle.version_rules.specs.key.PartKey.{Number, PartKey, Word, list_cmp, part_bytes, part_cmp, part_key, parts_bytes, suffix_of, Split, split_bytes, split_cmp, split_of};
ghost use Rattle.version_rules.specs.order.Parts.{last_plain_cmp, chunks_cmp, last_cmp, mchunk_cmp, chunk_cmp, release_bytes, release_cmp};
ghost use Rattle.version_rules.specs.{grammar.Chunk.PlainChunk, grammar.Last.PlainLast, grammar.MChunk.PlainMChunk, worked.Keys.WorkedBytes, worked.Keys.WorkedOrder};
ghost use Rattle.version_order.specs.{keys.Codes.Writes, keys.Codes.length_bytes, keys.Codes.number_bytes, keys.Codes.text_bytes, keys.Lists.bytes_cmp, texts.Front.is_digits, texts.Front.starts_with_digit};

// A length below 255 is one byte. A longer one is the byte 255, then the bytes of the length less 255.
fn length_bytes_by_255s()
    ensures short { (n : ℕ) → n < 255 → length_bytes n ≡ n ∷ [] }
    ensures long { (n : ℕ) → length_bytes (255 + n) ≡ 255 ∷ length_bytes n }
{}

// The bytes of a number are the length of its decimal digits and the digits themselves. Zero has no digits.
fn number_bytes_of_decimal()
    ensures zero { number_bytes 0 ≡ 0 ∷ [] }
    ensures other { (n : ℕ) → 0 < n → n < 2 ^ 64
        → number_bytes n ≡ length_bytes (length (decimal n)) ++ decimal n }
{}

// Whatever bytes follow, the bytes of numbers compare as the numbers do, and those of texts as the texts.
fn number_and_text_bytes()
    ensures numbers { Writes nat_cmp number_bytes }
    ensures texts { Writes bytes_cmp text_bytes }
{}

// The order of splits is total, and Equal exactly for the same split. The bytes compare in the same order.
fn split_order()
    ensures total { IsTotalOrder split_cmp }
    ensures same { (v w : Split) → (split_cmp v w ≡ Equal) ↔ (v ≡ w) }
    ensures bytes { Writes split_cmp split_bytes }
{}

// The order of parts, with the end of a list among them, is total, and Equal exactly for the same part. The bytes
// compare in the same order.
fn part_order()
    ensures total { IsTotalOrder part_cmp }
    ensures same { (a b : Option PartKey) → (part_cmp a b ≡ Equal) ↔ (a ≡ b) }
    ensures bytes { Writes part_cmp part_bytes }
{}

// The order of lists of parts is total, and Equal exactly for the same list. The bytes compare in the same order.
fn list_order()
    ensures total { IsTotalOrder list_cmp }
    ensures same { (xs ys : List PartKey) → (list_cmp xs ys ≡ Equal) ↔ (xs ≡ ys) }
    ensures bytes { Writes list_cmp parts_bytes }
{}

// The order of chunks is total, and Equal exactly for the same chunk.
fn chunk_order()
    ensures total { IsTotalOrder chunk_cmp }
    ensures same { (a b : PlainChunk) → (chunk_cmp a b ≡ Equal) ↔ (a ≡ b) }
{}

// The order of the chunks of general versions is total, and Equal exactly for the same chunks.
fn chunks_order()
    ensures total { IsTotalOrder chunks_cmp }
    ensures same { (a b : List PlainChunk) → (chunks_cmp a b ≡ Equal) ↔ (a ≡ b) }
{}

// The order of last parts is total, and Equal exactly for the same last part.
fn last_order()
    ensures total { IsTotalOrder last_cmp }
    ensures same { (a b : PlainLast) → (last_cmp a b ≡ Equal) ↔ (a ≡ b) }
{}

// The order of messy chunks is total, and Equal exactly for the same chunk.
fn mchunk_order()
    ensures total { IsTotalOrder mchunk_cmp }
    ensures same { (a b : PlainMChunk) → (mchunk_cmp a b ≡ Equal) ↔ (a ≡ b) }
{}

// The plain order of last parts is total, and Equal exactly for the same last part.
fn last_plain_order()
    ensures total { IsTotalOrder last_plain_cmp }
    ensures same { (a b : PlainLast) → (last_plain_cmp a b ≡ Equal) ↔ (a ≡ b) }
{}

// The order of releases is total, and Equal exactly for the same release. The bytes compare in the same order.
fn release_order()
    ensures total { IsTotalOrder release_cmp }
    ensures same { (a b : List PlainChunk) → (release_cmp a b ≡ Equal) ↔ (a ≡ b) }
    ensures bytes { Writes release_cmp release_bytes }
{}

// A text is split before its first digit and after the run of digits there. A text without a digit is not split.
fn split_of_text()
    ensures whole { (text : List ℕ) → list_any is_ascii_digit text ≡ false
        → split_of text ≡ record { before = text; number = None } }
    ensures cut { (before digits rest : List ℕ) → list_any is_ascii_digit before ≡ false
        → is_digits digits ≡ true → starts_with_digit rest ≡ false
        → split_of (before ++ (digits ++ rest))
        ≡ record { before = before; number = Some (digits_value 10 digits, rest) } }
{}

// A part whose text begins with digits is their number, with the rest as suffix. Any other part is a word. A number in
// decimal is that number, without a suffix.
fn part_key_of_text()
    ensures number { (digits rest : List ℕ) → is_digits digits ≡ true
        → starts_with_digit rest ≡ false
        → part_key (digits ++ rest) ≡ Number (digits_value 10 digits) (suffix_of rest) }
    ensures word { (text : List ℕ) → starts_with_digit text ≡ false
        → part_key text ≡ Word (split_of text) }
    ensures decimals { (n : ℕ) → n < 2 ^ 64 → part_key (decimal n) ≡ Number n None }
{}

// The bytes of four lengths and a text, and parts and lists of parts in increasing order.
fn worked_parts()
    ensures bytes { WorkedBytes }
    ensures order { WorkedOrder }
{}
