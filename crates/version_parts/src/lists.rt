//! Lists of items of any kind: printed with dots between, copied and compared.

ghost use Rattle.std.specs.Prelude.{◌≡◌, ℕ, List, map, IfOk, Some};
ghost use Rattle.std.specs.{Cmp.Lexicographic.slice_cmp, Fmt.WritesOnOk, List.join_with_byte, declared.cmp.Ordering.Ordering};
ghost use Rattle.version_order.specs.texts.Bytes.{dot};

use std::alloc::{AllocError, Global};
use std::cmp::Ordering;
use std::fmt;
use std::fmt::Display;

/// An item of a list, which prints a text, and can be copied and compared.
pub trait ListItem: Display + Drop {
    // The value of an item, its printed text, and how two compare.
    ghost Plain: { Type 0 };

    ghost plain: { Self → Plain };

    ghost text: { Plain → List ℕ };

    ghost plain_cmp: { Plain → Plain → Ordering };

    /// Returns a copy. Fails on allocation failure.
    fn copy(&self, alloc: Global) -> Result<Self, AllocError>
    where
        Self: Sized,
        ensures { IfOk result (λ copy. plain copy ≡ plain self.now) };

    /// Compares two items field by field.
    fn compare(&self, other: &Self) -> Ordering
        ensures { result ≡ plain_cmp (plain self.now) (plain other.now) };

    // An item prints its text.
    ghost prints: { (item : Self) → Self.output item ≡ Some (text (plain item)) };
}

/// Writes the items with dots between them.
pub fn write_dotted<T: ListItem, W: fmt::Write>(
    items: &[T],
    f: &mut fmt::Formatter<W>,
) -> fmt::Result
    ensures { WritesOnOk W.write_str_gives f.old result
        (join_with_byte dot (map T.text (map T.plain items.now))) f.new }
{
    let Some((first, others)) = items.split_first() else {
        return Ok(());
    };
    write!(f, "{first}")?;
    for item in others {
        write!(f, ".{item}")?;
    }
    Ok(())
}

/// Returns a copy of the items, in a list allocated at their exact number. Fails on allocation failure.
pub fn copy_list<T: ListItem>(alloc: Global, items: &[T]) -> Result<Vec<T>, AllocError>
    ensures { IfOk result (λ copy. map T.plain copy.items ≡ map T.plain items.now) }
{
    let mut copy = Vec::with_capacity(alloc, items.len())?;
    for item in items {
        copy.push(item.copy(alloc)?)?;
    }
    Ok(copy)
}

/// Compares two lists item by item. A prefix comes before the longer list.
pub fn compare_lists<T: ListItem>(a: &[T], b: &[T]) -> Ordering
    ensures { result ≡ slice_cmp T.plain_cmp (map T.plain a.now) (map T.plain b.now) }
{
    'items: for at in 0..a.len().min(b.len()) {
        let ordering = a[at].compare(&b[at]);
        if ordering != Ordering::Equal {
            return ordering;
        }
    }
    a.len().cmp(&b.len())
}
