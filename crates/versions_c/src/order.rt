//! How two versions compare.

ghost use Rattle.std.specs.Prelude.{◌≡◌, ◌≢◌, IfSome, None, is_some};
ghost use Rattle.version_rules.specs.{grammar.Versioning.versioning_of, order.Orders.versioning_cmp};
ghost use Rattle.version_order.specs.keys.Lists.{bytes_cmp};
ghost use Rattle.version_schemes.specs.Scheme.{numbered, rules};
ghost use Rattle.versions_c.specs.Order.{pair_status, order_code};

use crate::status::{NO_SCHEME, NO_VERSION_A, NO_VERSION_AB, NO_VERSION_B, OK};
use std::cmp::Ordering;
use version_order::SchemeVersion;
use version_schemes::{Scheme, by_scheme};
use version_texts::VersioningRef;

/// Writes how two versions of a scheme compare.
#[unsafe(no_mangle)]
pub extern "C" fn versions_compare(scheme: u32, a: &[u8], b: &[u8], order: &mut i32) -> i32
    ensures status { IfSome (numbered scheme) (λ scheme. result
        ≡ pair_status (is_some ((rules scheme).read_as a.now)) (is_some ((rules scheme).read_as b.now))) }

    // They compare by the words of the scheme's system, in mixed by precedence, and so as their keys do.
    ensures order { IfSome (numbered scheme)
        (λ scheme. IfSome ((rules scheme).texts_cmp a.now b.now) (λ found. order.new ≡ order_code found)) }
    ensures keys { IfSome (numbered scheme) (λ scheme. IfSome ((rules scheme).read_as a.now)
        (λ v. IfSome ((rules scheme).read_as b.now) (λ w. order.new ≡ order_code (bytes_cmp v.key w.key)))) }
    ensures no_scheme { numbered scheme ≡ None → result ≡ NO_SCHEME }
    ensures kept { result ≢ OK → order.new ≡ order.old }
{
    let Some(scheme) = Scheme::of_number(scheme) else {
        return NO_SCHEME;
    };
    compare_in(scheme, a, b, order)
}

// Writes how two versions of a scheme compare.
fn compare_in(scheme: Scheme, a: &[u8], b: &[u8], order: &mut i32) -> i32
    ensures status { result
        ≡ pair_status (is_some ((rules scheme).read_as a.now)) (is_some ((rules scheme).read_as b.now)) }
    ensures keys { IfSome ((rules scheme).read_as a.now)
        (λ v. IfSome ((rules scheme).read_as b.now) (λ w. order.new ≡ order_code (bytes_cmp v.key w.key))) }
    ensures kept { result ≢ OK → order.new ≡ order.old }
{
    by_scheme!(scheme, compare(a, b, order))
}

// Writes how two versions compare.
fn compare<'t, V: SchemeVersion<'t>>(a: &'t [u8], b: &'t [u8], order: &mut i32) -> i32
    ensures status { result ≡ pair_status (is_some (V.rules.read_as a.now)) (is_some (V.rules.read_as b.now)) }
    ensures order { IfSome (V.rules.read_as a.now)
        (λ v. IfSome (V.rules.read_as b.now) (λ w. order.new ≡ order_code (bytes_cmp v.key w.key))) }
    ensures kept { result ≢ OK → order.new ≡ order.old }
{
    let Some(a) = V::read(a) else {
        return pair_status(false, V::read(b).is_some());
    };
    let Some(b) = V::read(b) else {
        return pair_status(true, false);
    };
    *order = order_code(a.compare(&b));
    OK
}

/// Writes how two versions of mixed compare by `Ord`, which breaks the ties of precedence.
#[unsafe(no_mangle)]
pub extern "C" fn versions_compare_total(a: &[u8], b: &[u8], order: &mut i32) -> i32
    ensures status { result ≡ pair_status (is_some (versioning_of a.now))
        (is_some (versioning_of b.now)) }
    ensures order { IfSome (versioning_of a.now)
        (λ v. IfSome (versioning_of b.now) (λ w. order.new ≡ order_code (versioning_cmp v w))) }
    ensures kept { result ≢ OK → order.new ≡ order.old }
{
    let (a, b) = (VersioningRef::from_bytes(a), VersioningRef::from_bytes(b));
    match (a, b) {
        (Some(a), Some(b)) => {
            *order = order_code(a.cmp(&b));
            OK
        }
        _ => pair_status(a.is_some(), b.is_some()),
    }
}

// Returns the status for two texts, by whether each is a version.
pub(crate) fn pair_status(a: bool, b: bool) -> i32
    ensures { result ≡ pair_status a b }
{
    match (a, b) {
        (true, true) => OK,
        (false, true) => NO_VERSION_A,
        (true, false) => NO_VERSION_B,
        (false, false) => NO_VERSION_AB,
    }
}

// Returns an order as a number.
fn order_code(order: Ordering) -> i32
    ensures { result ≡ order_code order }
{
    match order {
        Ordering::Less => -1,
        Ordering::Equal => 0,
        Ordering::Greater => 1,
    }
}
