//! Orders by several keys.

ghost use Rattle.std.specs.Prelude.{◌≡◌};
ghost use Rattle.std.specs.Fn.{FnReturnsAt};
ghost use Rattle.std.specs.declared.cmp.Ordering as ordering;
ghost use Rattle.values.specs.Keys as spec;

use std::cmp::Ordering;

/// The first order but equal that one of the keys gives, in their turn: a later key decides where the earlier ones don't.
pub fn first_decided<K, F: Fn(&K) -> Ordering>(keys: &[K], by_key: F) -> Ordering
    requires { F.IsAlwaysCallable by_key }
    ensures { (order : K → ordering.Ordering) → ((k : K) (o : ordering.Ordering) → FnReturnsAt F.Fn by_key k o → o ≡ order k) → result ≡ spec.first_decided order keys.now }
{
    for key in keys {
        match by_key(key) {
            Ordering::Equal => {}
            decided => return decided,
        }
    }
    Ordering::Equal
}
