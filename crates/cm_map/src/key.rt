//! Keys, and what begins with one.
ghost use Rattle.std.specs.Prelude.{◌≡◌, Option, Some, IsSome};
ghost use Rattle.core.specs.declared.cmp.Ordering.TheVariants.{Equal};
ghost use Rattle.std.proofs.lemmas.Map.Lookups.{exact_unsigned, exact_bytes};
ghost use Rattle.cm_map.specs.KeyFacts.{oid_exact, level_exact};

use cm_base::access::Level;
use cm_base::number::Oid;
use cm_base::text::Text;

/// A key whose order tells all keys apart.
pub trait Key: Ord + Drop {
    ghost exact: { (x y : Self) → Self.cmp x y ≡ Equal → x ≡ y };
}

impl Key for u64 {
    ghost exact = { exact_unsigned };
}

impl Key for Oid {
    ghost exact = { oid_exact };
}

impl Key for Text {
    ghost exact = { exact_bytes };
}

impl Key for Level {
    ghost exact = { level_exact };
}

impl<A: Key, B: Key> Key for (A, B) {
    ghost use Rattle.std.proofs.lemmas.Map.Lookups.{exact_pairs};

    ghost exact = { exact_pairs A.cmp B.cmp A.exact B.exact };
}

/// What has a first key, or is empty.
pub trait Headed<K>: Drop {
    ghost first: { Self → Option K };

    /// The first key.
    fn head(&self) -> &K
        requires { IsSome (first self.now) }
        ensures { first self.now ≡ Some result.now };
}

impl<K: Drop, V: Drop> Headed<K> for (K, V) {
    ghost first = { λ e. Some e.0 };

    fn head(&self) -> &K {
        &self.0
    }
}
