// The order of scalars: that of keys, where both have one type.

ghost use Rattle.std.specs.Prelude.{◌≡◌};
ghost use Rattle.std.specs.Ordering.{as_partial_cmp, eq_by_cmp};
ghost use Rattle.std.specs.Cmp.{eq_by_cmp_equiv, partial_equiv_from_equiv, po};
ghost use Rattle.std.proofs.Common.{refl};
ghost use Rattle.tsl_value.specs.View.{bytes_of, kind_of, number_of, scalar_cmp};
ghost use Rattle.tsl_value.specs.inner.ScalarOrder.{scalar_cmp_total};

use crate::scalar::Scalar;
use std::cmp::Ordering;

impl Scalar {
    fn kind(&self) -> u8
        ensures { result ≡ kind_of self.now }
    {
        match self {
            Scalar::Unit => 0,
            Scalar::Int(_) => 1,
            Scalar::Bool(_) => 2,
            Scalar::Text(_) => 3,
        }
    }

    fn number(&self) -> i64
        ensures { result ≡ number_of self.now }
    {
        match self {
            Scalar::Unit => 0,
            Scalar::Int(number) => *number,
            Scalar::Bool(false) => 0,
            Scalar::Bool(true) => 1,
            Scalar::Text(_) => 0,
        }
    }

    fn bytes(&self) -> &[u8]
        ensures { result.now ≡ bytes_of self.now }
    {
        match self {
            Scalar::Unit => &[],
            Scalar::Int(_) => &[],
            Scalar::Bool(_) => &[],
            Scalar::Text(text) => text.as_str().as_bytes(),
        }
    }

    /// Their order by kind, number and bytes.
    fn cmp_by_kind(&self, other: &Scalar) -> Ordering
        ensures { result ≡ scalar_cmp self.now other.now }
    {
        self.kind()
            .cmp(&other.kind())
            .then(self.number().cmp(&other.number()))
            .then(self.bytes().cmp(other.bytes()))
    }

    /// The order of two scalars that need not be numbers. Texts are compared many bytes at a time, which slices of bytes are not.
    #[inline(never)]
    fn cmp_any(&self, other: &Scalar) -> Ordering
        ensures { result ≡ scalar_cmp self.now other.now }
    {
        match (self, other) {
            (Scalar::Text(text), Scalar::Text(other)) => text.as_str().cmp(other.as_str()),
            _ => self.cmp_by_kind(other),
        }
    }
}

impl Ord for Scalar {
    ghost cmp = { scalar_cmp };

    ghost total = { scalar_cmp_total };

    ghost matches_partial_cmp = { λ _ _. refl };

    ghost matches_eq = { λ _ _. refl };

    /// Numbers by value, false before true, and texts by their bytes.
    #[inline(always)]
    fn cmp(&self, other: &Scalar) -> Ordering {
        match (self, other) {
            // Most keys are numbers, and numbers alone need no look at kinds and bytes.
            (Scalar::Int(number), Scalar::Int(other)) => number.cmp(other),
            _ => self.cmp_any(other),
        }
    }
}

impl PartialOrd for Scalar {
    ghost partial_cmp = { as_partial_cmp scalar_cmp };

    ghost laws = { po scalar_cmp_total (λ _ _. refl) };

    fn partial_cmp(&self, other: &Scalar) -> Option<Ordering> {
        Some(self.cmp(other))
    }
}

impl Eq for Scalar {
    ghost laws = { eq_by_cmp_equiv scalar_cmp_total };
}

impl PartialEq for Scalar {
    ghost eq = { eq_by_cmp scalar_cmp };

    ghost laws = { partial_equiv_from_equiv (eq_by_cmp_equiv scalar_cmp_total) };

    fn eq(&self, other: &Scalar) -> bool {
        self.cmp(other).is_eq()
    }
}
