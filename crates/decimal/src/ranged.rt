//! Exact decimals in a reach.
ghost use Rattle.std.specs.Prelude.{◌≡◌, true, ⊤};
ghost use Rattle.decimal.specs.Range.{inside};

use crate::normal::NormalReal;
use crate::reach::Reach;
use std::alloc::AllocError;
use std::marker::PhantomData;

/// An exact decimal in a reach: zero, or of a size that the reach has, with at most 18 digits.
#[derive_where(Debug, PartialEq, Eq)]
pub struct Ranged<R: Reach> {
    pub(crate) real: NormalReal,
    pub(crate) reach: PhantomData<R>,
    ghost within: { inside R.LEAST R.MOST real.real ≡ true },
}

// By hand, since no derive writes a `Clone` for a type parameter beside a ghost field.
impl<R: Reach> Clone for Ranged<R> {
    ghost is_clone = { λ d copy. copy ≡ d };

    ghost is_infallible = { λ _. ⊤ };

    fn clone(&self) -> Result<Self, AllocError> {
        Ok(*self)
    }
}

impl<R: Reach> Copy for Ranged<R> {}
