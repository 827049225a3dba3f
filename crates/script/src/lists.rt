// A list for a backplane: lent for as long as the backplane lives, or handed over to it.
ghost use Rattle.std.specs.Prelude.{◌≡◌, List};
ghost use Rattle.std.specs.Cow.{cow_slice_items};

use std::alloc::Allocator;
use std::borrow::CowSlice;

pub trait IntoList<'a, T> {
    // what the list holds
    ghost held: { Self → List T };

    fn into_list(self) -> CowSlice<'a, T>
        ensures { cow_slice_items result ≡ held self };
}

impl<'a, T> IntoList<'a, T> for &'a [T] {
    ghost held = { λ s. s.now };

    fn into_list(self) -> CowSlice<'a, T> {
        CowSlice::Borrowed(self)
    }
}

impl<'a, T, const N: usize> IntoList<'a, T> for &'a [T; N] {
    ghost held = { λ s. s.now };

    fn into_list(self) -> CowSlice<'a, T> {
        CowSlice::Borrowed(&self[..])
    }
}

impl<'a, T, A: Allocator> IntoList<'a, T> for &'a Vec<T, A> {
    ghost held = { λ v. v.now.items };

    fn into_list(self) -> CowSlice<'a, T> {
        CowSlice::Borrowed(self.as_slice())
    }
}

impl<'a, T> IntoList<'a, T> for Vec<T> {
    ghost held = { λ v. v.items };

    fn into_list(self) -> CowSlice<'a, T> {
        CowSlice::Owned(self)
    }
}
