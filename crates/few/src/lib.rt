// A few things in order: a list of fixed room, which lies in the value itself and is copied with it. The library's `ArrayVec` is such a list too, but can't be copied.
#![tactic(auto)]

ghost use Rattle.std.specs.Prelude.{◌≡◌, ◌≤◌, ◌==◌, ◌++◌, [], ◌∷◌, length, take, ⊤};

use std::alloc::AllocError;
use std::marker::Model;

// What stands in a place that is not used.
pub trait Blank: Copy {
    ghost blank: { Self };

    fn blank() -> Self
        ensures { result ≡ blank };
}

impl Blank for u16 {
    ghost blank = { 0 };

    fn blank() -> u16 {
        0
    }
}

impl Blank for u32 {
    ghost blank = { 0 };

    fn blank() -> u32 {
        0
    }
}

// At most N items, in order, and blanks after them.
#[derive(Copy)]
pub struct Few<T: Blank, const N: usize> {
    places: [T; N],
    len: usize,
}

impl<T: Blank, const N: usize> Model for Few<T, N> {
    ghost use Rattle.std.specs.Prelude.{◌≡◌, ◌≤◌, ◌-◌, ◌++◌, length, take, replicate};
    ghost use Rattle.few.specs.Few.{Items};

    ghost Value = { Items T };

    ghost view = { λ v. record { items = take v.len v.places } };

    ghost invariant = { λ v. (v.len ≤ N) × (v.places ≡ take v.len v.places ++ replicate (N - v.len) T.blank) × (length v.places ≡ N) };

    ghost inverse = { λ v. record { places = v.items ++ replicate (N - length v.items) T.blank; len = length v.items } };
}

impl<T: Blank, const N: usize> Clone for Few<T, N> {
    ghost is_clone = { λ v w. w ≡ v };

    ghost is_infallible = { λ v. ⊤ };

    fn clone(&self) -> Result<Self, AllocError> {
        Ok(*self)
    }
}

impl<T: Blank, const N: usize> Few<T, N> {
    pub fn new() -> Self
        ensures { result.items ≡ [] }
    {
        Few {
            places: [T::blank(); N],
            len: 0,
        }
    }

    // As many of these as count says, or all.
    pub fn first(items: [T; N], count: usize) -> Self
        ensures { result.items ≡ take count items }
    {
        let mut places = items;
        for i in 0..N {
            if count <= i {
                places[i] = T::blank();
            }
        }
        Few {
            places,
            len: count.min(N),
        }
    }

    pub fn len(&self) -> usize
        ensures value { result ≡ length self.now.items }
        ensures fits { result ≤ N }
    {
        self.len
    }

    pub fn is_full(&self) -> bool
        ensures value { result ≡ (length self.now.items == N) }
        ensures fits { length self.now.items ≤ N }
    {
        self.len == N
    }

    pub fn as_slice(&self) -> &[T]
        ensures value { result.now ≡ self.now.items }
        ensures fits { length result.now ≤ N }
    {
        &self.places[..self.len]
    }

    // One more, after the others. Where there is no room, they stay as they are.
    pub fn add(&mut self, item: T)
        ensures { self.new.items ≡ take N (self.old.items ++ item ∷ []) }
    {
        if self.len < N {
            self.places[self.len] = item;
            self.len += 1;
        }
    }
}
