//! The method of [`NEVec`] that replaces each item by what a closure returns for it.
ghost use Rattle.std.specs.Prelude.{◌≡◌, length, map};
ghost use Rattle.std.specs.Fn.{Called, Takes};
ghost use Rattle.std.specs.Iterator.{ActsAs};
ghost use Rattle.ne_vec.specs.Calls.{Calls};
ghost use Rattle.ne_vec.specs.Searches.{CallableOnItems};

use super::NEVec;
use core::mem::replace_with;

impl<T> NEVec<T> {
    /// Replaces each item by what `f` returns for it, in order, and returns the vector. It
    /// allocates nothing, so unlike collecting a `map` it cannot fail.
    ///
    /// `f` must be callable with the vector's items. The clause `mapped` covers an `f` whose result
    /// depends only on the item and that changes nothing; `called` covers any `f`. The Rust crate
    /// lacks this method.
    ///
    /// ```
    /// let halves = nev![alloc; 3, 1, 4]?.map_in_place(|x| x / 2); // [1, 0, 2]
    /// ```
    pub fn map_in_place<F: FnMut(T) -> T>(self, f: F) -> Self
        requires { CallableOnItems F.FnMut f self }
        ensures mapped { (h : T → T) → ActsAs F.FnMut f h → result ≡ map h self }
        ensures called { (g : F) × Calls F.FnMut f self result g }
    {
        let mut inner = self.inner;
        map_each(inner.as_mut_slice(), f);
        NEVec { inner }
    }
}

// Replaces each item by what `f` returns for it.
fn map_each<T, F: FnMut(T) -> T>(items: &mut [T], mut f: F)
    requires { CallableOnItems F.FnMut f items.old }
    ensures long { length items.new ≡ length items.old }
    ensures called { (g : F) × Calls F.FnMut f items.old items.new g }
{
    for i in 0..items.len() {
        f = replace_with(&mut items[i], f, called);
    }
}

// Returns what `f` returns for `x`, and `f` as the call leaves it.
fn called<T, F: FnMut(T) -> T>(x: T, mut f: F) -> (T, F)
    requires { Takes F.FnMut f (x, tt) }
    ensures { Called F.FnMut f (x, tt) result.0 result.1 }
{
    let y = f(x);
    (y, f)
}
