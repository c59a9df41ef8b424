//! The methods of an [`NEVec`] that part its first or its last item from the others.
ghost use Rattle.std.specs.Prelude.{◌≡◌, ◌-◌, [], ◌∷◌, ◌++◌, length, take, drop, Some, slice_get};

use super::NEVec;

impl<T> NEVec<T> {
    /// Returns the first item, and a slice of the others, which may be empty.
    ///
    /// ```
    /// let items = nev![alloc; 4, 6, 8]?;
    /// let (first, rest) = items.split_first(); // &4 and &[6, 8]
    /// ```
    pub fn split_first(&self) -> (&T, &[T])
        ensures { self.now ≡ result.0.now ∷ result.1.now }
    {
        (&self.inner[0], &self.inner[1..])
    }

    /// Returns the last item, and a slice of the others, which may be empty. The Rust crate lacks
    /// this method.
    ///
    /// ```
    /// let items = nev![alloc; 4, 6, 8]?;
    /// let (last, rest) = items.split_last(); // &8 and &[4, 6]
    /// ```
    pub fn split_last(&self) -> (&T, &[T])
        ensures { self.now ≡ result.1.now ++ result.0.now ∷ [] }
    {
        let last = self.inner.len() - 1;
        (&self.inner[last], &self.inner[..last])
    }

    /// Returns the first item, a slice of those in the middle, which may be empty, and the last
    /// item. If there is only one item, it is both the first and the last.
    ///
    /// ```
    /// let items = nev![alloc; 4, 6, 8, 9]?;
    /// let (first, middle, last) = items.split(); // &4, &[6, 8] and &9
    /// ```
    pub fn split(&self) -> (&T, &[T], &T)
        ensures first { slice_get self.now 0 ≡ Some result.0.now }
        ensures middle { result.1.now ≡ drop 1 (take (length self.now - 1) self.now) }
        ensures last { slice_get self.now (length self.now - 1) ≡ Some result.2.now }
    {
        let last = self.inner.len() - 1;
        (
            &self.inner[0],
            &self.inner[1..last.max(1)],
            &self.inner[last],
        )
    }

    /// Returns the first item, and a vector of the others, which may be empty. The vector keeps the
    /// memory. The Rust crate lacks this method.
    ///
    /// Each of the others moves one place to the front.
    ///
    /// ```
    /// let (first, rest) = nev![alloc; 4, 6, 8]?.into_first_and_rest(); // 4 and [6, 8]
    /// ```
    pub fn into_first_and_rest(self) -> (T, Vec<T>)
        ensures { self ≡ result.0 ∷ result.1.items }
    {
        let mut rest = self.inner;
        let first = rest.remove(0);
        (first, rest)
    }
}
