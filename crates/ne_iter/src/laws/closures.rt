//! Laws about closures: what their calls return if they act as functions, and where a closure that
//! can be called with any value may be called.
ghost use Rattle.std.specs.Prelude.{◌≡◌, List, map};
ghost use Rattle.std.specs.Iterator.{ActsAs, CallableOnAllAt};
ghost use Rattle.ne_iter.specs.Calls.{Calls};
ghost use Rattle.ne_iter.specs.Scan.{CallableInScan};

/// A closure that acts as a function returns the function's values, and stays unchanged.
pub fn calls_of_a_function<A, B, F: FnMut(A) -> B>(f: &F)
    ensures { (h : A → B) (xs : List A) (ys : List B) (g : F) → ActsAs F.FnMut f.now h
        → Calls F.FnMut f.now xs ys g → (ys ≡ map h xs) × (g ≡ f.now) }
{}

/// A closure that can be called with any item can be called with each item of an iterator, one
/// after another. Generic code that knows the former calls this law before a method that requires
/// the latter, as `max_by_key` does, or before it collects what `group_by` returns.
pub fn always_callable_is_callable_on_all_items<I: Iterator, R, F: FnMut(&I::Item) -> R>()
    ensures { (it : I) (f : F) → F.IsAlwaysCallable f
        → CallableOnAllAt I.next_gives F.FnMut it f }
{}

/// A closure that can be called with any state and item can be called in a `scan` of an iterator.
/// Generic code that knows the former calls this law before `scan`.
pub fn always_callable_is_callable_in_scan<St, I: Iterator, B, F: FnMut(&mut St, I::Item) -> B>()
    ensures { (it : I) (f : F) (init : St) → F.IsAlwaysCallable f
        → CallableInScan I.next_gives F.FnMut it f init }
{}
