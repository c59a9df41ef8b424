//! Laws about the greatest, the least and the sum of a list of numbers.
ghost use Rattle.std.specs.Prelude.{◌≡◌, ◌*◌, ◌≤◌, ℕ, List, ◌∷◌, length, sum};
ghost use Rattle.std.specs.List.{All, Contains};

/// A list of numbers that is not empty has exactly one greatest number.
pub fn numbers_have_one_greatest()
    ensures there { (x : ℕ) (xs : List ℕ)
        → (m : ℕ) × Contains (x ∷ xs) m × All (λ n. n ≤ m) (x ∷ xs) }
    ensures only { (xs : List ℕ) (m n : ℕ) → Contains xs m → All (λ x. x ≤ m) xs
        → Contains xs n → All (λ x. x ≤ n) xs → m ≡ n }
{}

/// A list of numbers that is not empty has exactly one least number.
pub fn numbers_have_one_least()
    ensures there { (x : ℕ) (xs : List ℕ)
        → (m : ℕ) × Contains (x ∷ xs) m × All (λ n. m ≤ n) (x ∷ xs) }
    ensures only { (xs : List ℕ) (m n : ℕ) → Contains xs m → All (λ x. m ≤ x) xs
        → Contains xs n → All (λ x. n ≤ x) xs → m ≡ n }
{}

/// A list of numbers, of which none is above `most`, has a sum of at most `most` for each of them.
pub fn sums_are_bounded(most: u64)
    ensures { (xs : List ℕ) → All (λ x. x ≤ most) xs → sum xs ≤ length xs * most }
{}
