//! Maps and sets as a user calls them: what is inserted, collected and added, chains over keys,
//! values and pairs, items by their keys, and what is not in a set.
#![tactic(auto)]

ghost use Rattle.std.specs.Prelude.{[], ◌∷◌, IfOk};

pub mod by_key;
pub mod hashed;
pub mod indexed;
pub mod recipes;
pub mod tree;

use nonempty_collections::Singleton;
use std::alloc::{AllocError, Global};

/// Returns the collection of two items, which is made from the first and then takes the other.
pub fn two<C: Singleton + Drop>(alloc: Global, a: C::Item, b: C::Item) -> Result<C, AllocError>
where
    C::Item: Drop,
    ensures { IfOk result (C.collected (a ∷ b ∷ [])) }
{
    let mut both: C = C::singleton(alloc, a)?;
    both.extend_one(b)?;
    Ok(both)
}
