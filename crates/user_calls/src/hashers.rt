//! Maps and sets with any hasher. There is no proof file.
ghost use Rattle.std.specs.Prelude.{◌≡◌, nat_eq, MatchOption, OnOk, Some};
ghost use Rattle.std.specs.HashMap.{get, hasher_of, IsEmpty};

use nonempty_collections::NEMap;
use std::alloc::AllocError;
use std::collections::HashMap;
use std::hash::BuildHasher;

/// Inserts a key, which is found then, and leaves the hasher.
pub fn put<S: BuildHasher>(map: &mut NEMap<u32, u32, S>, k: u32, v: u32) -> Result<(), AllocError>
    ensures value { OnOk result (get nat_eq map.new k ≡ Some v) }
    ensures hasher { hasher_of map.new ≡ hasher_of map.old }
{
    map.insert(k, v)?;
    Ok(())
}

/// Converts std's map, with its hasher.
pub fn kept<S: BuildHasher + Drop>(map: HashMap<u32, u32, S>) -> Option<NEMap<u32, u32, S>>
    ensures { MatchOption result (IsEmpty map) (λ m. hasher_of m ≡ hasher_of map) }
{
    NEMap::try_from_map(map)
}
