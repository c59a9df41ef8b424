//! Writing an [`NEIndexMap`] to a format and reading it back, by the traits of `serde`.
ghost use Rattle.std.specs.Prelude.{OnOk};
ghost use Rattle.serde.specs.Event.{WritesMap};
ghost use Rattle.ne_vec.specs.Read.{BeginsMap};

use super::NEIndexMap;
use ne_vec::serialized::{Borrows, Owns, read_map};
use serde::{
    Described, Deserialize, DeserializeOwned, Deserializer, Format, Serialize, Serializer,
};
use std::alloc::Global;
use std::hash::{BuildHasher, Hash};

/// Writes the entries as std's maps write theirs, in the map's order.
impl<K: Described + Eq + Hash, V: Described, H: BuildHasher> Described for NEIndexMap<K, V, H> {
    ghost writes = { λ m. WritesMap K.writes V.writes m.entries };
}

impl<K: Serialize + Eq + Hash, V: Serialize, H: BuildHasher> Serialize for NEIndexMap<K, V, H> {
    fn serialize<S: Serializer>(&self, out: &mut S) -> Result<(), S::Error> {
        out.begin_map(Some(self.inner.len()))?;
        for (key, value) in self.iter() {
            out.begin_key()?;
            key.serialize(out)?;
            out.end_key()?;
            value.serialize(out)?;
        }
        out.end_map()
    }
}

/// Reads a map, and inserts its entries in their order. An empty one is an error, at its place in
/// the input.
impl<'de, K: Deserialize<'de> + Eq + Hash, V: Deserialize<'de>> Deserialize<'de>
    for NEIndexMap<K, V> {
    fn deserialize<F: Format>(
        alloc: Global,
        from: &mut Deserializer<'de, '_, F>,
    ) -> Result<NEIndexMap<K, V>, F::Error>
        ensures { OnOk result ((key : _) × BeginsMap F.gives from.old key) }
    {
        read_map::<Borrows, _, _, _, _>(alloc, from)
    }
}

/// Reads a map, and inserts its entries in their order. An empty one is an error, at its place in
/// the input.
impl<K: DeserializeOwned + Eq + Hash, V: DeserializeOwned> DeserializeOwned for NEIndexMap<K, V> {
    fn deserialize_owned<F: Format>(
        alloc: Global,
        from: &mut Deserializer<'_, '_, F>,
    ) -> Result<NEIndexMap<K, V>, F::Error>
        ensures { OnOk result ((key : _) × BeginsMap F.gives from.old key) }
    {
        read_map::<Owns, _, _, _, _>(alloc, from)
    }
}
