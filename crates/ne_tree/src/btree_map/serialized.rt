//! Writing an [`NEBTreeMap`] to a format and reading it back, by the traits of `serde`.
ghost use Rattle.std.specs.Prelude.{OnOk};
ghost use Rattle.serde.specs.Event.{WritesMap};
ghost use Rattle.ne_vec.specs.Read.{BeginsMap};

use super::NEBTreeMap;
use ne_vec::serialized::{Borrows, Owns, read_map};
use serde::{
    Described, Deserialize, DeserializeOwned, Deserializer, Format, Serialize, Serializer,
};
use std::alloc::Global;

/// Writes what a `BTreeMap` of the entries writes.
impl<K: Described + Ord, V: Described> Described for NEBTreeMap<K, V> {
    ghost writes = { λ m. WritesMap K.writes V.writes m.entries };
}

impl<K: Serialize + Ord, V: Serialize> Serialize for NEBTreeMap<K, V> {
    fn serialize<S: Serializer>(&self, out: &mut S) -> Result<(), S::Error> {
        self.inner.serialize(out)
    }
}

/// Reads a map, and inserts its entries in their order. An empty one is an error, at its place in
/// the input.
impl<'de, K: Deserialize<'de> + Ord, V: Deserialize<'de>> Deserialize<'de> for NEBTreeMap<K, V> {
    fn deserialize<F: Format>(
        alloc: Global,
        from: &mut Deserializer<'de, '_, F>,
    ) -> Result<NEBTreeMap<K, V>, F::Error>
        ensures { OnOk result ((key : _) × BeginsMap F.gives from.old key) }
    {
        read_map::<Borrows, _, _, _, _>(alloc, from)
    }
}

/// Reads a map, and inserts its entries in their order. An empty one is an error, at its place in
/// the input.
impl<K: DeserializeOwned + Ord, V: DeserializeOwned> DeserializeOwned for NEBTreeMap<K, V> {
    fn deserialize_owned<F: Format>(
        alloc: Global,
        from: &mut Deserializer<'_, '_, F>,
    ) -> Result<NEBTreeMap<K, V>, F::Error>
        ensures { OnOk result ((key : _) × BeginsMap F.gives from.old key) }
    {
        read_map::<Owns, _, _, _, _>(alloc, from)
    }
}
