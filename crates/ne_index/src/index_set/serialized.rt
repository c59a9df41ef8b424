//! Writing an [`NEIndexSet`] to a format and reading it back, by the traits of `serde`.
ghost use Rattle.std.specs.Prelude.{OnOk};
ghost use Rattle.serde.specs.Event.{WritesSeq};
ghost use Rattle.ne_vec.specs.Read.{BeginsSeq};

use super::NEIndexSet;
use ne_vec::serialized::{Borrows, Owns, read_seq};
use serde::{
    Described, Deserialize, DeserializeOwned, Deserializer, Format, Serialize, Serializer,
};
use std::alloc::Global;
use std::hash::{BuildHasher, Hash};

/// Writes the items as std's sets write theirs, in the set's order.
impl<T: Described + Eq + Hash, H: BuildHasher> Described for NEIndexSet<T, H> {
    ghost writes = { λ s. WritesSeq T.writes s.keys };
}

impl<T: Serialize + Eq + Hash, H: BuildHasher> Serialize for NEIndexSet<T, H> {
    fn serialize<S: Serializer>(&self, out: &mut S) -> Result<(), S::Error> {
        out.begin_seq(Some(self.inner.len()))?;
        for item in self.iter() {
            item.serialize(out)?;
        }
        out.end_seq()
    }
}

/// Reads a sequence, and inserts its items in their order. An empty one is an error, at its place
/// in the input.
impl<'de, T: Deserialize<'de> + Eq + Hash> Deserialize<'de> for NEIndexSet<T> {
    fn deserialize<F: Format>(
        alloc: Global,
        from: &mut Deserializer<'de, '_, F>,
    ) -> Result<NEIndexSet<T>, F::Error>
        ensures { OnOk result ((item : _) × BeginsSeq F.gives F.stays from.old item) }
    {
        read_seq::<Borrows, _, _>(alloc, from)
    }
}

/// Reads a sequence, and inserts its items in their order. An empty one is an error, at its place
/// in the input.
impl<T: DeserializeOwned + Eq + Hash> DeserializeOwned for NEIndexSet<T> {
    fn deserialize_owned<F: Format>(
        alloc: Global,
        from: &mut Deserializer<'_, '_, F>,
    ) -> Result<NEIndexSet<T>, F::Error>
        ensures { OnOk result ((item : _) × BeginsSeq F.gives F.stays from.old item) }
    {
        read_seq::<Owns, _, _>(alloc, from)
    }
}
