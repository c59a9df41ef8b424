//! Writing an [`NEVec`] to a format and reading it back, by the traits of `serde`.
ghost use Rattle.std.specs.Prelude.{OnOk};
ghost use Rattle.serde.specs.Event.{WritesSeq};
ghost use Rattle.ne_vec.specs.Read.{BeginsSeq};

use super::NEVec;
use crate::serialized::{Borrows, Owns, read_seq};
use serde::{
    Described, Deserialize, DeserializeOwned, Deserializer, Format, Serialize, Serializer,
};
use std::alloc::Global;

/// Writes what a `Vec` of the items writes.
impl<T: Described> Described for NEVec<T> {
    ghost writes = { WritesSeq T.writes };
}

impl<T: Serialize> Serialize for NEVec<T> {
    fn serialize<S: Serializer>(&self, out: &mut S) -> Result<(), S::Error> {
        self.inner.serialize(out)
    }
}

/// Reads a sequence. An empty one is an error, at its place in the input.
impl<'de, T: Deserialize<'de>> Deserialize<'de> for NEVec<T> {
    fn deserialize<F: Format>(
        alloc: Global,
        from: &mut Deserializer<'de, '_, F>,
    ) -> Result<NEVec<T>, F::Error>
        ensures { OnOk result ((item : _) × BeginsSeq F.gives F.stays from.old item) }
    {
        read_seq::<Borrows, _, _>(alloc, from)
    }
}

/// Reads a sequence. An empty one is an error, at its place in the input.
impl<T: DeserializeOwned> DeserializeOwned for NEVec<T> {
    fn deserialize_owned<F: Format>(
        alloc: Global,
        from: &mut Deserializer<'_, '_, F>,
    ) -> Result<NEVec<T>, F::Error>
        ensures { OnOk result ((item : _) × BeginsSeq F.gives F.stays from.old item) }
    {
        read_seq::<Owns, _, _>(alloc, from)
    }
}
