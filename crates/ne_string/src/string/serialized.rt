//! Writing a text to a format and reading it back, by the traits of `serde`. It is written as a
//! `String` is, and an empty text is an error.
ghost use Rattle.serde.specs.Event.{Logs, text};

use super::NEString;
use ne_vec::serialized::EMPTY;
use serde::{
    Described, Deserialize, DeserializeOwned, Deserializer, Format, Serialize, Serializer,
};
use std::alloc::Global;

impl Described for NEString {
    ghost writes = { λ s old new. Logs old new (text s) };
}

impl Serialize for NEString {
    fn serialize<S: Serializer>(&self, out: &mut S) -> Result<(), S::Error> {
        out.str(self.inner.as_str())
    }
}

/// Reads a text, which must not be empty. The clause says that an `Ok` is the text that was read.
impl<'de> Deserialize<'de> for NEString {
    ghost use Rattle.std.specs.Prelude.{IfOk};
    ghost use Rattle.serde.specs.Event.{text};
    ghost use Rattle.serde.specs.Steps.{Gives};

    fn deserialize<F: Format>(
        alloc: Global,
        from: &mut Deserializer<'de, '_, F>,
    ) -> Result<NEString, F::Error>
        ensures { IfOk result (λ s. Gives F.gives from.old (text s) from.new) }
    {
        NEString::deserialize_owned(alloc, from)
    }
}

/// Reads a text, which must not be empty, as `Deserialize` does.
impl DeserializeOwned for NEString {
    ghost use Rattle.std.specs.Prelude.{IfOk};
    ghost use Rattle.serde.specs.Event.{text};
    ghost use Rattle.serde.specs.Steps.{Gives};

    fn deserialize_owned<F: Format>(
        alloc: Global,
        from: &mut Deserializer<'_, '_, F>,
    ) -> Result<NEString, F::Error>
        ensures { IfOk result (λ s. Gives F.gives from.old (text s) from.new) }
    {
        let text = from.string(alloc)?;
        match NEString::try_from_string(text) {
            Some(made) => Ok(made),
            None => Err(from.custom(EMPTY)),
        }
    }
}
