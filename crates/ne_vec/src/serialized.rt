//! Reading a collection that holds at least one item from a format, by `serde`.
//!
//! Each collection but `NEString`, which is read as a text, is read by one of these functions,
//! through [`Singleton`]: a vector, queue, heap or set from a sequence, a map from a map. The items
//! are added in the order in which they come, so of equal keys the collection keeps what its
//! insertion keeps. A sequence or a map without items is the format's error with the text of
//! [`Error::Empty`](crate::Error::Empty).
ghost use Rattle.std.specs.Prelude.{OnOk};
ghost use Rattle.ne_vec.specs.Read.{BeginsMap, BeginsSeq};

use crate::Singleton;
use serde::{Deserialize, DeserializeOwned, Deserializer, Format};
use std::alloc::Global;

/// The text of [`Error::Empty`](crate::Error::Empty), with which a format refuses what is empty.
///
/// ```
/// let said = format!(in alloc; "{}", Error::Empty)?; // EMPTY
/// ```
pub const EMPTY: &str = "Given collection was empty";

/// How an item, a key or a value is read: as one that [`Borrows`] from the input, or as one that
/// [`Owns`] what it holds.
pub trait Reader<'de, T> {
    /// Reads a value. Returns the format's error if none is read.
    fn read<F: Format>(alloc: Global, from: &mut Deserializer<'de, '_, F>) -> Result<T, F::Error>;
}

/// Reads by [`Deserialize`].
pub struct Borrows;

impl<'de, T: Deserialize<'de>> Reader<'de, T> for Borrows {
    fn read<F: Format>(alloc: Global, from: &mut Deserializer<'de, '_, F>) -> Result<T, F::Error> {
        T::deserialize(alloc, from)
    }
}

/// Reads by [`DeserializeOwned`].
pub struct Owns;

impl<'de, T: DeserializeOwned> Reader<'de, T> for Owns {
    fn read<F: Format>(alloc: Global, from: &mut Deserializer<'de, '_, F>) -> Result<T, F::Error> {
        T::deserialize_owned(alloc, from)
    }
}

/// Reads a sequence of at least one item.
///
/// Returns the format's error if no sequence comes, if it has no item, if an item is not read, or
/// if an allocation fails.
pub fn read_seq<'de, R: Reader<'de, C::Item>, C: Singleton + Drop, F: Format>(
    alloc: Global,
    from: &mut Deserializer<'de, '_, F>,
) -> Result<C, F::Error>
    ensures { OnOk result ((item : _) × BeginsSeq F.gives F.stays from.old item) }
{
    begin_seq(from)?;
    let first = R::read(alloc, from)?;
    let Ok(mut made) = C::singleton(alloc, first) else {
        return Err(from.no_memory());
    };
    // No input has as many items as this: the bound is there since each loop has to end.
    for _ in 0..u64::MAX {
        if !from.next_item()? {
            break;
        }
        let item = R::read(alloc, from)?;
        if made.extend_one(item).is_err() {
            return Err(from.no_memory());
        }
    }
    Ok(made)
}

/// Reads a map of at least one entry.
///
/// Returns the format's error if no map comes, if it has no entry, if a key or a value is not read,
/// or if an allocation fails.
pub fn read_map<'de, R: Reader<'de, K> + Reader<'de, V>, C, K: Drop, V: Drop, F: Format>(
    alloc: Global,
    from: &mut Deserializer<'de, '_, F>,
) -> Result<C, F::Error>
where
    C: Singleton<Item = (K, V)> + Drop,
    ensures { OnOk result ((key : _) × BeginsMap F.gives from.old key) }
{
    begin_map(from)?;
    let key = <R as Reader<'de, K>>::read(alloc, from)?;
    let value = <R as Reader<'de, V>>::read(alloc, from)?;
    let Ok(mut made) = C::singleton(alloc, (key, value)) else {
        return Err(from.no_memory());
    };
    for _ in 0..u64::MAX {
        if !from.next_entry()? {
            break;
        }
        let key = <R as Reader<'de, K>>::read(alloc, from)?;
        let value = <R as Reader<'de, V>>::read(alloc, from)?;
        if made.extend_one((key, value)).is_err() {
            return Err(from.no_memory());
        }
    }
    Ok(made)
}

// Begins a sequence, in which an item has to come.
fn begin_seq<F: Format>(from: &mut Deserializer<'_, '_, F>) -> Result<(), F::Error>
    ensures { OnOk result (BeginsSeq F.gives F.stays from.old from.new) }
{
    from.begin_seq()?;
    if from.next_item()? {
        Ok(())
    } else {
        Err(from.custom(EMPTY))
    }
}

// Begins a map, in which an entry has to come.
fn begin_map<F: Format>(from: &mut Deserializer<'_, '_, F>) -> Result<(), F::Error>
    ensures { OnOk result (BeginsMap F.gives from.old from.new) }
{
    from.begin_map()?;
    if from.next_entry()? {
        Ok(())
    } else {
        Err(from.custom(EMPTY))
    }
}
