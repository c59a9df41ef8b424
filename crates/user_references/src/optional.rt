//! Fields that may be missing: what is there, by reference, or the first record that lacks it.
ghost use Rattle.std.specs.Prelude.{◌≡◌, IfOk, None, Some, cond, filter_map, map, ok_or};
ghost use Rattle.std.specs.Prelude.{option_map, string_bytes};
ghost use Rattle.ne_iter.specs.Collected.{values_or_first_err};

use ne_iter::NonEmptyIterator;
use ne_vec::NEVec;
use std::alloc::{AllocError, Global};

/// A person, whose name and phone number may be unknown.
pub struct Person {
    pub id: u32,
    pub is_member: bool,
    pub name: Option<String>,
    pub phone: Option<u32>,
}

/// Returns references to the phone numbers that are known.
pub fn phones<'a>(alloc: Global, people: &'a NEVec<Person>) -> Result<Vec<&'a u32>, AllocError>
    ensures { IfOk result (λ v.
        map (λ x. x.now) v.items ≡ filter_map (λ p. p.phone) people.now) }
{
    people
        .nonempty_iter()
        .filter_map(|p| p.phone.as_ref())
        .collect(alloc)
}

/// Returns references to the numbers of the members.
pub fn members<'a>(alloc: Global, people: &'a NEVec<Person>) -> Result<Vec<&'a u32>, AllocError>
    ensures { IfOk result (λ v. map (λ x. x.now) v.items
        ≡ filter_map (λ p. cond p.is_member (Some p.id) None) people.now) }
{
    people
        .nonempty_iter()
        .filter_map(|p| if p.is_member { Some(&p.id) } else { None })
        .collect(alloc)
}

/// Returns the names that are known.
pub fn names<'a>(alloc: Global, people: &'a NEVec<Person>) -> Result<Vec<&'a str>, AllocError>
    ensures { IfOk result (λ v. map (λ t. t.now) v.items
        ≡ filter_map (λ p. option_map string_bytes p.name) people.now) }
{
    people
        .nonempty_iter()
        .filter_map(|p| p.name.as_ref().map(|name| name.as_str()))
        .collect(alloc)
}

/// Returns all phone numbers, or the number of the first person whose phone number is unknown.
pub fn all_phones(
    alloc: Global,
    people: &NEVec<Person>,
) -> Result<Result<NEVec<u32>, u32>, AllocError>
    ensures { IfOk result (λ r.
        r ≡ values_or_first_err (map (λ p. ok_or p.phone p.id) people.now)) }
{
    people
        .nonempty_iter()
        .map(|p| p.phone.ok_or(p.id))
        .collect(alloc)
}
