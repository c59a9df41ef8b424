//! Queries, which are built step by step, or read by `serde`. No name, condition or list of a query
//! is empty.
ghost use Rattle.std.specs.Prelude.{◌≡◌, ◌++◌, ◌∷◌, [], IfOk, Some, None, MatchOption};
ghost use Rattle.std.specs.Prelude.{string_bytes};
ghost use Rattle.std.specs.List.{join_by};
ghost use Rattle.user_programs.specs.Queries.{query_text};

use ne_string::NEString;
use nonempty_collections::{NEVec, NonEmptyIterator};
use serde::Deserialize;
use std::alloc::{AllocError, Global};

/// A query for columns of a table, with conditions if there are any.
#[derive(Deserialize, Drop)]
#[serde(deny_unknown_fields)]
pub struct Query {
    pub columns: NEVec<NEString>,
    pub table: NEString,
    pub conditions: Option<NEVec<NEString>>,
}

impl Query {
    /// Returns a query for one column.
    pub fn select(alloc: Global, table: NEString, column: NEString) -> Result<Query, AllocError>
        ensures { IfOk result (λ q.
            (q.columns ≡ column ∷ []) × (q.table ≡ table) × (q.conditions ≡ None)) }
    {
        let columns = NEVec::new(alloc, column)?;
        Ok(Query {
            columns,
            table,
            conditions: None,
        })
    }

    /// Returns the query with one more column.
    pub fn column(mut self, column: NEString) -> Result<Query, AllocError>
        ensures { IfOk result (λ q. (q.columns ≡ self.columns ++ column ∷ [])
            × (q.table ≡ self.table) × (q.conditions ≡ self.conditions)) }
    {
        self.columns.push(column)?;
        Ok(self)
    }

    /// Returns the query with one more condition.
    pub fn filter(mut self, alloc: Global, condition: NEString) -> Result<Query, AllocError>
        ensures { IfOk result (λ q. (q.columns ≡ self.columns) × (q.table ≡ self.table)
            × MatchOption self.conditions (q.conditions ≡ Some (condition ∷ []))
            (λ those. q.conditions ≡ Some (those ++ condition ∷ []))) }
    {
        match &mut self.conditions {
            Some(those) => those.push(condition)?,
            None => self.conditions = Some(NEVec::new(alloc, condition)?),
        }
        Ok(self)
    }

    /// Returns the text of the query.
    pub fn to_text(&self, alloc: Global) -> Result<String, AllocError>
        ensures { IfOk result (λ text.
            string_bytes text ≡ query_text self.now.columns self.now.table self.now.conditions) }
    {
        let mut text = String::from_str(alloc, "SELECT ")?;
        text.push_str(joined(alloc, &self.columns, ", ")?.as_str())?;
        text.push_str(" FROM ")?;
        text.push_str(self.table.as_str())?;
        if let Some(conditions) = &self.conditions {
            text.push_str(" WHERE ")?;
            text.push_str(joined(alloc, conditions, " AND ")?.as_str())?;
        }
        Ok(text)
    }
}

/// Returns the parts as one text, with the separator between each two.
pub fn joined<'a>(
    alloc: Global,
    parts: &'a NEVec<NEString>,
    separator: &'a str,
) -> Result<String, AllocError>
    ensures { IfOk result (λ text.
        string_bytes text ≡ join_by (λ part. part) separator.now parts.now) }
{
    parts
        .nonempty_iter()
        .map(|part| part.as_str())
        .intersperse(separator)
        .collect::<Result<String, AllocError>>(alloc)?
}
