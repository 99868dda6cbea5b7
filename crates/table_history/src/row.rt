//! A live file of a table.
ghost use Rattle.std.specs.Prelude.{◌≡◌, ◌↔◌, IsTrue, IfOk};

use lake_basics::{Items, Text};
use std::alloc::{AllocError, Global};
use std::marker::Model;

/// The value of a partition column. A date is its number of days since 1970-01-01.
#[derive(Debug, PartialEq, Eq, Drop)]
pub enum PartValue {
    Null,
    Boolean(bool),
    Int(i32),
    Long(i64),
    Text(Text),
    Date(i32),
}

impl PartValue {
    /// An equal value.
    pub fn copy(&self, alloc: Global) -> Result<PartValue, AllocError>
        ensures { IfOk result (λ v. v ≡ self.now) }
    {
        match self {
            PartValue::Null => Ok(PartValue::Null),
            PartValue::Boolean(b) => Ok(PartValue::Boolean(*b)),
            PartValue::Int(n) => Ok(PartValue::Int(*n)),
            PartValue::Long(n) => Ok(PartValue::Long(*n)),
            PartValue::Text(text) => Ok(PartValue::Text(text.copy(alloc)?)),
            PartValue::Date(days) => Ok(PartValue::Date(*days)),
        }
    }
}

/// The values of the partition columns, in their order.
pub type Values = Items<PartValue>;

/// A live file: its path in the table's folder, the values of the partition columns in their order,
/// how many records it has, and its size in bytes. Both numbers are under 2^63.
#[derive(Debug, PartialEq, Eq, Drop)]
pub struct FileRow {
    pub path: Text,
    pub values: Values,
    pub count: u64,
    pub size: u64,
}

impl Model for FileRow {
    ghost use Rattle.std.specs.Prelude.{◌<◌, ◌^◌};
    ghost use Rattle.table_history.specs.Row.{Row};

    ghost Value = { Row };

    ghost view = { λ r. record {
      path = r.path;
      values = r.values;
      count = r.count;
      size = r.size;
    } };

    ghost inverse = { λ r. record {
      path = r.path;
      values = r.values;
      count = r.count;
      size = r.size;
    } };

    ghost invariant = { λ r. (r.count < 2 ^ 63) × (r.size < 2 ^ 63) };
}

impl FileRow {
    /// An equal row.
    pub fn copy(&self, alloc: Global) -> Result<FileRow, AllocError>
        ensures { IfOk result (λ r. r ≡ self.now) }
    {
        let path = self.path.copy(alloc)?;
        let values = copy_values(self.values.as_slice(), alloc)?;
        Ok(FileRow {
            path,
            values: Items::from_vec(values),
            count: self.count,
            size: self.size,
        })
    }

    // Whether the two rows are one.
    pub(crate) fn is_same(&self, other: &FileRow) -> bool
        ensures { IsTrue result ↔ (self.now ≡ other.now) }
    {
        *self == *other
    }
}

// Equal rows, in their order.
pub(crate) fn copy_rows(rows: &[FileRow], alloc: Global) -> Result<Vec<FileRow>, AllocError>
    ensures { IfOk result (λ v. v.items ≡ rows.now) }
{
    let mut copies = Vec::with_capacity(alloc, rows.len())?;
    for row in rows {
        copies.push(row.copy(alloc)?)?;
    }
    Ok(copies)
}

fn copy_values(values: &[PartValue], alloc: Global) -> Result<Vec<PartValue>, AllocError>
    ensures { IfOk result (λ v. v.items ≡ values.now) }
{
    let mut copies = Vec::with_capacity(alloc, values.len())?;
    for value in values {
        copies.push(value.copy(alloc)?)?;
    }
    Ok(copies)
}
