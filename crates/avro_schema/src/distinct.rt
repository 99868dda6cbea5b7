//! Whether texts are distinct.
ghost use Rattle.std.specs.Prelude.{◌≡◌, IfOk, map};
ghost use Rattle.avro_schema.specs.Tree.{field_of};
ghost use Rattle.avro_schema.specs.Names.{are_distinct};
ghost use Rattle.avro_schema.specs.Reading.{field_name};

use crate::schema::Field;
use indexmap::IndexSet;
use lake_basics::Text;
use std::alloc::{AllocError, Global};

/// Whether no text stands twice.
pub fn texts_are_distinct(alloc: Global, texts: &Vec<Text>) -> Result<bool, AllocError>
    ensures { IfOk result (λ b. b ≡ are_distinct texts.now.items) }
{
    let mut seen = IndexSet::new(alloc);
    for text in texts {
        if !seen.insert(text.as_str())? {
            return Ok(false);
        }
    }
    Ok(true)
}

/// Whether the fields' names are.
pub fn fields_are_distinct(alloc: Global, fields: &Vec<Field>) -> Result<bool, AllocError>
    ensures { IfOk result (λ b. b ≡ are_distinct (map field_name (map field_of fields.now.items))) }
{
    let mut seen = IndexSet::new(alloc);
    for field in fields {
        if !seen.insert(field.name.as_str())? {
            return Ok(false);
        }
    }
    Ok(true)
}
