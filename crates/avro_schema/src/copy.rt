//! Copies of schemas.
ghost use Rattle.std.specs.Prelude.{◌≡◌, IfOk, map};
ghost use Rattle.avro_schema.specs.Tree.{tree_of, shape_of, field_of};

use crate::schema::{Field, Schema, Shape};
use lake_basics::Text;
use std::alloc::{AllocError, Global};

impl Schema {
    /// An equal schema.
    pub fn copy(&self, alloc: Global) -> Result<Schema, AllocError>
        ensures { IfOk result (λ s. tree_of s ≡ tree_of self.now) }
    {
        schema(alloc, self)
    }
}

fn text_if_any(alloc: Global, found: &Option<Text>) -> Result<Option<Text>, AllocError>
    ensures { IfOk result (λ t. t ≡ found.now) }
{
    match found {
        None => Ok(None),
        Some(found) => Ok(Some(found.copy(alloc)?)),
    }
}

fn texts(alloc: Global, found: &Vec<Text>) -> Result<Vec<Text>, AllocError>
    ensures { IfOk result (λ ts. ts.items ≡ found.now.items) }
{
    let mut copies = Vec::new(alloc);
    for one in found {
        copies.push(one.copy(alloc)?)?;
    }
    Ok(copies)
}

#[cycle(copy)]
fn schema(alloc: Global, found: &Schema) -> Result<Schema, AllocError>
    ensures { IfOk result (λ s. tree_of s ≡ tree_of found.now) }
{
    Ok(Schema {
        shape: shape(alloc, &found.shape)?,
        logical: text_if_any(alloc, &found.logical)?,
        precision: found.precision,
        scale: found.scale,
    })
}

#[cycle(copy)]
fn shape(alloc: Global, found: &Shape) -> Result<Shape, AllocError>
    ensures { IfOk result (λ s. shape_of s ≡ shape_of found.now) }
{
    match found {
        Shape::Null => Ok(Shape::Null),
        Shape::Boolean => Ok(Shape::Boolean),
        Shape::Int => Ok(Shape::Int),
        Shape::Long => Ok(Shape::Long),
        Shape::Float => Ok(Shape::Float),
        Shape::Double => Ok(Shape::Double),
        Shape::Bytes => Ok(Shape::Bytes),
        Shape::Text => Ok(Shape::Text),
        Shape::Fixed { name, size } => Ok(Shape::Fixed {
            name: name.copy(alloc)?,
            size: *size,
        }),
        Shape::Enum { name, symbols } => Ok(Shape::Enum {
            name: name.copy(alloc)?,
            symbols: texts(alloc, symbols)?,
        }),
        Shape::Array { items, element_id } => Ok(Shape::Array {
            items: Box::new(alloc, schema(alloc, items)?)?,
            element_id: *element_id,
        }),
        Shape::Map {
            values,
            key_id,
            value_id,
        } => Ok(Shape::Map {
            values: Box::new(alloc, schema(alloc, values)?)?,
            key_id: *key_id,
            value_id: *value_id,
        }),
        Shape::Union(branches) => Ok(Shape::Union(schemas(alloc, branches)?)),
        Shape::Fields { name, fields } => Ok(Shape::Fields {
            name: name.copy(alloc)?,
            fields: field_list(alloc, fields)?,
        }),
    }
}

#[cycle(copy)]
fn schemas(alloc: Global, found: &Vec<Schema>) -> Result<Vec<Schema>, AllocError>
    ensures { IfOk result (λ ss. map tree_of ss.items ≡ map tree_of found.now.items) }
{
    let mut copies = Vec::new(alloc);
    for one in found {
        copies.push(schema(alloc, one)?)?;
    }
    Ok(copies)
}

#[cycle(copy)]
fn field_list(alloc: Global, found: &Vec<Field>) -> Result<Vec<Field>, AllocError>
    ensures { IfOk result (λ fs. map field_of fs.items ≡ map field_of found.now.items) }
{
    let mut copies = Vec::new(alloc);
    for one in found {
        copies.push(Field {
            name: one.name.copy(alloc)?,
            schema: schema(alloc, &one.schema)?,
            field_id: one.field_id,
        })?;
    }
    Ok(copies)
}
