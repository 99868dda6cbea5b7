//! Types as far as a later one has to keep them.

ghost use Rattle.std.specs.Prelude.{◌≡◌, ◌∷◌, ◌++◌, IfOk, OnOk, map};
ghost use Rattle.table_history.specs.SchemaView.{columns_view, type_view};
ghost use Rattle.target_iceberg.specs.Fitting.{column_types, inner_types};
ghost use Rattle.target_iceberg.specs.Shapes.{shape_of, widens};

use std::alloc::{AllocError, Global};
use table_history::{Column, ColumnType, Schema};

/// A type without the parts of structs, lists and maps, which are columns of their own.
#[derive(Clone, Copy, PartialEq, Eq)]
pub(crate) enum Shape {
    Boolean,
    Byte,
    Short,
    Int,
    Long,
    Float,
    Double,
    Decimal { precision: u8, scale: u8 },
    Text,
    Binary,
    Date,
    Timestamp,
    TimestampNtz,
    Struct,
    List,
    Map,
}

impl Shape {
    fn of(kind: &ColumnType) -> Shape
        ensures { result ≡ shape_of (type_view kind.now) }
    {
        match kind {
            ColumnType::Boolean => Shape::Boolean,
            ColumnType::Byte => Shape::Byte,
            ColumnType::Short => Shape::Short,
            ColumnType::Int => Shape::Int,
            ColumnType::Long => Shape::Long,
            ColumnType::Float => Shape::Float,
            ColumnType::Double => Shape::Double,
            ColumnType::Decimal { precision, scale } => Shape::Decimal {
                precision: *precision,
                scale: *scale,
            },
            ColumnType::Text => Shape::Text,
            ColumnType::Binary => Shape::Binary,
            ColumnType::Date => Shape::Date,
            ColumnType::Timestamp => Shape::Timestamp,
            ColumnType::TimestampNtz => Shape::TimestampNtz,
            ColumnType::Struct(_) => Shape::Struct,
            ColumnType::List { .. } => Shape::List,
            ColumnType::Map { .. } => Shape::Map,
        }
    }

    /// Whether a column of this shape may have the other one later on: int becomes long, float
    /// double, and a decimal one of more digits (Iceberg specification, "Schema Evolution").
    pub(crate) fn widens_to(self, other: Shape) -> bool
        ensures { result ≡ widens self other }
    {
        match (self, other) {
            (Shape::Int, Shape::Long) | (Shape::Float, Shape::Double) => true,
            (
                Shape::Decimal { precision, scale },
                Shape::Decimal {
                    precision: digits,
                    scale: behind,
                },
            ) => scale == behind && precision <= digits,
            _ => self == other,
        }
    }
}

/// Adds the shape of a part, and then those inside it.
#[cycle(shapes)]
fn push_part(shapes: &mut Vec<Shape>, kind: &ColumnType) -> Result<(), AllocError>
    ensures { OnOk result (shapes.new.items ≡ shapes.old.items
        ++ map shape_of (type_view kind.now ∷ inner_types (type_view kind.now))) }
{
    shapes.push(Shape::of(kind))?;
    push_inner(shapes, kind)
}

/// Adds the shapes inside a type.
#[cycle(shapes)]
fn push_inner(shapes: &mut Vec<Shape>, kind: &ColumnType) -> Result<(), AllocError>
    ensures { OnOk result (shapes.new.items ≡ shapes.old.items
        ++ map shape_of (inner_types (type_view kind.now))) }
{
    match kind {
        ColumnType::Struct(columns) => push_columns(shapes, columns.as_slice()),
        ColumnType::List { element, .. } => push_part(shapes, element),
        ColumnType::Map { key, value, .. } => {
            push_part(shapes, key)?;
            push_part(shapes, value)
        }
        _ => Ok(()),
    }
}

#[cycle(shapes)]
fn push_columns(shapes: &mut Vec<Shape>, columns: &[Column]) -> Result<(), AllocError>
    ensures { OnOk result (shapes.new.items ≡ shapes.old.items
        ++ map shape_of (column_types (columns_view columns.now))) }
{
    for column in columns {
        push_part(shapes, &column.kind)?;
    }
    Ok(())
}

/// The shapes of a schema's columns, depth first.
pub(crate) fn column_shapes(alloc: Global, schema: &Schema) -> Result<Vec<Shape>, AllocError>
    ensures { IfOk result (λ shapes. shapes.items ≡ map shape_of (column_types schema.now)) }
{
    let mut shapes = Vec::new(alloc);
    push_columns(&mut shapes, schema.columns())?;
    Ok(shapes)
}
