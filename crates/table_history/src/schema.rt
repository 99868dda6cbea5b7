//! Schemas: the columns of a table and their types.
ghost use Rattle.std.specs.Prelude.{◌≡◌, ◌↔◌, IfOk, IsTrue};
ghost use Rattle.std.specs.Cmp as cmp;
ghost use Rattle.table_history.specs.SchemaView.{type_view, column_view, columns_view};
ghost use Rattle.table_history.specs.TypeTree.{decimal, list_of};
ghost use Rattle.table_history.specs.TypeEq.{type_eq, column_eq, columns_eq};

use lake_basics::Text;
use std::alloc::{AllocError, Global};
use std::marker::Model;

/// The type of a column. Equal types have equal parts, whatever room their lists have.
#[derive(Debug, Drop)]
#[cycle(schema)]
pub enum ColumnType {
    Boolean,
    Byte,
    Short,
    Int,
    Long,
    Float,
    Double,
    Decimal {
        precision: u8,
        scale: u8,
    },
    Text,
    Binary,
    Date,
    Timestamp,
    TimestampNtz,
    Struct(Vec<Column>),
    List {
        element: Box<ColumnType>,
        nullable: bool,
    },
    Map {
        key: Box<ColumnType>,
        value: Box<ColumnType>,
        nullable: bool,
    },
}

/// A column, or a field of a struct: its name, its type, and whether it may be null.
#[derive(Debug, Drop)]
#[cycle(schema)]
pub struct Column {
    pub name: Text,
    pub kind: ColumnType,
    pub nullable: bool,
}

impl ColumnType {
    /// Whether the two are one type, with their parts.
    pub fn is_same(&self, other: &ColumnType) -> bool
        ensures { IsTrue result ↔ (type_view self.now ≡ type_view other.now) }
    {
        same_type(self, other)
    }

    /// A type of the same tree.
    #[cycle(copy)]
    pub fn copy(&self, alloc: Global) -> Result<ColumnType, AllocError>
        ensures { IfOk result (λ t. type_view t ≡ type_view self.now) }
    {
        match self {
            ColumnType::Boolean => Ok(ColumnType::Boolean),
            ColumnType::Byte => Ok(ColumnType::Byte),
            ColumnType::Short => Ok(ColumnType::Short),
            ColumnType::Int => Ok(ColumnType::Int),
            ColumnType::Long => Ok(ColumnType::Long),
            ColumnType::Float => Ok(ColumnType::Float),
            ColumnType::Double => Ok(ColumnType::Double),
            ColumnType::Decimal { precision, scale } => Ok(ColumnType::Decimal {
                precision: *precision,
                scale: *scale,
            }),
            ColumnType::Text => Ok(ColumnType::Text),
            ColumnType::Binary => Ok(ColumnType::Binary),
            ColumnType::Date => Ok(ColumnType::Date),
            ColumnType::Timestamp => Ok(ColumnType::Timestamp),
            ColumnType::TimestampNtz => Ok(ColumnType::TimestampNtz),
            ColumnType::Struct(columns) => Ok(ColumnType::Struct(copy_columns(columns, alloc)?)),
            ColumnType::List { element, nullable } => {
                let element = element.copy(alloc)?;
                Ok(ColumnType::List {
                    element: Box::new(alloc, element)?,
                    nullable: *nullable,
                })
            }
            ColumnType::Map {
                key,
                value,
                nullable,
            } => {
                let key = key.copy(alloc)?;
                let value = value.copy(alloc)?;
                Ok(ColumnType::Map {
                    key: Box::new(alloc, key)?,
                    value: Box::new(alloc, value)?,
                    nullable: *nullable,
                })
            }
        }
    }
}

#[cycle(copy)]
fn copy_columns(columns: &Vec<Column>, alloc: Global) -> Result<Vec<Column>, AllocError>
    ensures { IfOk result (λ v. columns_view v.items ≡ columns_view columns.now.items) }
{
    let mut copies = Vec::with_capacity(alloc, columns.len())?;
    for column in columns {
        let name = column.name.copy(alloc)?;
        let kind = column.kind.copy(alloc)?;
        let nullable = column.nullable;
        copies.push(Column {
            name,
            kind,
            nullable,
        })?;
    }
    Ok(copies)
}

// Whether the two are types of one tree.
#[cycle(same)]
fn same_type(kind: &ColumnType, other: &ColumnType) -> bool
    ensures { result ≡ type_eq (type_view kind.now) (type_view other.now) }
{
    match kind {
        ColumnType::Boolean => matches!(other, ColumnType::Boolean),
        ColumnType::Byte => matches!(other, ColumnType::Byte),
        ColumnType::Short => matches!(other, ColumnType::Short),
        ColumnType::Int => matches!(other, ColumnType::Int),
        ColumnType::Long => matches!(other, ColumnType::Long),
        ColumnType::Float => matches!(other, ColumnType::Float),
        ColumnType::Double => matches!(other, ColumnType::Double),
        ColumnType::Text => matches!(other, ColumnType::Text),
        ColumnType::Binary => matches!(other, ColumnType::Binary),
        ColumnType::Date => matches!(other, ColumnType::Date),
        ColumnType::Timestamp => matches!(other, ColumnType::Timestamp),
        ColumnType::TimestampNtz => matches!(other, ColumnType::TimestampNtz),
        ColumnType::Decimal { precision, scale } => same_decimal(*precision, *scale, other),
        ColumnType::Struct(columns) => match other {
            ColumnType::Struct(others) => same_columns(columns, others),
            _ => false,
        },
        ColumnType::List { element, nullable } => same_list(element, *nullable, other),
        ColumnType::Map {
            key,
            value,
            nullable,
        } => match other {
            ColumnType::Map {
                key: other_key,
                value: other_value,
                nullable: may_be_null,
            } => {
                same_type(key, other_key)
                    && same_type(value, other_value)
                    && *nullable == *may_be_null
            }
            _ => false,
        },
    }
}

fn same_decimal(precision: u8, scale: u8, other: &ColumnType) -> bool
    ensures { result ≡ type_eq (decimal precision scale) (type_view other.now) }
{
    match other {
        ColumnType::Decimal {
            precision: digits,
            scale: behind,
        } => precision == *digits && scale == *behind,
        _ => false,
    }
}

#[cycle(same)]
fn same_list(element: &ColumnType, nullable: bool, other: &ColumnType) -> bool
    ensures { result ≡ type_eq (list_of (type_view element.now) nullable) (type_view other.now) }
{
    match other {
        ColumnType::List {
            element: other,
            nullable: may_be_null,
        } => same_type(element, other) && nullable == *may_be_null,
        _ => false,
    }
}

#[cycle(same)]
fn same_columns(columns: &Vec<Column>, others: &Vec<Column>) -> bool
    ensures { result
        ≡ columns_eq (columns_view columns.now.items) (columns_view others.now.items) }
{
    let others = others.as_slice();
    if columns.as_slice().len() != others.len() {
        return false;
    }
    for (place, column) in columns.iter().enumerate() {
        if !same_column(column, &others[place]) {
            return false;
        }
    }
    true
}

#[cycle(same)]
fn same_column(column: &Column, other: &Column) -> bool
    ensures { result ≡ column_eq (column_view column.now) (column_view other.now) }
{
    column.name == other.name
        && same_type(&column.kind, &other.kind)
        && column.nullable == other.nullable
}

/// The columns of a table, which a contract sees as plain trees.
#[derive(Debug, Drop)]
pub struct Schema {
    columns: Vec<Column>,
}

impl Model for Schema {
    ghost use Rattle.table_history.specs.TypeTree.{ColumnTrees};
    ghost use Rattle.table_history.specs.TypeTreeCode.{columns_code};

    ghost Value = { ColumnTrees };

    ghost coded = { columns_code };

    ghost use Rattle.table_history.specs.SchemaView.{columns_view};

    ghost view = { λ s. columns_view s.columns.items };
}

impl Schema {
    /// The schema of these columns.
    pub fn new(columns: Vec<Column>) -> Schema
        ensures { result ≡ columns_view columns.items }
    {
        Schema { columns }
    }

    /// The top-level columns.
    pub fn columns(&self) -> &[Column]
        ensures { columns_view result.now ≡ self.now }
    {
        self.columns.as_slice()
    }

    /// An equal schema.
    pub fn copy(&self, alloc: Global) -> Result<Schema, AllocError>
        ensures { IfOk result (λ s. s ≡ self.now) }
    {
        let columns = copy_columns(&self.columns, alloc)?;
        Ok(Schema { columns })
    }
}

impl PartialEq for Schema {
    ghost use Rattle.table_history.specs.TypeEqLaws.{columns_equiv};

    ghost eq = { columns_eq };

    ghost laws = { cmp.partial_equiv_from_equiv columns_equiv };

    fn eq(&self, other: &Schema) -> bool {
        same_columns(&self.columns, &other.columns)
    }
}

impl Eq for Schema {
    ghost use Rattle.table_history.specs.TypeEqLaws.{columns_equiv};

    ghost laws = { columns_equiv };
}
