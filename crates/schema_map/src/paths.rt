//! The column paths of a schema, which its field ids go by.

ghost use Rattle.std.specs.Prelude.{◌≡◌, ◌++◌, ◌∷◌, [], IfOk, OnOk, map};
ghost use Rattle.table_history.specs.SchemaView.{type_view, columns_view};
ghost use Rattle.schema_map.specs.Paths.{below, inner_paths, column_paths};

use lake_basics::{Items, Text};
use std::alloc::{AllocError, Global};
use table_history::{Column, ColumnType, Schema};

/// The field ids of a schema, depth first.
pub type Ids = Items<i32>;

/// The names from the top, with `element`, `key` and `value` for the parts of lists and maps.
pub type ColumnPath = Items<Text>;

fn path_with(alloc: Global, prefix: &ColumnPath, name: &str) -> Result<ColumnPath, AllocError>
    ensures { IfOk result (λ p. p ≡ prefix.now ++ name.now ∷ []) }
{
    let mut path = Items::new(alloc);
    for part in prefix.as_slice() {
        path.push(part.copy(alloc)?)?;
    }
    path.push(Text::from_str(alloc, name)?)?;
    Ok(path)
}

/// Adds the path of a part, and then those inside it.
#[tactic(auto, using(crate::proofs::Prefixes::below_prefix))]
#[cycle(paths)]
fn push_part(
    alloc: Global,
    paths: &mut Vec<ColumnPath>,
    prefix: &ColumnPath,
    name: &str,
    kind: &ColumnType,
) -> Result<(), AllocError>
    ensures { OnOk result (paths.new.items ≡ paths.old.items ++ map (λ p. prefix.now ++ p) (below name.now (inner_paths (type_view kind.now)))) }
{
    let path = path_with(alloc, prefix, name)?;
    paths.push(path)?;
    let inner = path_with(alloc, prefix, name)?;
    push_inner(alloc, paths, &inner, kind)?;
    Ok(())
}

/// Adds the paths inside a type.
#[tactic(auto, using(crate::proofs::Prefixes::map_two))]
#[cycle(paths)]
fn push_inner(
    alloc: Global,
    paths: &mut Vec<ColumnPath>,
    prefix: &ColumnPath,
    kind: &ColumnType,
) -> Result<(), AllocError>
    ensures { OnOk result (paths.new.items ≡ paths.old.items ++ map (λ p. prefix.now ++ p) (inner_paths (type_view kind.now))) }
{
    match kind {
        ColumnType::Struct(columns) => push_columns(alloc, paths, prefix, columns.as_slice()),
        ColumnType::List { element, .. } => push_part(alloc, paths, prefix, "element", element),
        ColumnType::Map { key, value, .. } => {
            push_part(alloc, paths, prefix, "key", key)?;
            push_part(alloc, paths, prefix, "value", value)?;
            Ok(())
        }
        _ => Ok(()),
    }
}

#[cycle(paths)]
fn push_columns(
    alloc: Global,
    paths: &mut Vec<ColumnPath>,
    prefix: &ColumnPath,
    columns: &[Column],
) -> Result<(), AllocError>
    ensures { OnOk result (paths.new.items ≡ paths.old.items ++ map (λ p. prefix.now ++ p) (column_paths (columns_view columns.now))) }
{
    for column in columns {
        push_part(alloc, paths, prefix, column.name.as_str(), &column.kind)?;
    }
    Ok(())
}

/// The column paths of a schema, depth first.
pub fn column_paths(alloc: Global, schema: &Schema) -> Result<Vec<ColumnPath>, AllocError>
    ensures { IfOk result (λ v. v.items ≡ column_paths schema.now) }
{
    let mut paths = Vec::new(alloc);
    let top = Items::new(alloc);
    push_columns(alloc, &mut paths, &top, schema.columns())?;
    Ok(paths)
}
