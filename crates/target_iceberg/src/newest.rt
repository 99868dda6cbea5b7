//! The newest types of the column paths that held schemas have.

ghost use Rattle.std.specs.Prelude.{◌≡◌, ◌≢◌, ◌∷◌, [], Contains, IfOk, MatchOption, None, OnOk, if◌then◌else◌, map, option_copied, pos};
ghost use Rattle.std.specs.Cmp.Lexicographic.{pointwise};
ghost use Rattle.std.specs.Str.{bytes_eq};
ghost use Rattle.schema_map.specs.Paths.{Path, column_paths};
ghost use Rattle.target_iceberg.specs.Newest.{IsTop, is_changed, is_older, later, shape_at, with_schema, with_schemas};

use crate::shape::{Shape, column_shapes};
use indexmap::IndexMap;
use lake_basics::Text;
use schema_map::{ColumnPath, Ids, column_paths};
use std::alloc::{AllocError, Global};
use table_history::Schema;

/// The shape at each column path, of the newest schema that has the path, with that schema's id.
pub(crate) type NewestShapes = IndexMap<Vec<Text>, (i64, Shape)>;

fn is_older(held: Option<&(i64, Shape)>, id: i64) -> bool
    ensures { result ≡ is_older (option_copied held.entry) id }
{
    match held {
        Some(held) => held.0 < id,
        None => true,
    }
}

/// Keeps a shape at a path, where what is kept there is of an older schema.
fn keep(newest: &mut NewestShapes, path: Vec<Text>, id: i64, shape: Shape) -> Result<(), AllocError>
    ensures { OnOk result ((other : Path) → shape_at newest.new other
        ≡ (if pointwise bytes_eq path.items other then later (shape_at newest.old other) (id, shape) else shape_at newest.old other)) }
{
    if is_older(newest.get(path.as_slice()), id) {
        newest.insert(path, (id, shape))?;
    }
    Ok(())
}

fn next_shape(shapes: &[Shape]) -> Option<(Shape, &[Shape])>
    ensures { MatchOption result (shapes.now ≡ []) (λ p. shapes.now ≡ p.0 ∷ p.1.now) }
{
    match shapes {
        [] => None,
        [shape, behind @ ..] => Some((*shape, behind)),
    }
}

/// Keeps the shapes of a schema with this id, where what is kept is of older schemas.
pub(crate) fn keep_schema(
    alloc: Global,
    newest: &mut NewestShapes,
    id: i64,
    schema: &Schema,
) -> Result<(), AllocError>
    ensures { OnOk result ((path : Path) → shape_at newest.new path
        ≡ with_schema (shape_at newest.old path) (id, schema.now) path) }
{
    let shapes = column_shapes(alloc, schema)?;
    let mut left = shapes.as_slice();
    for path in column_paths(alloc, schema)? {
        let Some((shape, behind)) = next_shape(left) else {
            return Ok(());
        };
        keep(newest, path.into_vec(), id, shape)?;
        left = behind;
    }
    Ok(())
}

fn keep_held(
    alloc: Global,
    newest: &mut NewestShapes,
    held: &(i32, Schema, Ids),
) -> Result<(), AllocError>
    ensures { OnOk result ((path : Path) → shape_at newest.new path
        ≡ with_schema (shape_at newest.old path) (held.now.0, held.now.1) path) }
{
    let id = i64::from(held.0);
    keep_schema(alloc, newest, id, &held.1)
}

/// The newest shapes of the held schemas.
pub(crate) fn newest_shapes(
    alloc: Global,
    schemas: &[(i32, Schema, Ids)],
) -> Result<NewestShapes, AllocError>
    ensures { IfOk result (λ newest. (path : Path) → shape_at newest path
        ≡ with_schemas None (map (λ s. (s.0, s.1)) schemas.now) path) }
{
    let mut newest = IndexMap::new(alloc);
    for held in schemas {
        keep_held(alloc, &mut newest, held)?;
    }
    Ok(newest)
}

/// Whether the shape at a path may not become the one that is stated.
fn is_changed(newest: &NewestShapes, stated: &NewestShapes, path: &[Text]) -> bool
    ensures { result ≡ is_changed (shape_at newest.now path.now) (shape_at stated.now path.now) }
{
    match newest.get(path) {
        Some(before) => match stated.get(path) {
            Some(after) => !before.1.widens_to(after.1),
            None => false,
        },
        None => false,
    }
}

/// The top-level column of a path.
fn top_name(alloc: Global, path: &[Text]) -> Result<Text, AllocError>
    requires { path.now ≢ [] }
    ensures { IfOk result (λ name. (below : Path) × (path.now ≡ name ∷ below)) }
{
    match path {
        [name, ..] => name.copy(alloc),
        [] => unreachable!(),
    }
}

/// The shapes of a schema at its column paths.
fn shapes_of(alloc: Global, schema: &Schema) -> Result<NewestShapes, AllocError>
    ensures { IfOk result (λ shapes. (path : Path) → shape_at shapes path
        ≡ with_schema None (pos 0, schema.now) path) }
{
    let mut shapes = IndexMap::new(alloc);
    keep_schema(alloc, &mut shapes, 0, schema)?;
    Ok(shapes)
}

/// The top-level column of the first of the paths whose newest shape may not become the one that is
/// stated.
fn first_changed(
    alloc: Global,
    newest: &NewestShapes,
    stated: &NewestShapes,
    paths: &[ColumnPath],
) -> Result<Option<Text>, AllocError>
    requires { (path : Path) → Contains paths.now path → path ≢ [] }
    ensures { IfOk result (IsTop (λ path. is_changed (shape_at newest.now path)
        (shape_at stated.now path)) paths.now) }
{
    for path in paths {
        if is_changed(newest, stated, path.as_slice()) {
            return Ok(Some(top_name(alloc, path.as_slice())?));
        }
    }
    Ok(None)
}

/// The top-level column of the first column path, depth first, whose type in this Image the newest
/// one may not become.
pub(crate) fn type_change(
    alloc: Global,
    newest: &NewestShapes,
    image: &Schema,
) -> Result<Option<Text>, AllocError>
    ensures { IfOk result (IsTop (λ path. is_changed (shape_at newest.now path) (with_schema None (pos 0, image.now) path)) (column_paths image.now)) }
{
    let stated = shapes_of(alloc, image)?;
    let paths = column_paths(alloc, image)?;
    first_changed(alloc, newest, &stated, paths.as_slice())
}
