//! Which protocol a commit writes for timestamps without a time zone (Delta protocol, "Timestamp
//! without timezone").

ghost use Rattle.std.specs.Prelude.{◌≡◌, ◌∷◌, ◌++◌, [], IfOk, codes};
ghost use Rattle.table_history.specs.SchemaView.{columns_view, type_view};
ghost use Rattle.target_delta.specs.Writing.{have_ntz, has_ntz, ntz_feature, ntz_protocol, plain_protocol, protocol_due};

use delta_log::Protocol;
use lake_basics::{Items, Text};
use std::alloc::{AllocError, Global};
use table_history::{Column, ColumnType, Schema};

#[cycle(ntz)]
fn has_ntz(kind: &ColumnType) -> bool
    ensures { result ≡ has_ntz (type_view kind.now) }
{
    match kind {
        ColumnType::TimestampNtz => true,
        ColumnType::Struct(columns) => have_ntz(columns.as_slice()),
        ColumnType::List { element, .. } => has_ntz(element),
        ColumnType::Map { key, value, .. } => has_ntz(key) || has_ntz(value),
        _ => false,
    }
}

#[cycle(ntz)]
fn have_ntz(columns: &[Column]) -> bool
    ensures { result ≡ have_ntz (columns_view columns.now) }
{
    for column in columns {
        if has_ntz(&column.kind) {
            return true;
        }
    }
    false
}

/// Whether some column, at any level, is a timestamp without a time zone.
pub(crate) fn schema_has_ntz(schema: &Schema) -> bool
    ensures { result ≡ have_ntz schema.now }
{
    have_ntz(schema.columns())
}

/// The features with one more behind them.
fn with_feature(alloc: Global, features: Items<Text>, name: &str) -> Result<Items<Text>, AllocError>
    ensures { IfOk result (λ more. more ≡ features ++ name.now ∷ []) }
{
    let mut more = features;
    more.push(Text::from_str(alloc, name)?)?;
    Ok(more)
}

/// The features that a writer must know.
fn writer_features(alloc: Global) -> Result<Items<Text>, AllocError>
    ensures { IfOk result
        (λ names. names ≡ codes "appendOnly" ∷ codes "invariants" ∷ ntz_feature ∷ []) }
{
    let features = with_feature(alloc, Items::new(alloc), "appendOnly")?;
    let features = with_feature(alloc, features, "invariants")?;
    with_feature(alloc, features, "timestampNtz")
}

fn ntz_protocol(alloc: Global) -> Result<Protocol, AllocError>
    ensures { IfOk result (λ p. p ≡ ntz_protocol) }
{
    let readers = with_feature(alloc, Items::new(alloc), "timestampNtz")?;
    let writers = writer_features(alloc)?;
    Ok(Protocol {
        reader: 3,
        writer: 7,
        reader_features: Some(readers),
        writer_features: Some(writers),
    })
}

fn plain_protocol() -> Protocol
    ensures { result ≡ plain_protocol }
{
    Protocol {
        reader: 1,
        writer: 2,
        reader_features: None,
        writer_features: None,
    }
}

/// The protocol that a version writes: the long one where a column is such a timestamp and the
/// newest protocol doesn't list the feature, and else the plain one in version 0 alone.
pub(crate) fn protocol_due(
    alloc: Global,
    version: u64,
    named: bool,
    has_ntz: bool,
) -> Result<Option<Protocol>, AllocError>
    ensures { IfOk result (λ p. p ≡ protocol_due version named has_ntz) }
{
    if has_ntz {
        if named {
            return Ok(None);
        }
        return Ok(Some(ntz_protocol(alloc)?));
    }
    if version == 0 {
        return Ok(Some(plain_protocol()));
    }
    Ok(None)
}
