//! What a target stands at.
use crate::setting::PLACE;
use lake_store::{FuseStore, MemorySink, Text};
use std::alloc::{AllocError, Global};
use store_rows::text_of;
use table_history::{Kind, Table};
use table_lines::{put_lines, rows_in_order};
use target_core::{Mark, Seen, Target};
use target_delta::DeltaTarget;
use target_hudi::HudiTarget;
use target_iceberg::IcebergTarget;

/// The target's format and the source's, if the words name two.
pub(crate) fn kinds_of(target: &str, source: &str) -> Option<(Kind, Kind)> {
    Some((Kind::from_word(target)?, Kind::from_word(source)?))
}

/// What a target stands at for a source: the lines of its table at the source's position, where it is ours.
pub(crate) fn standing(
    alloc: Global,
    store: &mut FuseStore,
    target: Kind,
    source: Kind,
) -> Result<String, AllocError> {
    match target {
        Kind::Delta => delta_standing(alloc, store, source),
        Kind::Hudi => hudi_standing(alloc, store, source),
        Kind::Iceberg => iceberg_standing(alloc, store, source),
    }
}

fn delta_standing(
    alloc: Global,
    store: &mut FuseStore,
    source: Kind,
) -> Result<String, AllocError> {
    match DeltaTarget::new(alloc, PLACE) {
        Ok(target) => standing_of(alloc, &target, store, source),
        Err(_) => Err(AllocError),
    }
}

fn hudi_standing(alloc: Global, store: &mut FuseStore, source: Kind) -> Result<String, AllocError> {
    match HudiTarget::new(alloc, PLACE) {
        Ok(target) => standing_of(alloc, &target, store, source),
        Err(_) => Err(AllocError),
    }
}

fn iceberg_standing(
    alloc: Global,
    store: &mut FuseStore,
    source: Kind,
) -> Result<String, AllocError> {
    match IcebergTarget::new(alloc, PLACE) {
        Ok(target) => standing_of(alloc, &target, store, source),
        Err(_) => Err(AllocError),
    }
}

fn standing_of<T: Target>(
    alloc: Global,
    target: &T,
    store: &mut FuseStore,
    source: Kind,
) -> Result<String, AllocError> {
    match target.inspect(alloc, store.inner(), source) {
        Ok(Seen::Absent) => String::from_str(alloc, "absent\n"),
        Ok(Seen::Ours(kept)) => table_at(
            alloc,
            target.kind(),
            target.mark(&kept),
            target.table(&kept),
        ),
        Ok(Seen::Foreign(path)) => format!(in alloc; "foreign {}\n", path.as_str()),
        Err(_) => String::from_str(alloc, "refused\n"),
    }
}

fn position_of(mark: Option<&Mark>) -> &str {
    match mark {
        Some(mark) => mark.to.as_str(),
        None => "none",
    }
}

/// The lines that show a target's table.
fn table_at(
    alloc: Global,
    kind: Kind,
    mark: Option<&Mark>,
    table: &Table,
) -> Result<String, AllocError> {
    let rows = rows_in_order(alloc, &table.rows)?;
    let mut out = MemorySink::new(alloc, Vec::new(alloc));
    let position = Text::from_str(alloc, position_of(mark))?;
    if put_lines(alloc, &mut out, kind, &position, table, &rows).is_err() {
        return Err(AllocError);
    }
    text_of(alloc, out.bytes())
}
