//! The file of a manifest, read in pieces.

ghost use Rattle.std.specs.Prelude.{◌≡◌, ◌<◌, ◌≤◌, List, [], false, length, IfErr, IfOk, IsErrOf};
ghost use Rattle.lake_basics.specs.declared.limits.TheConstants.{MAX_FILE_BYTES};
ghost use Rattle.lake_store.specs.Runs.{FailsBy, IsUncontestedBy, OnlyReads};
ghost use Rattle.iceberg_manifest_feeding.specs.Feeding.{HasRead, so_far};
ghost use Rattle.iceberg_table.specs.Errors.{IsRefusal};
ghost use Rattle.iceberg_table.specs.Pieces.{AreSomeTaken, HasReadSome, IsOneMore, IsReadSoFar, IsReadWhole, IsRefusedPiece, IsUnread, left};
ghost use Rattle.iceberg_table.specs.declared.error.IcebergError.TheVariants.{StoreFault};
ghost use Rattle.iceberg_table.specs.declared.pieces.TheConstants.{PIECE_BYTES};

use crate::error::{IcebergError, error_at, error_of_read, manifest_fault};
use iceberg_manifest::PartColumn;
use iceberg_manifest_feeding::ManifestFeeder;
use lake_basics::Text;
use lake_basics::limits::MAX_FILE_BYTES;
use lake_store::Store;
use std::alloc::Global;

/// How many bytes of a manifest's file are asked for at a time. A shorter piece is the last one.
pub(crate) const PIECE_BYTES: u32 = 65_536;

/// What the pieces of a manifest's file say so far.
#[derive(Drop)]
pub(crate) struct Pieces {
    feeder: ManifestFeeder,
    read: u64,
    is_whole: bool,
}

impl Pieces {
    fn new(alloc: Global) -> Pieces
        ensures feeder { (columns : List PartColumn) → HasRead columns [] (so_far result.feeder) }
        ensures read { result.read ≡ 0 }
        ensures is_whole { result.is_whole ≡ false }
    {
        Pieces {
            feeder: ManifestFeeder::new(alloc),
            read: 0,
            is_whole: false,
        }
    }

    /// What they say with one piece more. A block at fault is told as soon as it is there, and too many
    /// bytes before any of them is fed.
    fn with_piece(
        self,
        columns: &[PartColumn],
        path: Text,
        piece: &[u8],
    ) -> Result<Pieces, IcebergError>
        requires within { self.read ≤ MAX_FILE_BYTES }
        requires short { length piece.now ≤ PIECE_BYTES }
        ensures more { IfOk result (IsOneMore columns.now self piece.now) }
        ensures refused { IfErr result (IsRefusedPiece columns.now path self piece.now) }
    {
        let Pieces { feeder, read, .. } = self;
        let read = read + piece.len() as u64;
        if read > MAX_FILE_BYTES {
            return Err(IcebergError::Large { path });
        }
        match feeder.with_piece(columns, piece) {
            Ok(feeder) => Ok(Pieces {
                feeder,
                read,
                is_whole: piece.len() < PIECE_BYTES as usize,
            }),
            Err(error) => Err(error_at(path, manifest_fault(error))),
        }
    }
}

/// What they say with the next piece of the manifest's file.
fn read_on<S: Store>(
    alloc: Global,
    store: &mut S,
    columns: &[PartColumn],
    path: &Text,
    pieces: Pieces,
) -> Result<Pieces, IcebergError>
    requires within { pieces.read ≤ MAX_FILE_BYTES }
    requires more { pieces.is_whole ≡ false }
    ensures within { IfOk result (λ next. next.read ≤ MAX_FILE_BYTES) }
    ensures further { IfOk result
        (λ next. left next.is_whole next.read < left pieces.is_whole pieces.read) }
    ensures taken { AreSomeTaken columns.now pieces → IfOk result (AreSomeTaken columns.now) }
    ensures read { S.tells → IsReadSoFar (S.disk store.old).files columns.now path.now pieces
        → IfOk result (IsReadSoFar (S.disk store.old).files columns.now path.now) }
    ensures refused { S.tells → IsReadSoFar (S.disk store.old).files columns.now path.now pieces
        → IfErr result (IsRefusal (IsUnread (S.disk store.old).files columns.now path.now)) }
    ensures only_reads { S.tells → OnlyReads ⟦<S as Store>⟧ store.old store.new }
    ensures cause { FailsBy ⟦<S as Store>⟧ store.old store.new (IsErrOf result StoreFault) }
    ensures contest { IsUncontestedBy ⟦<S as Store>⟧ store.old store.new ⊥ }
{
    let told = path.copy(alloc)?;
    match store.read_part(alloc, path.as_str(), pieces.read, PIECE_BYTES) {
        Ok(Some(piece)) => pieces.with_piece(columns, told, piece.as_slice()),
        Ok(None) => Err(IcebergError::Missing { path: told }),
        Err(error) => Err(error_of_read(told, error)),
    }
}

/// All that the manifest's file says, read to its end.
pub(crate) fn read_whole<S: Store>(
    alloc: Global,
    store: &mut S,
    columns: &[PartColumn],
    path: &Text,
) -> Result<ManifestFeeder, IcebergError>
    ensures taken { IfOk result (HasReadSome columns.now) }
    ensures read { S.tells → IfOk result (IsReadWhole (S.disk store.old).files columns.now path.now) }
    ensures refused { S.tells
        → IfErr result (IsRefusal (IsUnread (S.disk store.old).files columns.now path.now)) }
    ensures only_reads { S.tells → OnlyReads ⟦<S as Store>⟧ store.old store.new }
    ensures cause { FailsBy ⟦<S as Store>⟧ store.old store.new (IsErrOf result StoreFault) }
    ensures contest { IsUncontestedBy ⟦<S as Store>⟧ store.old store.new ⊥ }
{
    let mut pieces = Pieces::new(alloc);
    'reading: while !pieces.is_whole {
        pieces = read_on(alloc, store, columns, path, pieces)?;
    }
    Ok(pieces.feeder)
}
