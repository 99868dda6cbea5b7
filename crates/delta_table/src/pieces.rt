//! The file of a version, read in pieces.

ghost use Rattle.std.specs.Prelude.{◌≡◌, ◌<◌, ◌≤◌, ℕ, IfErr, IfOk, IsErrOf, false, length};
ghost use Rattle.lake_basics.specs.declared.limits.TheConstants.{MAX_FILE_BYTES};
ghost use Rattle.lake_store.specs.Runs.{FailsBy, IsUncontestedBy, OnlyReads};
ghost use Rattle.delta_feeding.specs.Feeding.{nothing_read};
ghost use Rattle.delta_table.specs.Pieces.{IsOneMore, IsReadSoFar, IsReadWhole, IsRefusedPiece, left};
ghost use Rattle.delta_table.specs.Refusals.{IsVersionRefusal, TellsOf};
ghost use Rattle.delta_table.specs.Versions.{IsVersionPath};
ghost use Rattle.delta_table.specs.declared.error.LogError.TheVariants.{StoreFault};
ghost use Rattle.delta_table.specs.declared.pieces.TheConstants.{PIECE_BYTES};

use crate::error::{LogError, error_at, error_of_read};
use delta_feeding::LineFeeder;
use lake_basics::limits::MAX_FILE_BYTES;
use lake_store::Store;
use std::alloc::Global;

/// How many bytes of a version's file are asked for at a time. A shorter piece is the last one.
pub(crate) const PIECE_BYTES: u32 = 65_536;

/// What the pieces of a version's file say so far.
#[derive(Drop)]
pub(crate) struct Pieces {
    feeder: LineFeeder,
    read: u64,
    is_whole: bool,
}

impl Pieces {
    fn new(alloc: Global) -> Pieces
        ensures feeder { result.feeder ≡ nothing_read }
        ensures read { result.read ≡ 0 }
        ensures is_whole { result.is_whole ≡ false }
    {
        Pieces {
            feeder: LineFeeder::new(alloc),
            read: 0,
            is_whole: false,
        }
    }

    /// What they say with one piece more. A line at fault is told where its newline has come, and too
    /// many bytes before any of them is fed.
    fn with_piece(self, version: u64, piece: &[u8]) -> Result<Pieces, LogError>
        requires within { self.read ≤ MAX_FILE_BYTES }
        requires short { length piece.now ≤ PIECE_BYTES }
        ensures more { IfOk result (IsOneMore self piece.now) }
        ensures refused { IfErr result (IsRefusedPiece version self piece.now) }
    {
        let Pieces {
            mut feeder,
            read,
            ..
        } = self;
        let read = read + piece.len() as u64;
        if read > MAX_FILE_BYTES {
            return Err(LogError::Large { version });
        }
        match feeder.feed(piece) {
            Ok(()) => Ok(Pieces {
                feeder,
                read,
                is_whole: piece.len() < PIECE_BYTES as usize,
            }),
            Err(error) => Err(error_at(version, error)),
        }
    }
}

/// What they say with the next piece of the version's file.
fn read_on<S: Store>(
    alloc: Global,
    store: &mut S,
    version: u64,
    path: &str,
    pieces: Pieces,
) -> Result<Pieces, LogError>
    requires path { IsVersionPath path.now version }
    requires within { pieces.read ≤ MAX_FILE_BYTES }
    requires more { pieces.is_whole ≡ false }
    ensures within { IfOk result (λ next. next.read ≤ MAX_FILE_BYTES) }
    ensures further { IfOk result
        (λ next. left next.is_whole next.read < left pieces.is_whole pieces.read) }
    ensures read { S.tells → IsReadSoFar (S.disk store.old).files version pieces
        → IfOk result (IsReadSoFar (S.disk store.old).files version) }
    ensures told { IfErr result (TellsOf (λ v. v ≡ version)) }
    ensures refused { S.tells → IsReadSoFar (S.disk store.old).files version pieces
        → IfErr result (IsVersionRefusal (S.disk store.old).files version) }
    ensures only_reads { S.tells → OnlyReads ⟦<S as Store>⟧ store.old store.new }
    ensures cause { FailsBy ⟦<S as Store>⟧ store.old store.new (IsErrOf result StoreFault) }
    ensures contest { IsUncontestedBy ⟦<S as Store>⟧ store.old store.new ⊥ }
{
    match store.read_part(alloc, path, pieces.read, PIECE_BYTES) {
        Ok(Some(piece)) => pieces.with_piece(version, piece.as_slice()),
        Ok(None) => Err(LogError::Missing { version }),
        Err(error) => Err(error_of_read(error, version)),
    }
}

/// All that the version's file says, read to its end.
pub(crate) fn read_whole<S: Store>(
    alloc: Global,
    store: &mut S,
    version: u64,
    path: &str,
) -> Result<LineFeeder, LogError>
    requires { IsVersionPath path.now version }
    ensures read { S.tells → IfOk result (IsReadWhole (S.disk store.old).files version) }
    ensures told { IfErr result (TellsOf (λ v. v ≡ version)) }
    ensures refused { S.tells → IfErr result (IsVersionRefusal (S.disk store.old).files version) }
    ensures only_reads { S.tells → OnlyReads ⟦<S as Store>⟧ store.old store.new }
    ensures cause { FailsBy ⟦<S as Store>⟧ store.old store.new (IsErrOf result StoreFault) }
    ensures contest { IsUncontestedBy ⟦<S as Store>⟧ store.old store.new ⊥ }
{
    let mut pieces = Pieces::new(alloc);
    'reading: while !pieces.is_whole {
        pieces = read_on(alloc, store, version, path, pieces)?;
    }
    Ok(pieces.feeder)
}
