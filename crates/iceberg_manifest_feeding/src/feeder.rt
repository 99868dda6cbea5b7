//! A manifest that is read as its bytes come.

ghost use Rattle.std.specs.Prelude.{◌≡◌, ◌⊎◌, ◌-◌, ◌^◌, ◌<◌, ◌++◌, ℕ, List, [], length, map, option_map, IfOk, IfErr, MatchResult, Ok, Err};
ghost use Rattle.lake_basics.specs.Outcome.{GivesUnlessMemory, with_front};
ghost use Rattle.avro_schema.specs.Tree.{tree_of};
ghost use Rattle.avro_value.specs.ValueTree.{value_tree};
ghost use Rattle.avro_value.specs.declared.api.TheConstants.{MAX_VALUES};
ghost use Rattle.avro_feeding.specs.Calls.{has_read};
ghost use Rattle.avro_feeding.specs.Feeding.{fed};
ghost use Rattle.iceberg_manifest.specs.Errors.{is_memory};
ghost use Rattle.iceberg_manifest.specs.Containers.{StandsFor};
ghost use Rattle.iceberg_manifest.specs.Entry.{EntryData};
ghost use Rattle.iceberg_manifest.specs.Scans.{entries_of as entries_by};
ghost use Rattle.iceberg_manifest_feeding.specs.Feeding.{HasRead, so_far};
ghost use Rattle.iceberg_manifest_feeding.specs.Laws.{IsFaultForGood, IsLimitOfValues, IsReadOrRefused, IsReadSound, IsRefusedOnce};
ghost use Rattle.iceberg_manifest_feeding.specs.Steps.{IsFedOn, ended_by, entries_at_end, entries_found as entries_found_by, entries_in, schema_judged};
ghost use Rattle.iceberg_manifest_feeding.specs.Order.{IsFaultWithin, IsRefusedInOrder};

use avro_container::Values;
use avro_feeding::Feeder;
use avro_schema::Schema;
use iceberg_manifest::{Entries, Entry, ManifestError, PartColumn};
use iceberg_manifest_reading::{container_error, entries_of};
use lake_basics::Items;
use std::alloc::Global;

/// A manifest (Apache Iceberg specification, "Manifests") whose bytes come in pieces, cut anywhere.
/// Beside its entries it keeps the bytes behind the last whole block alone: the values of a block
/// are dropped as soon as they are entries. Contracts see by `so_far` what has been read of the
/// container, and the entries.
#[derive(Drop)]
pub struct ManifestFeeder {
    alloc: Global,
    feeder: Feeder,
    entries: Vec<Entry>,
}

/// The entries that these values stand for. There is none before the schema or the first value.
fn entries_found(
    alloc: Global,
    schema: Option<&Schema>,
    values: &Values,
    columns: &[PartColumn],
) -> Result<Entries, ManifestError>
    ensures { GivesUnlessMemory is_memory (λ es. es) result (entries_found_by columns.now
        (option_map (λ s. tree_of s.now) schema.entry) (map value_tree values.now)) }
{
    match schema {
        Some(schema) if !values.is_empty() => entries_of(alloc, schema, values, columns),
        _ => Ok(Items::new(alloc)),
    }
}

/// The values of the blocks that become whole by this piece.
fn feed(feeder: &mut Feeder, piece: &[u8]) -> Result<Values, ManifestError>
    ensures { IsFedOn (has_read feeder.old) piece.now (has_read feeder.new) result }
{
    match feeder.feed(piece) {
        Ok(values) => Ok(values),
        Err(error) => Err(container_error(error)),
    }
}

/// The entries of the blocks that become whole by this piece.
fn piece_entries(
    alloc: Global,
    feeder: &mut Feeder,
    columns: &[PartColumn],
    piece: &[u8],
) -> Result<Entries, ManifestError>
    ensures gives { GivesUnlessMemory is_memory (λ es. es) result
        (entries_in columns.now (fed (has_read feeder.old) piece.now)) }
    ensures state { IfOk result
        (λ _. has_read feeder.new ≡ (fed (has_read feeder.old) piece.now).0) }
{
    let values = feed(feeder, piece)?;
    let entries = entries_found(alloc, feeder.schema(), &values, columns)?;
    // A block that is refused behind whole ones is told by the next call, also by one of no bytes.
    feed(feeder, &[])?;
    Ok(entries)
}

/// Judges the schema, also where there are no values.
fn judge_schema(
    alloc: Global,
    schema: Option<&Schema>,
    columns: &[PartColumn],
) -> Result<(), ManifestError>
    ensures { GivesUnlessMemory is_memory (λ u. u) result
        (schema_judged columns.now (option_map (λ s. tree_of s.now) schema.entry)) }
{
    match schema {
        Some(schema) => {
            entries_of(alloc, schema, &Items::new(alloc), columns)?;
            Ok(())
        }
        None => Ok(()),
    }
}

/// Says that the bytes end here.
fn end(alloc: Global, feeder: Feeder, columns: &[PartColumn]) -> Result<(), ManifestError>
    ensures { GivesUnlessMemory is_memory (λ u. u) result (ended_by columns.now (has_read feeder)) }
{
    let judged = judge_schema(alloc, feeder.schema(), columns);
    match feeder.finish() {
        Ok(()) => judged,
        Err(error) => Err(container_error(error)),
    }
}

impl ManifestFeeder {
    /// Reads the piece, whose entries go behind those before.
    fn read(&mut self, columns: &[PartColumn], piece: &[u8]) -> Result<(), ManifestError>
        ensures gives { GivesUnlessMemory is_memory (λ _. self.new.entries.items) result
            (with_front self.old.entries.items
            (entries_in columns.now (fed (has_read self.old.feeder) piece.now))) }
        ensures state { IfOk result (λ _. has_read self.new.feeder
            ≡ (fed (has_read self.old.feeder) piece.now).0) }
    {
        let entries = piece_entries(self.alloc, &mut self.feeder, columns, piece)?;
        self.entries.append(&mut entries.into_vec())?;
        Ok(())
    }

    fn with_read(
        mut self,
        columns: &[PartColumn],
        piece: &[u8],
    ) -> Result<ManifestFeeder, ManifestError>
        ensures gives { GivesUnlessMemory is_memory (λ f. f.entries.items) result
            (with_front self.entries.items
            (entries_in columns.now (fed (has_read self.feeder) piece.now))) }
        ensures state { IfOk result
            (λ f. has_read f.feeder ≡ (fed (has_read self.feeder) piece.now).0) }
    {
        self.read(columns, piece)?;
        Ok(self)
    }

    fn finished(self, columns: &[PartColumn]) -> Result<Entries, ManifestError>
        ensures { GivesUnlessMemory is_memory (λ es. es) result
            (entries_at_end columns.now self.entries.items (has_read self.feeder)) }
    {
        let ManifestFeeder {
            alloc,
            feeder,
            entries,
        } = self;
        end(alloc, feeder, columns)?;
        Ok(Items::from_vec(entries))
    }

    /// A feeder that has read nothing. It takes no memory yet.
    pub fn new(alloc: Global) -> ManifestFeeder
        ensures { (columns : List PartColumn) → HasRead columns [] (so_far result) }
    {
        ManifestFeeder {
            alloc,
            feeder: Feeder::new(alloc),
            entries: Vec::new(alloc),
        }
    }

    /// The feeder behind one piece more. It refuses the first fault, with the errors of
    /// `read_manifest`: the faults of a block go before those of its entries, and these before the
    /// next block. The schema is judged with the first values. A header or a block that isn't whole
    /// is no fault yet.
    pub fn with_piece(
        self,
        columns: &[PartColumn],
        piece: &[u8],
    ) -> Result<ManifestFeeder, ManifestError>
        // Where these bytes have been read, so has the piece then.
        ensures read { (bytes : List ℕ) → HasRead columns.now bytes (so_far self)
            → length (bytes ++ piece.now) < 2 ^ 64 - 1
            → IfOk result (λ f. HasRead columns.now (bytes ++ piece.now) (so_far f)) }
        // What is refused is their first fault.
        ensures refused { (bytes : List ℕ) → HasRead columns.now bytes (so_far self)
            → length (bytes ++ piece.now) < 2 ^ 64 - 1
            → IfErr result (λ e. (e ≡ ManifestError.Memory)
            ⊎ IsFaultWithin columns.now (bytes ++ piece.now) e) }
        // Their first fault is refused, unless memory runs out.
        ensures first { (bytes : List ℕ) (e : ManifestError) → HasRead columns.now bytes (so_far self)
            → length (bytes ++ piece.now) < 2 ^ 64 - 1
            → IsFaultWithin columns.now (bytes ++ piece.now) e
            → (result ≡ Err e) ⊎ (result ≡ Err ManifestError.Memory) }
        // What has been read has no fault, and a fault stays the first one.
        ensures sound { IsReadSound }
        ensures for_good { IsFaultForGood }
    {
        self.with_read(columns, piece)
    }

    /// The entries of the manifest that ends here. It is refused where the bytes end inside the
    /// header or a block, and where it has no values and its schema is no manifest's.
    pub fn finish(self, columns: &[PartColumn]) -> Result<Entries, ManifestError>
        // Where these bytes have been read, what is given are the entries of the manifest.
        ensures found { (bytes : List ℕ) → HasRead columns.now bytes (so_far self)
            → length bytes < 2 ^ 64 - 1
            → IfOk result (λ es. StandsFor MAX_VALUES (entries_by columns.now) bytes es) }
        // The entries of a manifest are given, unless memory runs out.
        ensures only { (bytes : List ℕ) (es : List EntryData) → HasRead columns.now bytes (so_far self)
            → length bytes < 2 ^ 64 - 1 → StandsFor MAX_VALUES (entries_by columns.now) bytes es
            → MatchResult result (λ found. found ≡ es) (λ e. e ≡ ManifestError.Memory) }
        // What is refused is the first fault of these bytes.
        ensures refused { (bytes : List ℕ) → HasRead columns.now bytes (so_far self)
            → length bytes < 2 ^ 64 - 1
            → IfErr result (λ e. (e ≡ ManifestError.Memory)
            ⊎ IsRefusedInOrder columns.now bytes e) }
        // Their first fault is refused, unless memory runs out.
        ensures first { (bytes : List ℕ) (e : ManifestError) → HasRead columns.now bytes (so_far self)
            → length bytes < 2 ^ 64 - 1 → IsRefusedInOrder columns.now bytes e
            → (result ≡ Err e) ⊎ (result ≡ Err ManifestError.Memory) }
        // What stands for entries isn't refused, and what is refused is refused in one way, with no
        // limit but that of values.
        ensures apart { IsReadOrRefused }
        ensures once { IsRefusedOnce }
        ensures limit { IsLimitOfValues }
    {
        self.finished(columns)
    }
}
