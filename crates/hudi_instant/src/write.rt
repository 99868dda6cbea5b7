//! The text of a completed replacecommit. It is written token by token, so no tree of it stands in
//! memory.

ghost use Rattle.std.specs.Prelude.{◌≡◌, ◌<◌, ◌≤◌, ◌∷◌, ◌++◌, [], List, ℕ, length, map, decimal, Some, Ok, IfOk, IfErr, OnOk};
ghost use Rattle.std.specs.List.{prefix_len};
ghost use Rattle.std.specs.Str.{bytes_eq};
ghost use Rattle.json.specs.Token.{key, string, number};
ghost use Rattle.json.specs.Tree.{json_tokens};
ghost use Rattle.serde_json.specs.Data.{Data, array, object};
ghost use Rattle.serde_json.specs.View.{items_of};
ghost use Rattle.serde_json.specs.Written.{outline};
ghost use Rattle.json_reading.specs.Json.{json};
ghost use Rattle.hudi_instant.specs.Instants.{json_instant};
ghost use Rattle.hudi_instant.specs.InstantText.{stat_data, id_data, runs_by, extra_data, instant_data, instant_text, IsWritable};
ghost use Rattle.hudi_instant.specs.InstantTokens.{run_members, text_tokens, written_data};

use crate::instant::{Instant, Stat};
use hudi_names::HudiError;
use json::Writer;
use lake_basics::{Blob, Text};
use std::alloc::{AllocError, Global};

/// A member with a text.
fn write_text(out: &mut Writer, name: &str, text: &str) -> Result<(), AllocError>
    ensures before { OnOk result (out.new.before ≡ out.old.before) }
    ensures tokens { OnOk result (out.new.tokens
        ≡ out.old.tokens ++ key name.now ∷ string text.now ∷ []) }
{
    out.key(name)?;
    out.string(text)
}

/// A member with a whole number.
fn write_number(out: &mut Writer, name: &str, count: u64) -> Result<(), AllocError>
    ensures before { OnOk result (out.new.before ≡ out.old.before) }
    ensures tokens { OnOk result (out.new.tokens
        ≡ out.old.tokens ++ key name.now ∷ number (decimal count) ∷ []) }
{
    out.key(name)?;
    out.u64(count)
}

/// What stands in an array under the name of its partition.
trait InPartition {
    ghost partition_of: { Self → List ℕ };

    ghost data_of: { Self → Data };

    fn partition(&self) -> &str
        ensures { result.now ≡ partition_of self.now };

    fn write(&self, out: &mut Writer) -> Result<(), AllocError>
        ensures before { OnOk result (out.new.before ≡ out.old.before) }
        ensures tokens { OnOk result (out.new.tokens
            ≡ out.old.tokens ++ json_tokens (outline (data_of self.now))) };
}

impl InPartition for Stat {
    ghost partition_of = { λ s. s.partition_path };

    ghost data_of = { stat_data };

    fn partition(&self) -> &str {
        self.partition_path.as_str()
    }

    fn write(&self, out: &mut Writer) -> Result<(), AllocError> {
        out.begin_object()?;
        write_text(out, "fileId", self.file_id.as_str())?;
        write_number(out, "fileSizeInBytes", self.size)?;
        write_number(out, "numDeletes", 0)?;
        write_number(out, "numInserts", self.writes)?;
        write_number(out, "numUpdateWrites", 0)?;
        write_number(out, "numWrites", self.writes)?;
        write_text(out, "partitionPath", self.partition_path.as_str())?;
        write_text(out, "path", self.path.as_str())?;
        write_text(out, "prevCommit", "null")?;
        write_number(out, "totalWriteBytes", self.size)?;
        write_number(out, "totalWriteErrors", 0)?;
        out.end_object()
    }
}

impl InPartition for (Text, Text) {
    ghost partition_of = { λ p. p.0 };

    ghost data_of = { id_data };

    fn partition(&self) -> &str {
        self.0.as_str()
    }

    fn write(&self, out: &mut Writer) -> Result<(), AllocError> {
        out.string(self.1.as_str())
    }
}

fn run_len<T: InPartition>(entries: &[T], partition: &str) -> usize
    ensures len { result ≡ prefix_len (λ e. bytes_eq (T.partition_of e) partition.now) entries.now }
    ensures within { result ≤ length entries.now }
{
    entries
        .iter()
        .take_while(|entry| entry.partition() == partition)
        .count()
}

/// The partition of the first, those that stand in it with the first, and what is behind them.
fn split_run<T: InPartition>(entries: &[T]) -> (&str, &[T], &[T])
    requires { 0 < length entries.now }
    ensures run { runs_by T.partition_of entries.now
        ≡ (result.0.now, result.1.now) ∷ runs_by T.partition_of result.2.now }
    ensures shorter { length result.2.now < length entries.now }
{
    let partition = entries[0].partition();
    let (run, behind) = entries.split_at(run_len(entries, partition));
    (partition, run, behind)
}

fn write_array<T: InPartition>(out: &mut Writer, entries: &[T]) -> Result<(), AllocError>
    ensures before { OnOk result (out.new.before ≡ out.old.before) }
    ensures tokens { OnOk result (out.new.tokens ≡ out.old.tokens
        ++ json_tokens (outline (array (items_of (map T.data_of entries.now))))) }
{
    out.begin_array()?;
    for entry in entries {
        entry.write(out)?;
    }
    out.end_array()
}

/// The arrays of the partitions, in one object.
fn write_arrays<T: InPartition>(out: &mut Writer, entries: &[T]) -> Result<(), AllocError>
    ensures before { OnOk result (out.new.before ≡ out.old.before) }
    ensures tokens { OnOk result (out.new.tokens ≡ out.old.tokens
        ++ json_tokens (outline (object (run_members T.data_of (runs_by T.partition_of entries.now))))) }
{
    out.begin_object()?;
    let mut rest = entries;
    'runs: while !rest.is_empty() {
        let (partition, run, behind) = split_run(rest);
        out.key(partition)?;
        write_array(out, run)?;
        rest = behind;
    }
    out.end_object()
}

fn write_text_if_any(out: &mut Writer, name: &str, text: &Option<Text>) -> Result<(), AllocError>
    ensures before { OnOk result (out.new.before ≡ out.old.before) }
    ensures tokens { OnOk result (out.new.tokens
        ≡ out.old.tokens ++ text_tokens name.now text.now) }
{
    match text {
        None => Ok(()),
        Some(text) => write_text(out, name, text.as_str()),
    }
}

fn write_extra(out: &mut Writer, instant: &Instant) -> Result<(), AllocError>
    ensures before { OnOk result (out.new.before ≡ out.old.before) }
    ensures tokens { OnOk result (out.new.tokens ≡ out.old.tokens
        ++ json_tokens (outline (extra_data instant.now.mark instant.now.schema))) }
{
    out.begin_object()?;
    write_text_if_any(out, "lakebridge.mark", &instant.mark)?;
    write_text_if_any(out, "schema", &instant.schema)?;
    out.end_object()
}

fn write_instant(out: &mut Writer, instant: &Instant) -> Result<(), AllocError>
    ensures before { OnOk result (out.new.before ≡ out.old.before) }
    ensures tokens { OnOk result (out.new.tokens
        ≡ out.old.tokens ++ json_tokens (outline (written_data instant.now))) }
{
    out.begin_object()?;
    out.key("compacted")?;
    out.boolean(false)?;
    out.key("extraMetadata")?;
    write_extra(out, instant)?;
    write_text(out, "operationType", "INSERT_OVERWRITE")?;
    out.key("partitionToReplaceFileIds")?;
    write_arrays(out, instant.replaced.as_slice())?;
    out.key("partitionToWriteStats")?;
    write_arrays(out, instant.stats.as_slice())?;
    out.end_object()
}

fn instant_bytes(alloc: Global, instant: &Instant) -> Result<Vec<u8>, AllocError>
    requires { IsWritable instant.now }
    ensures text { IfOk result (λ v. v.items ≡ instant_text instant.now) }
    ensures reads_back { IfOk result (λ v. json v.items ≡ Some (instant_data instant.now)) }
{
    let text = Vec::new(alloc);
    let mut out = Writer::new(text);
    write_instant(&mut out, instant)?;
    Ok(out.into_inner())
}

/// The text of a completed replacecommit that did this, in compact JSON. `read_instant` gives the
/// instant back.
pub fn instant_text(alloc: Global, instant: &Instant) -> Result<Blob, HudiError>
    requires { IsWritable instant.now }
    ensures text { IfOk result (λ b. b ≡ instant_text instant.now) }
    ensures reads_back { IfOk result (λ b. json_instant b ≡ Ok instant.now) }
    ensures memory { IfErr result (λ e. e ≡ HudiError.Memory) }
{
    let bytes = instant_bytes(alloc, instant)?;
    Ok(Blob::from_vec(bytes))
}
