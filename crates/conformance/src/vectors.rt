//! Sample inputs.
ghost use Rattle.std.specs.Prelude.{◌≡◌, IfOk};
ghost use Rattle.std.specs.Option.{option_copied};
ghost use Rattle.conformance.specs.Vectors.{vector};

use lake_basics::Blob;
use std::alloc::{AllocError, Global};

/// Version 0 of a Delta table with one column, which adds one file.
const DELTA_VERSION: &str =
    "{\"protocol\":{\"minReaderVersion\":1,\"minWriterVersion\":2}}\n{\"metaData\":{\"id\":\"a1\",\"format\":{\"provider\":\"parquet\",\"options\":{}},\"schemaString\":\"{\\\"type\\\":\\\"struct\\\",\\\"fields\\\":[{\\\"name\\\":\\\"id\\\",\\\"type\\\":\\\"long\\\",\\\"nullable\\\":true,\\\"metadata\\\":{}}]}\",\"partitionColumns\":[],\"configuration\":{}}}\n{\"add\":{\"path\":\"p1.parquet\",\"partitionValues\":{},\"size\":100,\"modificationTime\":1,\"dataChange\":true,\"stats\":\"{\\\"numRecords\\\":5}\"}}\n";

/// The completed instant of a Hudi target that was brought there.
const HUDI_INSTANT: &str =
    "{\"compacted\":false,\"extraMetadata\":{\"lakebridge.mark\":\"{\\\"at\\\":\\\"20240105120000000\\\",\\\"by\\\":\\\"lakebridge\\\",\\\"source\\\":\\\"delta\\\",\\\"table\\\":\\\"a1\\\",\\\"to\\\":\\\"0\\\",\\\"version\\\":2}\",\"schema\":\"{\\\"fields\\\":[{\\\"default\\\":null,\\\"name\\\":\\\"id\\\",\\\"type\\\":[\\\"null\\\",\\\"long\\\"]}],\\\"name\\\":\\\"r0\\\",\\\"type\\\":\\\"record\\\"}\"},\"operationType\":\"INSERT_OVERWRITE\",\"partitionToReplaceFileIds\":{},\"partitionToWriteStats\":{\"\":[{\"fileId\":\"p1.parquet\",\"fileSizeInBytes\":100,\"numDeletes\":0,\"numInserts\":5,\"numUpdateWrites\":0,\"numWrites\":5,\"partitionPath\":\"\",\"path\":\"p1.parquet_20240105120000000_hudiext\",\"prevCommit\":\"null\",\"totalWriteBytes\":100,\"totalWriteErrors\":0}]}}";

/// An Avro container of the one long 1.
const CONTAINER: &str =
    "Obj\x01\x02\x16avro.schema\x0c\"long\"\x00lakebridge-sync!\x02\x02\x02lakebridge-sync!";

/// The same with a second block, whose marker is another one.
const UNCLOSED_CONTAINER: &str =
    "Obj\x01\x02\x16avro.schema\x0c\"long\"\x00lakebridge-sync!\x02\x02\x02lakebridge-sync!\x02\x02\x04\x00\x00\x00\x00\x00\x00\x00\x00\x00\x00\x00\x00\x00\x00\x00\x00";

/// Properties with a comment, an escaped space and a line that goes on.
const PROPERTIES: &str = "# c\na\\ b = c\\\n  d\nk:v\n";

/// The text of this number, none after the last.
fn text_of(index: u32) -> Option<&'static str>
    ensures { option_copied result ≡ vector index }
{
    match index {
        0 => Some(DELTA_VERSION),
        1 => Some(HUDI_INSTANT),
        2 => Some(CONTAINER),
        3 => Some(UNCLOSED_CONTAINER),
        4 => Some(PROPERTIES),
        _ => None,
    }
}

/// A sample of the files that the formats read, by its number: a Delta version, a Hudi instant, an
/// Avro container whole and with a wrong marker, and Hudi properties. None after the last.
pub fn vector(alloc: Global, index: u32) -> Result<Option<Blob>, AllocError>
    ensures { IfOk result (λ bytes. bytes ≡ vector index) }
{
    match text_of(index) {
        Some(text) => Ok(Some(Blob::from_slice(alloc, text.as_bytes())?)),
        None => Ok(None),
    }
}
