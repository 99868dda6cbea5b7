//! The files of the drill.
ghost use Rattle.std.specs.Prelude.{◌≡◌, ◌≤◌, ◌<◌, ◌+◌, ◌%◌, ◌++◌, ◌*◌, map, IfOk, OnOk};
ghost use Rattle.conformance.specs.Drill.{added_file, file_count, numbers_under, path_at, removed_file, values_at};

use delta_log::FileAction;
use lake_basics::{Items, Text};
use std::alloc::{AllocError, Global};

/// How many files a commit adds.
const FILES: u64 = 50;

/// What is left of the sum of the number and this much more, divided by this.
pub(crate) fn remainder(number: u64, more: u64, divisor: u64) -> u64
    requires positive { 0 < divisor }
    ensures { result ≡ (number + more) % divisor }
{
    ((number as u128 + more as u128) % divisor as u128) as u64
}

/// The path of the file that the commit adds at this place.
fn path_at(alloc: Global, number: u64, commit: u64, place: u64) -> Result<Text, AllocError>
    requires commit { commit < 200 }
    requires place { place < 50 }
    ensures { IfOk result (λ path. path ≡ path_at number commit place) }
{
    let folder = remainder(number, commit + place, 7);
    Ok(Text::from_string(format!(in alloc; "d={folder}/f-{commit}-{place}.parquet")?))
}

/// The text of the folder's number, as the value of the partition column.
fn values_at(
    alloc: Global,
    number: u64,
    commit: u64,
    place: u64,
) -> Result<Items<(Text, Option<Text>)>, AllocError>
    requires commit { commit < 200 }
    requires place { place < 50 }
    ensures { IfOk result (λ values. values ≡ values_at number commit place) }
{
    let folder = remainder(number, commit + place, 7);
    let name = Text::from_str(alloc, "d")?;
    let value = Text::from_string(folder.to_string(alloc)?);
    let mut values = Vec::new(alloc);
    values.push((name, Some(value)))?;
    Ok(Items::from_vec(values))
}

/// The file that the commit adds at this place.
fn added_file(alloc: Global, number: u64, commit: u64, place: u64) -> Result<FileAction, AllocError>
    requires commit { commit < 200 }
    requires place { place < 50 }
    ensures { IfOk result (λ file. file ≡ added_file number commit place) }
{
    let path = path_at(alloc, number, commit, place)?;
    let values = values_at(alloc, number, commit, place)?;
    let count = 1 + remainder(number, place, 50);
    Ok(FileAction::Add {
        path,
        values,
        size: 1000 + count,
        count,
    })
}

/// Pushes the files that a commit adds.
pub(crate) fn push_added(
    alloc: Global,
    files: &mut Vec<FileAction>,
    number: u64,
    commit: u64,
) -> Result<(), AllocError>
    requires commit { commit < 200 }
    ensures { OnOk result (files.new.items
        ≡ files.old.items ++ map (added_file number commit) (numbers_under file_count)) }
{
    for place in 0..FILES {
        files.push(added_file(alloc, number, commit, place)?)?;
    }
    Ok(())
}

/// Pushes the removal of the files that an earlier commit added.
pub(crate) fn push_removed(
    alloc: Global,
    files: &mut Vec<FileAction>,
    number: u64,
    commit: u64,
) -> Result<(), AllocError>
    requires commit { commit < 200 }
    ensures { OnOk result (files.new.items
        ≡ files.old.items ++ map (removed_file number commit) (numbers_under file_count)) }
{
    for place in 0..FILES {
        let path = path_at(alloc, number, commit, place)?;
        files.push(FileAction::Remove { path })?;
    }
    Ok(())
}
