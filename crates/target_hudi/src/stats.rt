//! The write stats of the rows that a commit adds.

ghost use Rattle.std.specs.Prelude.{◌≡◌, ◌↔◌, ◌++◌, All, Contains, IfOk, List, codes, length, map};
ghost use Rattle.std.specs.List.{IsDistinct};
ghost use Rattle.std.specs.List.Sorted.{IsSorted, IsStrictlySortedBy};
ghost use Rattle.std.specs.Str.{bytes_eq};
ghost use Rattle.table_history.specs.Path.{IsPath};
ghost use Rattle.table_history.specs.Row.{Row};
ghost use Rattle.table_history.specs.Rows.{HasDistinctPaths};
ghost use Rattle.hudi_names.specs.Time.{IsDigits};
ghost use Rattle.hudi_groups.specs.Group.{file_name_of, folder_of};
ghost use Rattle.hudi_instant.specs.InstantText.{IsSoundStat, stat_cmp};
ghost use Rattle.hudi_instant.specs.declared.instant.Stat.{Stat};
ghost use Rattle.target_hudi.specs.Writing.{stat_of};

use hudi_instant::Stat;
use lake_basics::Text;
use std::alloc::{AllocError, Global};
use std::cmp::Ordering;
use table_history::FileRow;

/// The folder of a path, and the name behind it.
pub(crate) fn split_path(path: &str) -> (&str, &str)
    ensures folder { result.0.now ≡ folder_of path.now }
    ensures name { result.1.now ≡ file_name_of path.now }
{
    match path.rsplit_once('/') {
        Some((folder, name)) => (folder, name),
        None => ("", path),
    }
}

/// The path that the stat of a row has: the file isn't Hudi's, so that the instant and a word for
/// that stand behind its own.
fn stat_path(alloc: Global, path: &Text, instant: &Text) -> Result<Text, AllocError>
    ensures { IfOk result (λ text. text
        ≡ path.now ++ (codes "_" ++ (instant.now ++ codes "_hudiext"))) }
{
    let mut text = String::from_str(alloc, path.as_str())?;
    text.push_str("_")?;
    text.push_str(instant.as_str())?;
    text.push_str("_hudiext")?;
    Ok(Text::from_string(text))
}

/// The write stat of a row.
pub(crate) fn stat_of(alloc: Global, instant: &Text, row: &FileRow) -> Result<Stat, AllocError>
    ensures is { IfOk result (λ stat. stat ≡ stat_of instant.now row.now) }
    ensures sound { IfOk result (λ stat. IsDigits instant.now → IsPath row.now.path
        → IsSoundStat stat) }
{
    let (folder, name) = split_path(row.path.as_str());
    Ok(Stat {
        file_id: Text::from_str(alloc, name)?,
        partition_path: Text::from_str(alloc, folder)?,
        path: stat_path(alloc, &row.path, instant)?,
        writes: row.count,
        size: row.size,
    })
}

fn compare_stats(a: &Stat, b: &Stat) -> Ordering
    ensures { result ≡ stat_cmp a.now b.now }
{
    let by_folder = a.partition_path.cmp(&b.partition_path);
    by_folder.then(a.path.cmp(&b.path))
}

/// The stats in byte order of their folders, and in one folder of their paths.
fn sorted_stats(stats: Vec<Stat>) -> Result<Vec<Stat>, AllocError>
    requires { IsDistinct bytes_eq (map (λ (s : Stat). s.path) stats.items) }
    ensures stats { IfOk result (λ sorted. (s : Stat)
        → Contains sorted.items s ↔ Contains stats.items s) }
    ensures order { IfOk result (λ sorted. IsStrictlySortedBy stat_cmp sorted.items) }
    ensures sorted { IfOk result (λ sorted. IsSorted stat_cmp sorted.items) }
    ensures len { IfOk result (λ sorted. length sorted.items ≡ length stats.items) }
{
    let mut sorted = stats;
    sorted.sort_by(|a, b| compare_stats(a, b))?;
    Ok(sorted)
}

/// The write stats of the rows at this instant, in byte order of their folders, and in one folder of
/// their paths.
pub(crate) fn stats_of(
    alloc: Global,
    instant: &Text,
    added: &[FileRow],
) -> Result<Vec<Stat>, AllocError>
    requires digits { IsDigits instant.now }
    requires distinct { HasDistinctPaths added.now }
    requires paths { (row : Row) → Contains added.now row → IsPath row.path }
    ensures stats { IfOk result (λ stats. (s : Stat) → Contains stats.items s
        ↔ ((row : Row) × Contains added.now row × (s ≡ stat_of instant.now row))) }
    ensures order { IfOk result (λ stats. IsStrictlySortedBy stat_cmp stats.items) }
    ensures sorted { IfOk result (λ stats. IsSorted stat_cmp stats.items) }
    ensures sound { IfOk result (λ stats. All IsSoundStat stats.items) }
    ensures len { IfOk result (λ stats. length stats.items ≡ length added.now) }
{
    let mut stats = Vec::with_capacity(alloc, added.len())?;
    for row in added {
        stats.push(stat_of(alloc, instant, row)?)?;
    }
    sorted_stats(stats)
}
