//! What the words of a step do.
ghost use Rattle.std.specs.Prelude.{IfOk, IfSome};
ghost use Rattle.target_core.specs.Conditions.{IsPublishable};

use crate::containers::{bytes_of_lines, container_of_lines};
use crate::manifests::{tell_list, tell_live, tell_manifest, tell_path};
use crate::metadata::{tell_ancestors, tell_metadata, tell_version};
use crate::samples::tell_written;
use crate::showing::show_bytes;
use crate::tables::{tell_files, tell_names, tell_snapshot};
use lake_basics::{Blob, Text};
use lake_store::{FuseStore, MemoryStore, Script, Store};
use rows::{Step, Steps};
use source_iceberg::IcebergSource;
use std::alloc::{AllocError, Global};
use table_history::{Kind, Table};
use table_rows::{
    Origin, table_of_lines, tell_head, tell_publication, tell_seen, tell_since, tell_table,
};
use target_iceberg::IcebergTarget;

/// 2024-01-05 12:00:00 UTC.
const NOON_MS: u64 = 1_704_456_000_000;

/// The files of a row, and what its steps have set.
#[derive(Drop)]
pub struct IcebergSteps {
    alloc: Global,
    store: FuseStore,
    source: IcebergSource,
    /// The time of what is published, in milliseconds since 1970-01-01.
    now_ms: u64,
    /// How many files are added to a table that is published.
    more: u64,
}

/// A store without files that never fails.
fn empty_store(alloc: Global) -> FuseStore {
    let script = Script {
        failing: Vec::new(alloc),
        stop: None,
        contested: Vec::new(alloc),
    };
    FuseStore::new(alloc, MemoryStore::new(alloc), script)
}

/// The target at `/w`.
fn target_at_w(alloc: Global) -> Result<IcebergTarget, AllocError> {
    match IcebergTarget::new(alloc, "/w") {
        Ok(target) => Ok(target),
        Err(_) => Err(AllocError),
    }
}

/// What a mark says of a commit at this position, where the time is one of 63 bits.
fn origin_of(source: Kind, id: Text, position: &str, now_ms: u64) -> Option<Origin<'_>> {
    if now_ms >= 1 << 63 {
        return None;
    }
    Some(Origin {
        source,
        table: Some(id),
        position,
        now_ms,
    })
}

fn no_step(step: &Step<'_>, shown: &mut String) -> Result<(), AllocError> {
    writeln!(shown, "no step: {}", step.words())
}

/// The word at a place, which is empty where there is none.
fn word_at<'a>(words: &[&'a str], place: usize) -> &'a str {
    match words.get(place) {
        Some(word) => *word,
        None => "",
    }
}

/// The words from a place on.
fn words_from<'w, 'a>(words: &'w [&'a str], place: usize) -> &'w [&'a str] {
    if place < words.len() {
        &words[place..]
    } else {
        &[]
    }
}

/// The source that the last of the words names.
fn source_of(words: &[&str]) -> Option<Kind> {
    match words {
        [.., source] => Kind::from_word(source),
        [] => None,
    }
}

/// Tells what the bytes of a file say that a step reads.
fn tell_bytes(
    alloc: Global,
    words: &[&str],
    bytes: &[u8],
    step: &Step<'_>,
    shown: &mut String,
) -> Result<(), AllocError> {
    match word_at(words, 1) {
        "metadata" => tell_metadata(alloc, bytes, shown),
        "list" => tell_list(alloc, bytes, shown),
        "manifest" => tell_manifest(alloc, bytes, words_from(words, 3), shown),
        _ => no_step(step, shown),
    }
}

/// A table of these partition columns that has no row.
fn empty_table(alloc: Global, names: &[&str]) -> Result<Table, AllocError> {
    let mut partition = Vec::new(alloc);
    for name in names {
        partition.push(Text::from_str(alloc, name)?)?;
    }
    Table::empty(alloc, partition.as_slice())
}

/// Adds the lines of so many files.
fn add_files(text: &mut String, count: u64) -> Result<(), AllocError> {
    for number in 0..count {
        writeln!(text, "[\"f{number:05}.parquet\",1,100,[]]")?;
    }
    Ok(())
}

impl IcebergSteps {
    /// A row without files, at noon.
    pub fn new(alloc: Global) -> IcebergSteps {
        IcebergSteps {
            alloc,
            store: empty_store(alloc),
            source: IcebergSource::new(),
            now_ms: NOON_MS,
            more: 0,
        }
    }

    /// Does a step of these words.
    fn play(
        &mut self,
        words: &[&str],
        step: &Step<'_>,
        shown: &mut String,
    ) -> Result<(), AllocError> {
        match word_at(words, 0) {
            "file" => self.put_text(word_at(words, 1), step),
            "container" => self.put_container(words, step, shown),
            "bytes" => self.put_bytes(word_at(words, 1), step, shown),
            "cut" => self.cut(word_at(words, 1)),
            "stop" => self.set("stop", word_at(words, 2), step, shown),
            "clock" => self.set("clock", word_at(words, 1), step, shown),
            "rows" => self.set("rows", word_at(words, 1), step, shown),
            _ => self.on_table(words, step, shown),
        }
    }

    // ---- what is set

    /// The bytes of a file, and none where it isn't there.
    fn bytes_at(&mut self, path: &str) -> Result<Blob, AllocError> {
        match self.store.inner().read(self.alloc, path) {
            Ok(Some(bytes)) => Ok(bytes),
            Ok(None) => Ok(Blob::new(self.alloc)),
            Err(_) => Err(AllocError),
        }
    }

    fn put(&mut self, path: &str, bytes: &[u8]) -> Result<(), AllocError> {
        self.store.inner().put(path, bytes)
    }

    fn put_text(&mut self, path: &str, step: &Step<'_>) -> Result<(), AllocError> {
        let text = step.text(self.alloc)?;
        self.put(path, text.as_str().as_bytes())
    }

    fn put_bytes(
        &mut self,
        path: &str,
        step: &Step<'_>,
        shown: &mut String,
    ) -> Result<(), AllocError> {
        match bytes_of_lines(self.alloc, step.lines())? {
            Some(bytes) => self.put(path, bytes.as_slice()),
            None => no_step(step, shown),
        }
    }

    /// Puts the container that words `container PATH CODEC COUNT` say.
    fn put_container(
        &mut self,
        words: &[&str],
        step: &Step<'_>,
        shown: &mut String,
    ) -> Result<(), AllocError> {
        match container_of_lines(
            self.alloc,
            word_at(words, 2),
            word_at(words, 3),
            step.lines(),
        )? {
            Some(bytes) => self.put(word_at(words, 1), bytes.as_slice()),
            None => no_step(step, shown),
        }
    }

    /// Takes the last byte off the file at the path.
    fn cut(&mut self, path: &str) -> Result<(), AllocError> {
        let bytes = self.bytes_at(path)?;
        match bytes.as_slice() {
            [front @ .., _] => self.put(path, front),
            [] => Ok(()),
        }
    }

    fn set(
        &mut self,
        verb: &str,
        number: &str,
        step: &Step<'_>,
        shown: &mut String,
    ) -> Result<(), AllocError> {
        match number.parse::<u64>() {
            Ok(number) => {
                self.set_number(verb, number);
                Ok(())
            }
            Err(_) => no_step(step, shown),
        }
    }

    /// Sets the clock, how many files are added, or behind how many more calls each call of the store fails.
    fn set_number(&mut self, verb: &str, number: u64) {
        match verb {
            "clock" => self.now_ms = number,
            "rows" => self.more = number,
            _ => self.store.set_stop(Some(number)),
        }
    }

    // ---- what is read

    /// Does a step that reads a name or a file.
    fn on_file(
        &mut self,
        words: &[&str],
        step: &Step<'_>,
        shown: &mut String,
    ) -> Result<(), AllocError> {
        match word_at(words, 0) {
            "version" => tell_version(word_at(words, 2), shown),
            "path" => tell_path(self.alloc, word_at(words, 4), word_at(words, 2), shown),
            "written" => tell_written(self.alloc, word_at(words, 1), shown),
            "show" => self.show(word_at(words, 1), shown),
            "ancestors" => self.ancestors(word_at(words, 2), shown),
            "read" => self.read(words, step, shown),
            "live" => self.live(words, shown),
            _ => no_step(step, shown),
        }
    }

    fn show(&mut self, path: &str, shown: &mut String) -> Result<(), AllocError> {
        let bytes = self.bytes_at(path)?;
        show_bytes(bytes.as_slice(), shown)
    }

    fn ancestors(&mut self, path: &str, shown: &mut String) -> Result<(), AllocError> {
        let bytes = self.bytes_at(path)?;
        tell_ancestors(self.alloc, bytes.as_slice(), shown)
    }

    /// Reads the file that words `read metadata PATH`, `read list PATH` or `read manifest PATH COLUMN ..` say.
    fn read(
        &mut self,
        words: &[&str],
        step: &Step<'_>,
        shown: &mut String,
    ) -> Result<(), AllocError> {
        let bytes = self.bytes_at(word_at(words, 2))?;
        tell_bytes(self.alloc, words, bytes.as_slice(), step, shown)
    }

    /// Tells the live rows that words `live rows LIST MANIFEST at LOCATION` say.
    fn live(&mut self, words: &[&str], shown: &mut String) -> Result<(), AllocError> {
        let list = self.bytes_at(word_at(words, 2))?;
        let manifest = self.bytes_at(word_at(words, 3))?;
        let location = word_at(words, 5);
        tell_live(
            self.alloc,
            list.as_slice(),
            manifest.as_slice(),
            location,
            shown,
        )
    }

    // ---- a table

    /// Does a step on the folder of the table, or over the table as a source or a target.
    fn on_table(
        &mut self,
        words: &[&str],
        step: &Step<'_>,
        shown: &mut String,
    ) -> Result<(), AllocError> {
        match word_at(words, 0) {
            "names" => tell_names(self.alloc, self.store.inner(), shown),
            "files" => tell_files(self.alloc, self.store.inner(), shown),
            "snapshot" => {
                tell_snapshot(self.alloc, self.store.inner(), word_at(words, 2), shown)
            }
            "head" => tell_head(self.alloc, &self.source, &mut self.store, shown),
            "whole" => tell_table(self.alloc, &self.source, &mut self.store, shown),
            "since" => self.since(words, step, shown),
            "inspect" => self.inspect(words, step, shown),
            "publish" => self.publish(words, step, shown),
            _ => self.on_file(words, step, shown),
        }
    }

    /// The table that the lines of a step say, with the files that are added.
    fn table_of(&self, step: &Step<'_>) -> Result<Option<Table>, AllocError>
        ensures { IfOk result (λ table. IfSome table IsPublishable) }
    {
        let mut text = step.text(self.alloc)?;
        add_files(&mut text, self.more)?;
        let lines: Vec<&str> = text.as_str().lines().collect(self.alloc)?;
        table_of_lines(self.alloc, lines.as_slice())
    }

    /// Adds the commits that words `since POSITION`, `since POSITION over COLUMN ..` or `since POSITION behind`
    /// say: over a table of these partition columns that has no row, or over the one that the lines say.
    fn since(
        &mut self,
        words: &[&str],
        step: &Step<'_>,
        shown: &mut String,
    ) -> Result<(), AllocError> {
        let base = match word_at(words, 2) {
            "behind" => self.table_of(step)?,
            _ => Some(empty_table(self.alloc, words_from(words, 3))?),
        };
        match base {
            Some(base) => self.since_over(word_at(words, 1), &base, shown),
            None => shown.push_str("not asked: no table\n"),
        }
    }

    fn since_over(
        &mut self,
        position: &str,
        base: &Table,
        shown: &mut String,
    ) -> Result<(), AllocError> {
        tell_since(
            self.alloc,
            &self.source,
            &mut self.store,
            position,
            base,
            shown,
        )
    }

    fn inspect(
        &mut self,
        words: &[&str],
        step: &Step<'_>,
        shown: &mut String,
    ) -> Result<(), AllocError> {
        match source_of(words) {
            Some(source) => self.inspect_for(source, shown),
            None => no_step(step, shown),
        }
    }

    fn inspect_for(&mut self, source: Kind, shown: &mut String) -> Result<(), AllocError> {
        let target = target_at_w(self.alloc)?;
        tell_seen(self.alloc, &target, &mut self.store, source, shown)
    }

    /// Publishes at the positions that words `publish POSITION of SOURCE` or `publish 1 to LAST of SOURCE` say.
    fn publish(
        &mut self,
        words: &[&str],
        step: &Step<'_>,
        shown: &mut String,
    ) -> Result<(), AllocError> {
        match (source_of(words), word_at(words, 3).parse::<u32>()) {
            (Some(source), Ok(last)) => self.publish_each(source, last, step, shown),
            (Some(source), Err(_)) => self.publish_at(source, word_at(words, 1), step, shown),
            (None, _) => no_step(step, shown),
        }
    }

    /// Publishes what leads to the table of the lines, and adds what comes of it.
    fn publish_at(
        &mut self,
        source: Kind,
        position: &str,
        step: &Step<'_>,
        shown: &mut String,
    ) -> Result<(), AllocError> {
        let id = Text::from_str(self.alloc, "a1")?;
        match origin_of(source, id, position, self.now_ms) {
            Some(origin) => self.publish_lines(&origin, step, shown),
            None => shown.push_str("not asked: the time has 64 bits\n"),
        }
    }

    fn publish_lines(
        &mut self,
        origin: &Origin<'_>,
        step: &Step<'_>,
        shown: &mut String,
    ) -> Result<(), AllocError> {
        let target = target_at_w(self.alloc)?;
        match self.table_of(step)? {
            Some(table) => {
                tell_publication(self.alloc, &target, &mut self.store, &table, origin, shown)
            }
            None => shown.push_str("not asked: no table\n"),
        }
    }

    /// Publishes the same table at each of the positions from 1 to the last one, and adds what comes of it
    /// where that is something else than before.
    fn publish_each(
        &mut self,
        source: Kind,
        last: u32,
        step: &Step<'_>,
        shown: &mut String,
    ) -> Result<(), AllocError> {
        let mut before = String::new(self.alloc);
        for number in 0..last {
            self.publish_next(source, u64::from(number) + 1, step, &mut before, shown)?;
        }
        Ok(())
    }

    fn publish_next(
        &mut self,
        source: Kind,
        number: u64,
        step: &Step<'_>,
        before: &mut String,
        shown: &mut String,
    ) -> Result<(), AllocError> {
        let position = number.to_string(self.alloc)?;
        let mut told = String::new(self.alloc);
        self.publish_at(source, position.as_str(), step, &mut told)?;
        if told.as_str() != before.as_str() {
            shown.push_str(told.as_str())?;
        }
        *before = told;
        Ok(())
    }
}

impl Steps for IcebergSteps {
    fn begin(&mut self) -> Result<(), AllocError> {
        *self = IcebergSteps::new(self.alloc);
        Ok(())
    }

    fn step(&mut self, step: &Step<'_>, shown: &mut String) -> Result<(), AllocError> {
        let words: Vec<&str> = step.words().split(' ').collect(self.alloc)?;
        self.play(words.as_slice(), step, shown)
    }
}
