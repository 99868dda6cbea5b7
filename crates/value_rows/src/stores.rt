//! Steps on stores, sinks, clocks and lists of names.
use crate::basics;
use crate::shown::readable;
use lake_basics::{Blob, Text};
use lake_store::{
    Clock, FixedClock, FuseStore, MemorySink, MemoryStore, Names, Script, Sink, Store, StoreError,
    stage_and_publish,
};
use rows::{Step, show_answer, show_error, show_refused};
use std::alloc::{AllocError, Global};
use std::collections::{BTreeMap, HashMap};

/// The store of a row.
#[derive(Drop)]
pub struct Stores {
    alloc: Global,
    store: FuseStore,
}

/// The numbers among words.
fn numbers(alloc: Global, words: &[&str]) -> Result<Vec<u64>, AllocError> {
    let mut numbers = Vec::new(alloc);
    for word in words {
        if let Ok(number) = word.parse::<u64>() {
            numbers.push(number)?;
        }
    }
    Ok(numbers)
}

fn scripted(alloc: Global, failing: Vec<u64>, contested: Vec<u64>) -> FuseStore {
    let script = Script {
        failing,
        stop: None,
        contested,
    };
    FuseStore::new(alloc, MemoryStore::new(alloc), script)
}

fn show_done(shown: &mut String, done: Result<(), StoreError>) -> Result<(), AllocError> {
    match done {
        Ok(()) => writeln!(shown, "Ok"),
        Err(error) => show_error(shown, &error),
    }
}

fn show_read(
    alloc: Global,
    shown: &mut String,
    read: Result<Option<Blob>, StoreError>,
) -> Result<(), AllocError> {
    match read {
        Ok(Some(bytes)) => show_file(alloc, bytes.as_slice(), shown),
        Ok(None) => writeln!(shown, "no file"),
        Err(error) => show_error(shown, &error),
    }
}

fn show_file(alloc: Global, bytes: &[u8], shown: &mut String) -> Result<(), AllocError> {
    let text = readable(alloc, bytes)?;
    writeln!(shown, "\"{text}\"")
}

impl Stores {
    /// An empty store none of whose calls fails.
    pub fn new(alloc: Global) -> Stores {
        let store = scripted(alloc, Vec::new(alloc), Vec::new(alloc));
        Stores { alloc, store }
    }

    /// Does a step on stores or lists of names, or else one on texts.
    pub fn step(&mut self, step: &Step<'_>, shown: &mut String) -> Result<(), AllocError> {
        match step.words() {
            "list of the top" => self.show_names("", shown),
            "sync" => show_done(shown, self.store.sync()),
            "stop no more" => self.set_stop(None),
            "names" => show_sorted(self.alloc, step.lines(), shown),
            "lists of names" => show_lists(self.alloc, step.lines(), shown),
            _ => self.step_on_files(step, shown),
        }
    }

    /// Does a step on one file of a store.
    fn step_on_files(&mut self, step: &Step<'_>, shown: &mut String) -> Result<(), AllocError> {
        match step.each_word() {
            ["write", path] => show_done(shown, self.store.write(path, b"")),
            ["write", path, text] => show_done(shown, self.store.write(path, text.as_bytes())),
            ["read", path] => show_read(self.alloc, shown, self.store.read(self.alloc, path)),
            ["remove", path] => show_done(shown, self.store.remove(path)),
            _ => self.step_on_parts(step, shown),
        }
    }

    /// Does a step on parts of files, folders or publications.
    fn step_on_parts(&mut self, step: &Step<'_>, shown: &mut String) -> Result<(), AllocError> {
        match step.each_word() {
            ["read", "part", path, from, len] => self.show_part(path, from, len, shown),
            ["list", "of", folder] => self.show_names(folder, shown),
            ["publish", text, "at", path, "by", staged] => {
                self.show_published(staged, path, text, shown)
            }
            _ => self.step_on_trouble(step, shown),
        }
    }

    /// Does a step on what happens to a store.
    fn step_on_trouble(&mut self, step: &Step<'_>, shown: &mut String) -> Result<(), AllocError> {
        match step.each_word() {
            ["store", "failing", "at", calls @ ..] => self.set_failing(calls),
            ["store", "contested", "at", calls @ ..] => self.set_contested(calls),
            ["stop", "at", call] => self.set_stop(call.parse::<u64>().ok()),
            ["crash", choices @ ..] => self.crash(choices),
            _ => self.other_step(step, shown),
        }
    }

    fn other_step(&mut self, step: &Step<'_>, shown: &mut String) -> Result<(), AllocError> {
        let alloc = self.alloc;
        match step.each_word() {
            ["put", path, text] => self.store.inner().put(path, text.as_bytes()),
            ["sink", "failing", "at", calls @ ..] => show_sink(alloc, calls, step.lines(), shown),
            ["clock", ms] => show_clock(ms, shown),
            _ => basics::step(alloc, step, shown),
        }
    }

    fn set_failing(&mut self, calls: &[&str]) -> Result<(), AllocError> {
        let alloc = self.alloc;
        self.store = scripted(alloc, numbers(alloc, calls)?, Vec::new(alloc));
        Ok(())
    }

    fn set_contested(&mut self, calls: &[&str]) -> Result<(), AllocError> {
        let alloc = self.alloc;
        self.store = scripted(alloc, Vec::new(alloc), numbers(alloc, calls)?);
        Ok(())
    }

    fn set_stop(&mut self, call: Option<u64>) -> Result<(), AllocError> {
        self.store.set_stop(call);
        Ok(())
    }

    fn crash(&mut self, choices: &[&str]) -> Result<(), AllocError> {
        let choices = numbers(self.alloc, choices)?;
        self.store.inner().crash(self.alloc, &choices)
    }

    fn show_part(
        &mut self,
        path: &str,
        from: &str,
        len: &str,
        shown: &mut String,
    ) -> Result<(), AllocError> {
        let alloc = self.alloc;
        match (from.parse::<u64>(), len.parse::<u32>()) {
            (Ok(from), Ok(len)) => {
                show_read(alloc, shown, self.store.read_part(alloc, path, from, len))
            }
            _ => writeln!(shown, "not asked: no numbers"),
        }
    }

    fn show_names(&mut self, folder: &str, shown: &mut String) -> Result<(), AllocError> {
        match self.store.list(self.alloc, folder) {
            Ok(names) => show_joined(self.alloc, folder, &names, shown),
            Err(error) => show_error(shown, &error),
        }
    }

    /// Publishes a file where a read shows that there is none.
    fn show_published(
        &mut self,
        staged: &str,
        path: &str,
        text: &str,
        shown: &mut String,
    ) -> Result<(), AllocError> {
        if staged == path {
            return writeln!(shown, "not asked: one path for both");
        }
        match self.store.read(self.alloc, path) {
            Ok(Some(_)) => writeln!(shown, "not asked: there is a file"),
            Ok(None) => show_done(
                shown,
                stage_and_publish(&mut self.store, staged, path, text.as_bytes()),
            ),
            Err(error) => show_error(shown, &error),
        }
    }
}

/// The names in order, or a word that there is none.
fn joined(alloc: Global, names: &Names) -> Result<String, AllocError> {
    if names.is_empty() {
        return String::from_str(alloc, "none");
    }
    let mut line = String::new(alloc);
    for name in names.as_slice() {
        if !line.is_empty() {
            line.push(' ')?;
        }
        line.push_str(name.as_str())?;
    }
    Ok(line)
}

/// Shows the names that came of an input.
fn show_joined(
    alloc: Global,
    input: &str,
    names: &Names,
    shown: &mut String,
) -> Result<(), AllocError> {
    show_answer(shown, input, joined(alloc, names)?.as_str())
}

/// Puts each line out to a sink whose puts of these numbers fail, and shows what it has then.
fn show_sink(
    alloc: Global,
    calls: &[&str],
    lines: &[&str],
    shown: &mut String,
) -> Result<(), AllocError> {
    let mut sink = MemorySink::new(alloc, numbers(alloc, calls)?);
    show_puts(alloc, &mut sink, lines, shown)
}

fn show_puts(
    alloc: Global,
    sink: &mut MemorySink,
    lines: &[&str],
    shown: &mut String,
) -> Result<(), AllocError> {
    for line in lines {
        show_put(sink, line, shown)?;
    }
    let text = readable(alloc, sink.bytes())?;
    writeln!(shown, "it has {}", text.as_str())
}

fn show_put(sink: &mut MemorySink, line: &str, shown: &mut String) -> Result<(), AllocError> {
    match sink.put(line.as_bytes()) {
        Ok(()) => show_answer(shown, line, "Ok"),
        Err(error) => show_refused(shown, line, &error),
    }
}

fn show_clock(ms: &str, shown: &mut String) -> Result<(), AllocError> {
    match ms.parse::<u64>() {
        Ok(ms) if ms < 1 << 63 => {
            let mut clock = FixedClock::new(ms);
            writeln!(shown, "{}", clock.now_ms())
        }
        _ => writeln!(shown, "not asked: no time"),
    }
}

/// The names on a line, each once and in order.
fn names_on(alloc: Global, line: &str) -> Result<Names, AllocError> {
    if line.is_empty() {
        return Ok(Names::new(alloc));
    }
    let mut found = Vec::new(alloc);
    for name in line.split(' ') {
        found.push(Text::from_str(alloc, name)?)?;
    }
    Ok(Names::sort(found))
}

/// Shows the names of each line in order, their number and the last of them.
fn show_sorted(alloc: Global, lines: &[&str], shown: &mut String) -> Result<(), AllocError> {
    for line in lines {
        let names = names_on(alloc, line)?;
        show_joined(alloc, line, &names, shown)?;
        show_last(&names, shown)?;
    }
    Ok(())
}

fn show_last(names: &Names, shown: &mut String) -> Result<(), AllocError> {
    let length = names.len();
    match names.get(length.saturating_sub(1)) {
        Some(last) => writeln!(shown, "{length} names, the last is {}", last.as_str()),
        None => Ok(()),
    }
}

/// Shows the lists of the lines in order, each once, with its line and how often it came.
fn show_lists(alloc: Global, lines: &[&str], shown: &mut String) -> Result<(), AllocError> {
    let mut places = BTreeMap::new(alloc);
    let mut counts: HashMap<Names, u32> = HashMap::new(alloc);
    for (place, line) in lines.iter().enumerate() {
        places.insert(names_on(alloc, line)?, place)?;
        add(alloc, line, &mut counts)?;
    }
    show_counted(alloc, &places, &counts, shown)
}

/// Counts the list on a line once more.
fn add(alloc: Global, line: &str, counts: &mut HashMap<Names, u32>) -> Result<(), AllocError> {
    let count = counts.entry(names_on(alloc, line)?)?.or_insert(0);
    *count = count.saturating_add(1);
    Ok(())
}

fn show_counted(
    alloc: Global,
    places: &BTreeMap<Names, usize>,
    counts: &HashMap<Names, u32>,
    shown: &mut String,
) -> Result<(), AllocError> {
    for (names, place) in places {
        let count = counts.get(names).copied().unwrap_or(0);
        let list = joined(alloc, names)?;
        writeln!(
            shown,
            "{} came {count} times, last as line {place}",
            list.as_str()
        )?;
    }
    Ok(())
}
