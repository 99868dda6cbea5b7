//! Commands that are run over a store in memory.
use crate::setting::{PLACE, Setting};
use lake_batch::run_all;
use lake_store::{Clock, FuseStore, MemorySink, MemoryStore};
use source_hudi::HudiSource;
use std::alloc::{AllocError, Global};
use std::mem;
use store_rows::{no_trouble, text_of};
use sync_driver::{Mode, Report, sync_one};
use target_delta::DeltaTarget;

fn words_of(alloc: Global, place: &str, line: &str) -> Result<Vec<String>, AllocError> {
    let mut words = Vec::new(alloc);
    words.push(String::from_str(alloc, place)?)?;
    for word in line.split(' ') {
        words.push(String::from_str(alloc, word)?)?;
    }
    Ok(words)
}

/// The number of the status of a command or a batch, and its lines.
pub(crate) fn answer(
    alloc: Global,
    setting: &Setting,
    store: &mut FuseStore,
    line: &str,
) -> Result<String, AllocError> {
    let words = words_of(alloc, setting.place.as_str(), line)?;
    let failing = Vec::from_slice(alloc, setting.failing_puts.as_slice())?;
    let mut out = MemorySink::new(alloc, failing);
    let mut clock = setting.clock;
    let empty = FuseStore::new(alloc, MemoryStore::new(alloc), no_trouble(alloc));
    let files = mem::replace(store, empty);
    let (files, status) = run_all(alloc, &words, files, &mut clock, &mut out);
    *store = files;
    let lines = text_of(alloc, out.bytes())?;
    format!(in alloc; "{}\n{lines}", status.number())
}

/// What a sync of the Hudi table to the Delta target answers.
pub(crate) fn report(
    alloc: Global,
    setting: &Setting,
    store: &mut FuseStore,
) -> Result<String, AllocError> {
    let Ok(target) = DeltaTarget::new(alloc, PLACE) else {
        return Err(AllocError);
    };
    let mut clock = setting.clock;
    let now_ms = clock.now_ms();
    match sync_one(
        alloc,
        &HudiSource::new(),
        &target,
        store,
        Mode::Sync,
        now_ms,
    ) {
        Ok(report) => report_text(alloc, &report),
        Err(status) => format!(in alloc; "status {}", status.number()),
    }
}

fn report_text(alloc: Global, report: &Report) -> Result<String, AllocError> {
    let mode = if report.full { "full" } else { "incremental" };
    format!(in alloc;
        "{mode}, published {}, files {}, at {}",
        report.published,
        report.files,
        report.at.as_str()
    )
}
