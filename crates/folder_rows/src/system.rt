//! Steps on the clock, the standard output and a folder that another run holds.
use crate::shown::{show_line, show_no_step, show_refusal};
use crate::watched::Watched;
use lake_store::{Clock, Sink, SinkError, Store, StoreError};
use lake_system::{HeldFolder, StdSink, SystemClock};
use std::alloc::{AllocError, Global};
use std::io::{self, ErrorKind};
use std::time::{self, Duration};

/// A clock that stands still, or gives no time.
#[derive(Clone, Copy)]
pub(crate) struct Standing {
    pub time: Option<Duration>,
}

impl time::Clock for Standing {
    fn monotonic(&self) -> io::Result<Duration> {
        self.since_1970()
    }

    fn since_1970(&self) -> io::Result<Duration> {
        self.time.ok_or_else(|| io::Error::from(ErrorKind::Other))
    }
}

/// Shows what the clock says that is made of one that stands at this time, or gives none.
pub(crate) fn show_clock(
    alloc: Global,
    time: Option<Duration>,
    shown: &mut String,
) -> Result<(), AllocError> {
    let time = SystemClock::new(Standing { time }).now_ms();
    let line = format!(in alloc; "{time} ms")?;
    show_line(shown, line.as_str())
}

/// Shows what the clock says at so many seconds and nanoseconds.
pub(crate) fn show_clock_at(
    alloc: Global,
    words: &str,
    shown: &mut String,
) -> Result<(), AllocError> {
    match time_of(words) {
        Some(time) => show_clock(alloc, time, shown),
        None => show_no_step(shown),
    }
}

/// The time that the words say, if they say one: that is none where no duration is so long.
fn time_of(words: &str) -> Option<Option<Duration>> {
    let (seconds, nanoseconds) = words.strip_prefix("at ")?.split_once(' ')?;
    let seconds = Duration::from_secs(seconds.parse::<u64>().ok()?);
    let nanoseconds = Duration::from_nanos(nanoseconds.parse::<u64>().ok()?);
    Some(seconds.checked_add(nanoseconds))
}

/// Shows whether the system's clock says a time of this century in milliseconds.
pub(crate) fn show_system_clock(rt: &HostRuntime, shown: &mut String) -> Result<(), AllocError> {
    let time = SystemClock::new(rt).now_ms();
    // From 2020 to 2100.
    if time > 1_577_836_800_000 && time < 4_102_444_800_000 {
        show_line(shown, "a time of this century")
    } else {
        show_line(shown, "another time")
    }
}

/// Puts the text out, and answers what came, as a line.
pub(crate) fn put_out(watched: Watched<'_>, text: &str) -> &'static str {
    match StdSink::new(watched).put(text.as_bytes()) {
        Ok(()) => "Ok\n",
        Err(SinkError::Memory) => "Err Memory\n",
        Err(SinkError::Failed) => "Err Failed\n",
    }
}

fn show_answer<T: Drop>(
    alloc: Global,
    call: &str,
    answer: Result<T, StoreError>,
    shown: &mut String,
) -> Result<(), AllocError> {
    shown.push_str(call)?;
    shown.push_str(": ")?;
    match answer {
        Ok(_) => show_line(shown, "Ok"),
        Err(error) => show_refusal(alloc, error, shown),
    }
}

/// Shows what each call of a folder that another run holds answers.
pub(crate) fn show_held(alloc: Global, shown: &mut String) -> Result<(), AllocError> {
    let mut held = HeldFolder::new();
    show_answer(alloc, "list", held.list(alloc, "log"), shown)?;
    show_answer(alloc, "read", held.read(alloc, "log/a"), shown)?;
    show_answer(alloc, "part", held.read_part(alloc, "log/a", 0, 1), shown)?;
    show_answer(alloc, "write", held.write("log/a", b"a"), shown)?;
    show_answer(alloc, "sync", held.sync(), shown)?;
    show_answer(alloc, "publish", held.publish("log/a", "log/b"), shown)?;
    show_answer(alloc, "remove", held.remove("log/a"), shown)
}
