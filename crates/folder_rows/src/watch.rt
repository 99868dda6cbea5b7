//! What is noted of the calls of the system, and the errors that they are told to answer.
ghost use Rattle.std.specs.Prelude.{◌≤◌, IfOk};

use std::alloc::{AllocError, Global};
use std::cell::RefCell;
use std::io::{self, ErrorKind};

/// A call of the system.
#[derive(Clone, Copy, PartialEq, Eq)]
pub(crate) enum Call {
    Look,
    Open,
    List,
    Create,
    Write,
    SyncFile,
    SyncFolder,
    MakeFolder,
    Link,
    Rename,
    Remove,
    Print,
}

const CALLS: [Call; 12] = [
    Call::Look,
    Call::Open,
    Call::List,
    Call::Create,
    Call::Write,
    Call::SyncFile,
    Call::SyncFolder,
    Call::MakeFolder,
    Call::Link,
    Call::Rename,
    Call::Remove,
    Call::Print,
];

/// The system's numbers of errors, by their names.
const ERRORS: [(i32, &str); 10] = [
    (1, "EPERM"),
    (5, "EIO"),
    (12, "ENOMEM"),
    (13, "EACCES"),
    (22, "EINVAL"),
    (28, "ENOSPC"),
    (30, "EROFS"),
    (31, "EMLINK"),
    (38, "ENOSYS"),
    (95, "EOPNOTSUPP"),
];

impl Call {
    pub(crate) fn from_words(words: &str) -> Option<Call> {
        for call in &CALLS {
            if call.words() == words {
                return Some(*call);
            }
        }
        None
    }

    fn words(self) -> &'static str {
        match self {
            Call::Look => "look",
            Call::Open => "open",
            Call::List => "list",
            Call::Create => "create",
            Call::Write => "write",
            Call::SyncFile => "sync file",
            Call::SyncFolder => "sync folder",
            Call::MakeFolder => "make folder",
            Call::Link => "link",
            Call::Rename => "rename",
            Call::Remove => "remove",
            Call::Print => "print",
        }
    }

    /// Whether it is noted also where it does what it is asked for: those are that change something or make it durable.
    fn is_noted(self) -> bool {
        !matches!(self, Call::Look | Call::Open | Call::List)
    }
}

/// The number of the error that has this name.
pub(crate) fn error_number(name: &str) -> Option<i32> {
    for (number, its_name) in &ERRORS {
        if *its_name == name {
            return Some(*number);
        }
    }
    None
}

/// An error that a call is told to answer.
#[derive(Clone, Copy)]
pub(crate) struct Told {
    pub call: Call,
    pub error: i32,
}

/// The calls so far, a line each, and what they are told to answer.
#[derive(Drop)]
pub(crate) struct Watch {
    pub noted: String,
    pub told: Option<Told>,
    /// The names that each list of a folder gives before its own, each ended by a NUL.
    pub listed_before: Vec<u8>,
    /// The path that each look at one sees.
    pub seen: Option<String>,
    /// How many bytes a read brings at most, where every other one is interrupted.
    pub most_read: Option<usize>,
    interrupted: bool,
}

impl Watch {
    pub(crate) fn new(alloc: Global) -> Watch {
        Watch {
            noted: String::new(alloc),
            told: None,
            listed_before: Vec::new(alloc),
            seen: None,
            most_read: None,
            interrupted: false,
        }
    }

    /// Forgets all.
    pub(crate) fn clear(&mut self) {
        self.noted.clear();
        self.told = None;
        self.listed_before.clear();
        self.seen = None;
        self.most_read = None;
        self.interrupted = false;
    }

    // How many bytes a read of so many brings at most. Every other one is interrupted, where they are to be short.
    fn read_length(&mut self, length: usize) -> io::Result<usize>
        ensures { IfOk result (λ most. most ≤ length) }
    {
        let Some(most) = self.most_read else {
            return Ok(length);
        };
        self.interrupted = !self.interrupted;
        if self.interrupted {
            Err(io::Error::from(ErrorKind::Interrupted))
        } else {
            Ok(length.min(most))
        }
    }

    fn note(
        &mut self,
        call: Call,
        path: &str,
        failure: Option<ErrorKind>,
    ) -> Result<(), AllocError> {
        if failure.is_none() && !call.is_noted() {
            return Ok(());
        }
        self.noted.push_str("  ")?;
        self.noted.push_str(call.words())?;
        self.noted.push(' ')?;
        self.noted.push_str(path)?;
        if let Some(kind) = failure {
            self.noted.push_str(": ")?;
            self.noted.push_str(name_of(kind))?;
        }
        self.noted.push('\n')
    }
}

/// The kinds of errors that the rows meet.
fn name_of(kind: ErrorKind) -> &'static str {
    match kind {
        ErrorKind::AlreadyExists => "there is one",
        ErrorKind::NotFound => "there is none",
        ErrorKind::OutOfMemory => "no memory",
        ErrorKind::Unsupported => "not supported",
        ErrorKind::InvalidInput => "invalid",
        ErrorKind::PermissionDenied => "not permitted",
        ErrorKind::StorageFull => "no space",
        ErrorKind::TooManyLinks => "too many links",
        ErrorKind::ReadOnlyFilesystem => "read only",
        ErrorKind::IsADirectory => "a folder",
        ErrorKind::NotADirectory => "no folder",
        _ => "another error",
    }
}

fn in_use<E: Drop>(_: E) -> io::Error {
    io::Error::from(ErrorKind::ResourceBusy)
}

/// The error that the call is told to answer, which is noted, if there is one.
pub(crate) fn before(watch: &RefCell<Watch>, call: Call, path: &str) -> io::Result<()> {
    let mut watch = watch.try_borrow_mut().map_err(in_use)?;
    match watch.told {
        Some(told) if told.call == call => {
            let error = io::Error::from_raw_os_error(told.error);
            watch.note(call, path, Some(error.kind()))?;
            Err(error)
        }
        _ => Ok(()),
    }
}

/// Notes what the call answered, and answers it.
pub(crate) fn after<T: Drop>(
    watch: &RefCell<Watch>,
    call: Call,
    path: &str,
    answer: io::Result<T>,
) -> io::Result<T> {
    let mut watch = watch.try_borrow_mut().map_err(in_use)?;
    let failure = match &answer {
        Ok(_) => None,
        Err(error) => Some(error.kind()),
    };
    watch.note(call, path, failure)?;
    answer
}

/// How many bytes a read of so many brings at most.
pub(crate) fn read_length(watch: &RefCell<Watch>, length: usize) -> io::Result<usize>
    ensures { IfOk result (λ most. most ≤ length) }
{
    let mut watch = watch.try_borrow_mut().map_err(in_use)?;
    watch.read_length(length)
}

/// The path that a look at this one sees.
pub(crate) fn seen_at(watch: &RefCell<Watch>, alloc: Global, path: &str) -> io::Result<String> {
    let watch = watch.try_borrow().map_err(in_use)?;
    match &watch.seen {
        Some(seen) => Ok(seen.to_string(alloc)?),
        None => Ok(path.to_string(alloc)?),
    }
}

/// The names that each list of a folder gives before its own.
pub(crate) fn listed_before(watch: &RefCell<Watch>) -> io::Result<Vec<u8>> {
    let watch = watch.try_borrow().map_err(in_use)?;
    Ok(watch.listed_before.clone()?)
}
