//! The steps of a script.
use crate::disk::{Pipe, make_empty, make_file, make_link, make_name, make_pipe, show_at, show_in};
use crate::locks::{Run, begin_run, end_run};
use crate::shown::{show_failure, show_no_step};
use crate::system::{put_out, show_clock, show_clock_at, show_held, show_system_clock};
use crate::watch::{Call, Told, Watch, error_number};
use crate::watched::Watched;
use lake_system::{Access, FolderStore};
use rows::{Step, Steps, bytes_of_hex, first_of};
use std::alloc::{AllocError, Global};
use std::cell::RefCell;
use std::{fs, io};

/// What a row has made so far.
#[derive(Drop)]
pub(crate) struct FolderSteps<'a> {
    rt: &'a HostRuntime,
    watch: &'a RefCell<Watch>,
    pub store: FolderStore<Watched<'a>>,
    runs: Vec<Run>,
    pipes: Vec<Pipe>,
}

fn store_over<'a>(
    watched: Watched<'a>,
    folder: &str,
    access: Access,
) -> Result<FolderStore<Watched<'a>>, AllocError> {
    let alloc = watched.rt.alloc();
    let folder = folder.to_string(alloc)?;
    Ok(FolderStore::new(watched, alloc, folder, access))
}

impl<'a> FolderSteps<'a> {
    pub(crate) fn new(
        rt: &'a HostRuntime,
        watch: &'a RefCell<Watch>,
    ) -> Result<FolderSteps<'a>, AllocError> {
        let watched = Watched { rt, watch };
        Ok(FolderSteps {
            rt,
            watch,
            store: store_over(watched, "row/t", Access::Reads)?,
            runs: Vec::new(rt.alloc()),
            pipes: Vec::new(rt.alloc()),
        })
    }

    pub(crate) fn alloc(&self) -> Global {
        self.rt.alloc()
    }

    fn watched(&self) -> Watched<'a> {
        Watched {
            rt: self.rt,
            watch: self.watch,
        }
    }

    /// Shows the calls that were noted, and forgets them.
    pub(crate) fn show_noted(&self, shown: &mut String) -> Result<(), AllocError> {
        if let Ok(mut watch) = self.watch.try_borrow_mut() {
            shown.push_str(watch.noted.as_str())?;
            watch.noted.clear();
        }
        Ok(())
    }

    fn tell(&self, told: Option<Told>) {
        if let Ok(mut watch) = self.watch.try_borrow_mut() {
            watch.told = told;
        }
    }

    fn begin_lists_with(&self, names: Vec<u8>) {
        if let Ok(mut watch) = self.watch.try_borrow_mut() {
            watch.listed_before = names;
        }
    }

    /// Does a step on what the calls are told, or on the store.
    fn on_calls(&mut self, step: &Step<'_>, shown: &mut String) -> Result<(), AllocError> {
        if let Some((call, error)) = step.words().split_once(" answers ") {
            return self.begin_error(call, error, shown);
        }
        match step.words().strip_suffix(" works") {
            Some(call) => self.end_error(call, shown),
            None => self.on_store(step, shown),
        }
    }

    fn begin_error(&self, call: &str, error: &str, shown: &mut String) -> Result<(), AllocError> {
        let (Some(call), Some(error)) = (Call::from_words(call), error_number(error)) else {
            return show_no_step(shown);
        };
        self.tell(Some(Told { call, error }));
        Ok(())
    }

    fn end_error(&self, call: &str, shown: &mut String) -> Result<(), AllocError> {
        self.tell(None);
        match Call::from_words(call) {
            Some(_) => Ok(()),
            None => show_no_step(shown),
        }
    }

    /// Does a step on the disk, or on the system.
    pub(crate) fn on_disk(
        &mut self,
        step: &Step<'_>,
        shown: &mut String,
    ) -> Result<(), AllocError> {
        let rt = self.rt;
        let (verb, rest) = first_of(step.words());
        match verb {
            "folder" => show_failure(rt.alloc(), fs::create_dir_all(rt, rest), shown),
            "file" => show_failure(rt.alloc(), make_file(rt, rest, step), shown),
            "link" => show_failure(rt.alloc(), make_link(rt, rest), shown),
            "name" => show_failure(rt.alloc(), make_name(rt, rest), shown),
            "pipe" => show_failure(rt.alloc(), self.add_pipe(rest), shown),
            "at" => show_failure(rt.alloc(), show_at(rt, rest, shown), shown),
            "in" => show_failure(rt.alloc(), show_in(rt, rest, shown), shown),
            _ => self.on_system(verb, rest, shown),
        }
    }

    fn add_pipe(&mut self, path: &str) -> io::Result<()> {
        let pipe = make_pipe(self.rt, path)?;
        self.pipes.push(pipe)?;
        Ok(())
    }

    fn on_system(&mut self, verb: &str, rest: &str, shown: &mut String) -> Result<(), AllocError> {
        match verb {
            "reading" => self.change_store(rest, Access::Reads),
            "writing" => self.change_store(rest, Access::Writes),
            "lists" => self.on_lists(rest, shown),
            "looks" => self.on_looks(rest, shown),
            "reads" => self.on_reads(rest, shown),
            "held" => show_held(self.alloc(), shown),
            "put" => self.put(rest, shown),
            "run" => self.on_run(rest, shown),
            "clock" => self.on_clock(rest, shown),
            _ => show_no_step(shown),
        }
    }

    fn change_store(&mut self, folder: &str, access: Access) -> Result<(), AllocError> {
        self.store = store_over(self.watched(), folder, access)?;
        Ok(())
    }

    fn on_lists(&mut self, words: &str, shown: &mut String) -> Result<(), AllocError> {
        let Some(hex) = words.strip_prefix("begin with ") else {
            return show_no_step(shown);
        };
        match bytes_of_hex(self.alloc(), hex)? {
            Some(names) => {
                self.begin_lists_with(names);
                Ok(())
            }
            None => show_no_step(shown),
        }
    }

    fn on_looks(&mut self, words: &str, shown: &mut String) -> Result<(), AllocError> {
        let Some(path) = words.strip_prefix("see ") else {
            return show_no_step(shown);
        };
        let path = path.to_string(self.alloc())?;
        if let Ok(mut watch) = self.watch.try_borrow_mut() {
            watch.seen = Some(path);
        }
        Ok(())
    }

    fn on_reads(&mut self, words: &str, shown: &mut String) -> Result<(), AllocError> {
        let Some(most) = count_of(words) else {
            return show_no_step(shown);
        };
        if let Ok(mut watch) = self.watch.try_borrow_mut() {
            watch.most_read = Some(most);
        }
        Ok(())
    }

    fn put(&mut self, text: &str, shown: &mut String) -> Result<(), AllocError> {
        let answer = put_out(self.watched(), text);
        self.show_noted(shown)?;
        shown.push_str(answer)
    }

    fn on_run(&mut self, words: &str, shown: &mut String) -> Result<(), AllocError> {
        let (name, does) = first_of(words);
        let (verb, folder) = first_of(does);
        let rt = self.rt;
        match verb {
            "reads" => begin_run(rt, &mut self.runs, name, folder, Access::Reads, shown),
            "writes" => begin_run(rt, &mut self.runs, name, folder, Access::Writes, shown),
            "ends" => {
                end_run(&mut self.runs, name);
                Ok(())
            }
            _ => show_no_step(shown),
        }
    }

    fn on_clock(&mut self, words: &str, shown: &mut String) -> Result<(), AllocError> {
        match words {
            "of the system" => show_system_clock(self.rt, shown),
            "that fails" => show_clock(self.alloc(), None, shown),
            _ => show_clock_at(self.alloc(), words, shown),
        }
    }
}

/// How many bytes a read is to bring at most.
fn count_of(words: &str) -> Option<usize> {
    let count = words.strip_prefix("bring ")?.strip_suffix(" bytes")?;
    count.parse::<usize>().ok()
}

impl<'a> Steps for FolderSteps<'a> {
    fn begin(&mut self) -> Result<(), AllocError> {
        self.runs.clear();
        self.pipes.clear();
        if let Ok(mut watch) = self.watch.try_borrow_mut() {
            watch.clear();
        }
        self.change_store("row/t", Access::Reads)?;
        make_empty(self.rt, "row").map_err(|_| AllocError)
    }

    fn step(&mut self, step: &Step<'_>, shown: &mut String) -> Result<(), AllocError> {
        self.on_calls(step, shown)
    }
}
