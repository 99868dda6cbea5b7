//! The rows and steps of a script.
use std::alloc::{AllocError, Global};

/// A step of a row: its words, and the lines below it.
#[derive(Drop)]
pub struct Step<'a> {
    words: &'a str,
    each_word: Vec<&'a str>,
    lines: Vec<&'a str>,
}

impl<'a> Step<'a> {
    /// A step with no lines.
    fn new(alloc: Global, words: &'a str) -> Result<Step<'a>, AllocError> {
        Ok(Step {
            words,
            each_word: words.split(' ').collect(alloc)?,
            lines: Vec::new(alloc),
        })
    }

    /// The words that say what the step does.
    pub fn words(&self) -> &'a str {
        self.words
    }

    /// The words one by one.
    pub fn each_word(&self) -> &[&'a str] {
        self.each_word.as_slice()
    }

    /// The word at a place, which is empty where there is none.
    pub fn word_at(&self, place: usize) -> &'a str {
        match self.each_word.get(place) {
            Some(word) => *word,
            None => "",
        }
    }

    /// The words from a place on.
    pub fn words_from(&self, place: usize) -> &[&'a str] {
        let words = self.each_word.as_slice();
        if place < words.len() {
            &words[place..]
        } else {
            &[]
        }
    }

    /// The lines below the words, where those of named texts stand in place of their names.
    pub fn lines(&self) -> &[&'a str] {
        self.lines.as_slice()
    }

    /// The lines as a text, each ended by a newline.
    pub fn text(&self, alloc: Global) -> Result<String, AllocError> {
        let mut text = String::new(alloc);
        for line in self.lines.iter() {
            text.push_str(line)?;
            text.push('\n')?;
        }
        Ok(text)
    }
}

/// A text of lines without its last newline.
pub fn unended(text: &str) -> &str {
    text.strip_suffix('\n').unwrap_or(text)
}

/// What a line of a script is.
enum Line<'a> {
    Nothing,
    Heading(&'a str),
    Words(&'a str),
    Below(&'a str),
}

fn line_of(line: &str) -> Line<'_> {
    if line.is_empty() || line == "--" || line.starts_with("-- ") {
        return Line::Nothing;
    }
    if line == "|" {
        return Line::Below("");
    }
    if let Some(below) = line.strip_prefix("| ") {
        return Line::Below(below);
    }
    match line.strip_prefix("# ") {
        Some(heading) => Line::Heading(heading),
        None => Line::Words(line),
    }
}

/// A part of a script.
#[derive(Drop)]
pub enum Part<'a> {
    Heading(&'a str),
    Step(Step<'a>),
}

/// A text of a script that has a name.
#[derive(Drop)]
struct Named<'a> {
    name: &'a str,
    lines: Vec<&'a str>,
}

/// A script as far as it has been read.
#[derive(Drop)]
struct Reading<'a> {
    parts: Vec<Part<'a>>,
    texts: Vec<Named<'a>>,
    /// The step whose lines are being read.
    step: Option<Step<'a>>,
}

impl<'a> Reading<'a> {
    fn read(&mut self, alloc: Global, line: &'a str) -> Result<(), AllocError> {
        match line_of(line) {
            Line::Nothing => Ok(()),
            Line::Below(below) => self.add_line(alloc, below),
            Line::Heading(heading) => {
                self.end_step()?;
                self.parts.push(Part::Heading(heading))?;
                Ok(())
            }
            Line::Words(words) => {
                self.end_step()?;
                self.step = Some(Step::new(alloc, words)?);
                Ok(())
            }
        }
    }

    /// Adds a line to the step that is being read. One that stands below no step is a step that does nothing.
    fn add_line(&mut self, alloc: Global, line: &'a str) -> Result<(), AllocError> {
        let Some(step) = &mut self.step else {
            self.parts.push(Part::Step(Step::new(alloc, line)?))?;
            return Ok(());
        };
        match lines_named(&self.texts, line) {
            Some(lines) => step.lines.extend_from_slice(lines),
            None => {
                step.lines.push(line)?;
                Ok(())
            }
        }
    }

    /// Ends the step that is being read: a named text is kept for the steps behind it.
    fn end_step(&mut self) -> Result<(), AllocError> {
        let Some(step) = self.step.take() else {
            return Ok(());
        };
        match step.words.strip_prefix("text ") {
            Some(name) => {
                let lines = step.lines;
                self.texts.push(Named { name, lines })?;
            }
            None => self.parts.push(Part::Step(step))?,
        }
        Ok(())
    }
}

/// The lines that a line `@NAME` stands for: those of the last text of that name.
fn lines_named<'t, 'a>(texts: &'t [Named<'a>], line: &str) -> Option<&'t [&'a str]> {
    let name = line.strip_prefix('@')?;
    let text = texts.iter().rev().find(|text| text.name == name)?;
    Some(text.lines.as_slice())
}

/// The headings and steps of a script, in order.
pub fn parts_of(alloc: Global, script: &str) -> Result<Vec<Part<'_>>, AllocError> {
    let mut reading = Reading {
        parts: Vec::new(alloc),
        texts: Vec::new(alloc),
        step: None,
    };
    for line in script.lines() {
        reading.read(alloc, line)?;
    }
    reading.end_step()?;
    Ok(reading.parts)
}
