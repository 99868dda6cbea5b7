//! The lines of a batch.
ghost use Rattle.std.specs.Prelude.{◌≡◌, IfOk};
ghost use Rattle.lake_batch.specs.Tables.{batch_line, table_line};
ghost use Rattle.lake_batch.specs.Whole.{why_line, why_word};

use crate::batch::Why;
use lake_store::Text;
use std::alloc::{AllocError, Global};
use table_lines::line_of_text;

/// The line before a table's own.
pub(crate) fn table_line(alloc: Global, folder: &Text) -> Result<Vec<u8>, AllocError>
    ensures { IfOk result (λ bytes. bytes.items ≡ table_line folder.now) }
{
    let folder = folder.as_str();
    let text = format!(in alloc; "table {folder}")?;
    line_of_text(alloc, text.as_str())
}

/// The last line: how many tables there are, and how many of them are done.
pub(crate) fn batch_line(alloc: Global, tables: usize, done: usize) -> Result<Vec<u8>, AllocError>
    ensures { IfOk result (λ bytes. bytes.items ≡ batch_line tables done) }
{
    let text = format!(in alloc; "batch: tables {tables}, done {done}")?;
    line_of_text(alloc, text.as_str())
}

fn word_of(why: Why) -> &'static str
    ensures { result.now ≡ why_word why }
{
    match why {
        Why::Missing => "Missing",
        Why::Long => "Long",
        Why::Syntax => "Syntax",
        Why::Shape => "Shape",
        Why::Many => "Many",
        Why::Folder => "Folder",
        Why::Overlap => "Overlap",
    }
}

/// The line of a file that is no batch.
pub(crate) fn why_line(alloc: Global, why: Why) -> Result<Vec<u8>, AllocError>
    ensures { IfOk result (λ bytes. bytes.items ≡ why_line why) }
{
    let why = word_of(why);
    let text = format!(in alloc; "status 15: BatchFile {why}")?;
    line_of_text(alloc, text.as_str())
}
