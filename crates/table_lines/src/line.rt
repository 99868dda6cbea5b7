//! A text as a line.

ghost use Rattle.std.specs.Prelude.{◌≡◌, IfOk};
ghost use Rattle.table_lines.specs.Lines.{printed, line};

use std::alloc::{AllocError, Global};

fn printed(byte: u8) -> u8
    ensures { result ≡ printed byte }
{
    if byte < 32 { b'?' } else { byte }
}

/// The text as a line, with its newline. A byte under 32 is printed as `?`.
pub fn line_of_text(alloc: Global, text: &str) -> Result<Vec<u8>, AllocError>
    ensures { IfOk result (λ bytes. bytes.items ≡ line text.now) }
{
    let mut out = Vec::with_capacity(alloc, text.len().saturating_add(1))?;
    for byte in text.as_bytes() {
        out.push(printed(*byte))?;
    }
    out.push(b'\n')?;
    Ok(out)
}
