//! Which words are types of the table of types.

ghost use Rattle.std.specs.Prelude.{◌≡◌, IfOk};
ghost use Rattle.serde_json.specs.View.{view};
ghost use Rattle.delta_outline.specs.Forms.{one_column, is_known_word};

use json_reading::json_text;
use schema_delta::from_delta;
use schema_map::MapError;
use serde_json::{Value, json};
use std::alloc::{AllocError, Global};

/// The JSON of a schema with one column of the type of this word.
fn one_column(alloc: Global, word: &str) -> Result<Value, AllocError>
    ensures { IfOk result (λ v. view v ≡ one_column word.now) }
{
    json!(in alloc; {
        "fields": [{"name": "a", "nullable": true, "type": word}],
        "type": "struct",
    })
}

/// Whether that schema can be read.
pub(crate) fn is_known_word(alloc: Global, word: &str) -> Result<bool, AllocError>
    ensures { IfOk result (λ known. known ≡ is_known_word word.now) }
{
    let schema = one_column(alloc, word)?;
    let text = json_text(alloc, &schema)?;
    match from_delta(alloc, text.as_bytes()) {
        Ok(_) => Ok(true),
        Err(MapError::Memory) => Err(AllocError),
        Err(_) => Ok(false),
    }
}
