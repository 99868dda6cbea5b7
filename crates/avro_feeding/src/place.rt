//! What has been read of a container, and how a call leaves it.

ghost use Rattle.std.specs.Prelude.{◌≡◌, None, Some};
ghost use Rattle.avro_schema.specs.Tree.{tree_of};
ghost use Rattle.avro_container.specs.declared.error.ContainerError.TheVariants.{Memory};
ghost use Rattle.avro_feeding.specs.Calls.{option_tree};
ghost use Rattle.avro_feeding.specs.Views.{summed, without_memory};

use crate::blocks::BlocksSoFar;
use crate::header::HeaderSoFar;
use avro_container::ContainerError;
use avro_value::{Schema, Value};

/// The bytes so far don't end the header, or they do.
#[derive(Drop)]
pub(crate) enum Place {
    Header(HeaderSoFar),
    Blocks(BlocksSoFar),
}

/// Why reading ended, and the schema, where the header was whole and named one.
#[derive(Drop)]
pub(crate) struct Refused {
    pub(crate) error: ContainerError,
    pub(crate) schema: Option<Schema>,
}

/// What has been read, and the values of the blocks that became whole, where there is one.
#[derive(Drop)]
pub(crate) struct Fed {
    pub(crate) state: Result<Place, Refused>,
    pub(crate) found: Option<Vec<Value>>,
}

/// Memory ran out, maybe behind the header of this schema.
pub(crate) fn out_of_memory(schema: Option<Schema>) -> Fed
    ensures { summed result ≡ without_memory (option_tree schema) }
{
    Fed {
        state: Err(Refused {
            error: ContainerError::Memory,
            schema,
        }),
        found: None,
    }
}
