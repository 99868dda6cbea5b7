//! Schemas as JSON texts.
ghost use Rattle.std.specs.Prelude.{◌≡◌, ◌≤◌, IfOk, IfErr, Ok, Some, false};
ghost use Rattle.serde_json.specs.Data.{depth};
ghost use Rattle.serde_json.specs.Read.{max_depth};
ghost use Rattle.serde_json.specs.Written.{compact_text, has_float};
ghost use Rattle.json_reading.specs.Json.{json};
ghost use Rattle.serde_json.specs.View.{view};
ghost use Rattle.lake_basics.specs.Outcome.{Gives, GivesUnlessMemory};
ghost use Rattle.avro_schema.specs.Tree.{SchemaTree, tree_of};
ghost use Rattle.avro_schema.specs.Reading.{tree_at, schema_of, text_tree, is_memory};
ghost use Rattle.avro_schema.specs.Writing.{json_of};
ghost use Rattle.avro_schema.specs.Grammar.{IsSchemaText};
ghost use Rattle.avro_schema.specs.Refusals.{IsRefused};
ghost use Rattle.avro_schema.specs.Spelled.{IsSpelled};
ghost use Rattle.avro_schema.specs.Plain.{IsPlain};

use crate::definitions::Definitions;
use crate::error::{SchemaError, SchemaFault};
use crate::schema::Schema;
use crate::types::any_type;
use crate::write::schema_value;
use indexmap::IndexSet;
use json_reading::read_json;
use lake_basics::{Blob, ReadError};
use serde_json::Value;
use std::alloc::{AllocError, Global};

impl Schema {
    /// The schema that a JSON text is (Avro specification, "Schema Declaration"), with the field ids
    /// of Apache Iceberg.
    pub fn from_json(alloc: Global, bytes: &[u8]) -> Result<Schema, SchemaError>
        ensures exact { GivesUnlessMemory is_memory tree_of result (schema_of bytes.now) }
        // What is read is a schema of the text, and a text of a schema is read as it.
        ensures found { IfOk result (λ s. IsSchemaText bytes.now (tree_of s)) }
        ensures reads { (t : SchemaTree) → IsSchemaText bytes.now t → schema_of bytes.now ≡ Ok t }
        // A text can spell what was read again.
        ensures spelled { IfOk result (λ s. IsSpelled (tree_of s)) }
        // A refusal names a fault that the text has.
        ensures refused { IfErr result (λ e. IsRefused bytes.now e) }
    {
        match read_schema(alloc, bytes) {
            Ok(schema) => Ok(schema),
            Err(ReadError::Memory) => Err(SchemaError::Memory),
            Err(ReadError::Fault(SchemaFault::BadSchema)) => Err(SchemaError::BadSchema),
            Err(ReadError::Fault(SchemaFault::Recursive)) => Err(SchemaError::Recursive),
        }
    }

    /// A compact JSON text of the schema. A named type is written once, and by its name where it
    /// stands again. The only error is want of memory.
    pub fn to_json(&self, alloc: Global) -> Result<Blob, SchemaError>
        ensures text { IfOk result (λ b. b ≡ compact_text (json_of (tree_of self.now))) }
        ensures reads_back { IfOk result (λ b. IsSpelled (tree_of self.now)
            → schema_of b ≡ Ok (tree_of self.now)) }
        // A text can spell each schema that gives no name twice and keeps to the grammar.
        ensures plain { IsPlain (tree_of self.now) → IsSpelled (tree_of self.now) }
        ensures memory { IfErr result (λ e. e ≡ SchemaError.Memory) }
    {
        let mut names = IndexSet::new(alloc);
        let value = schema_value(alloc, self, "", &mut names)?;
        Ok(text_of_json(alloc, &value)?)
    }
}

fn text_of_json(alloc: Global, value: &Value) -> Result<Blob, AllocError>
    ensures text { IfOk result (λ b. has_float (view value.now) ≡ false
        → b ≡ compact_text (view value.now)) }
    ensures reads_back { IfOk result (λ b. depth (view value.now) ≤ max_depth
        → json b ≡ Some (view value.now)) }
{
    let text = value.to_string(alloc)?;
    Ok(Blob::from_vec(text.into_bytes()))
}

fn read_schema(alloc: Global, bytes: &[u8]) -> Result<Schema, ReadError<SchemaFault>>
    ensures { Gives tree_of result (text_tree bytes.now) }
{
    let value = read_json(alloc, bytes, SchemaFault::BadSchema)?;
    whole_schema(alloc, &value)
}

#[tactic(auto, unfolding(crate::specs::Reading::tree_at))]
fn whole_schema(alloc: Global, value: &Value) -> Result<Schema, ReadError<SchemaFault>>
    ensures { Gives tree_of result (tree_at (view value.now)) }
{
    let mut names = Definitions::new(alloc);
    any_type(alloc, 64, "", value, &mut names)
}
