//! What a schema text has defined so far.
ghost use Rattle.std.specs.Prelude.{◌≡◌, ◌++◌, [], ◌∷◌, option_map, OnOk};
ghost use Rattle.lake_basics.specs.Outcome.{Gives};
ghost use Rattle.avro_schema.specs.Tree.{tree_of};
ghost use Rattle.avro_schema.specs.Names.{definition_of};
ghost use Rattle.avro_schema.specs.Reading.{counted as counted_by, is_open as is_open_in, is_new as is_new_in, defined};
ghost use Rattle.avro_schema.specs.State.{state_of, definitions_of};

use crate::error::SchemaFault;
use crate::schema::Schema;
use indexmap::IndexMap;
use lake_basics::{ReadError, Text};
use std::alloc::{AllocError, Global};

/// The names of the types that are being defined, the outermost first, the types that have been
/// defined, and how many more types there may be.
#[derive(Drop)]
pub struct Definitions {
    pub open_names: Vec<Text>,
    pub types: IndexMap<Text, Schema>,
    pub budget: u32,
}

impl Definitions {
    ghost use Rattle.avro_schema.specs.Reading.{start};
    ghost use Rattle.avro_schema.specs.State.{state_of as state_in};

    /// Where the reading of a schema begins: no name, and room for 262,144 types.
    pub fn new(alloc: Global) -> Definitions
        ensures { state_in result ≡ start }
    {
        Definitions {
            open_names: Vec::new(alloc),
            types: IndexMap::new(alloc),
            budget: 262_144,
        }
    }
}

/// Counts a type.
pub fn counted(names: &mut Definitions) -> Result<(), ReadError<SchemaFault>>
    ensures { Gives (λ _. state_of names.new) result (counted_by (state_of names.old)) }
{
    if names.budget == 0 {
        return Err(ReadError::Fault(SchemaFault::BadSchema));
    }
    names.budget -= 1;
    Ok(())
}

/// Whether the name is one of a type that is being defined.
pub fn is_open(names: &Definitions, name: &Text) -> bool
    ensures { result ≡ is_open_in name.now (state_of names.now) }
{
    for open_name in &names.open_names {
        if *name == *open_name {
            return true;
        }
    }
    false
}

/// The type that has this full name.
#[tactic(auto, using(crate::proofs::Lookups::definition_of_lookup))]
pub fn definition<'a>(names: &'a Definitions, name: &Text) -> Option<&'a Schema>
    ensures { option_map (λ s. tree_of s.now) result
        ≡ definition_of name.now (definitions_of names.now.types.entries) }
{
    names.types.get(name)
}

/// Whether the name has no type yet.
pub fn is_new(names: &Definitions, name: &Text) -> bool
    ensures { result ≡ is_new_in name.now (state_of names.now) }
{
    !is_open(names, name) && definition(names, name).is_none()
}

/// Says that the type of this name is being defined, inside those that are.
pub fn open_name(alloc: Global, names: &mut Definitions, name: &Text) -> Result<(), AllocError>
    ensures { OnOk result (state_of names.new
        ≡ record (state_of names.old) { open_names = names.old.open_names.items ++ name.now ∷ [] }) }
{
    names.open_names.push(name.copy(alloc)?)?;
    Ok(())
}

/// Keeps a type under its name.
#[tactic(auto, using(crate::proofs::Lookups::definitions_of_insert_entry))]
pub fn define(
    alloc: Global,
    names: &mut Definitions,
    name: &Text,
    schema: &Schema,
) -> Result<(), AllocError>
    ensures { OnOk result (state_of names.new
        ≡ (defined name.now (tree_of schema.now) (state_of names.old)).1) }
{
    let name = name.copy(alloc)?;
    let schema = schema.copy(alloc)?;
    names.types.insert(name, schema)?;
    Ok(())
}
