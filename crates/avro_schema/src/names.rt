//! Names of types, by the Avro specification, "Names".
ghost use Rattle.std.specs.Prelude.{◌≡◌, IfOk, IsTrue, option_map};
ghost use Rattle.avro_schema.specs.Names.{has_dot as has_dot_in, full_name as full_name_in, namespace_of as namespace_in, primitive_of, is_name as is_name_of};
ghost use Rattle.avro_schema.specs.Tree.{shape_of};

use crate::schema::Shape;
use lake_basics::Text;
use std::alloc::{AllocError, Global};

/// Whether the name is a full one.
pub fn has_dot(name: &str) -> bool
    ensures { result ≡ has_dot_in name.now }
{
    name.as_bytes().iter().any(|byte| *byte == b'.')
}

/// The full name of a name in a namespace, of which the empty one is none.
pub fn full_name(alloc: Global, space: &str, name: &str) -> Result<Text, AllocError>
    ensures { IfOk result (λ t. t ≡ full_name_in space.now name.now) }
{
    if has_dot(name) || space.is_empty() {
        return Text::from_str(alloc, name);
    }
    let mut full = String::from_str(alloc, space)?;
    full.push_str(".")?;
    full.push_str(name)?;
    Ok(Text::from_string(full))
}

/// The part of a full name before its last dot.
pub fn namespace_of(name: &str) -> &str
    ensures { result.now ≡ namespace_in name.now }
{
    match name.rfind('.') {
        Some(end) => &name[..end],
        None => "",
    }
}

/// The primitive type of that word.
pub fn primitive(word: &str) -> Option<Shape>
    ensures { option_map (λ s. shape_of s) result ≡ primitive_of word.now }
{
    match word {
        "null" => Some(Shape::Null),
        "boolean" => Some(Shape::Boolean),
        "int" => Some(Shape::Int),
        "long" => Some(Shape::Long),
        "float" => Some(Shape::Float),
        "double" => Some(Shape::Double),
        "bytes" => Some(Shape::Bytes),
        "string" => Some(Shape::Text),
        _ => None,
    }
}

/// Whether a type may have this name.
pub fn is_name(name: &str) -> bool
    ensures { result ≡ is_name_of name.now }
{
    !name.is_empty() && primitive(name).is_none()
}
