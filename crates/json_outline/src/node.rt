//! A JSON value over its text.

ghost use Rattle.std.specs.Prelude.{◌≡◌, true, option_map, option_and_then, is_some};
ghost use Rattle.std.specs.Str.{bytes_eq};
ghost use Rattle.serde_json.specs.Find.{get, get_member, as_str, as_bool, as_number, as_i64, as_array, as_object};
ghost use Rattle.json_outline.specs.View.{view, items_view, members_view};

use crate::number::Number;

/// A JSON value (RFC 8259), whose names and texts are borrowed. The members of an object stand as in
/// the text. Of two with one name the later counts.
#[derive(Drop)]
pub enum Node<'t> {
    Null,
    Bool(bool),
    Number(Number),
    Text(&'t str),
    Array(Vec<Node<'t>>),
    Object(Vec<(&'t str, Node<'t>)>),
}

/// The members of an object, as they stand in the text.
pub type Members<'t> = Vec<(&'t str, Node<'t>)>;

impl<'t> Node<'t> {
    /// The member of that name, where the value is an object that has one.
    pub fn get(&self, name: &str) -> Option<&Node<'t>>
        ensures { option_map (λ v. view v.now) result ≡ get name.now (view self.now) }
    {
        last_named(self.as_object()?, name)
    }

    /// The text, where the value is one.
    pub fn as_str(&self) -> Option<&'t str>
        ensures { option_map (λ s. s.now) result ≡ as_str (view self.now) }
    {
        if let Node::Text(text) = self {
            Some(*text)
        } else {
            None
        }
    }

    /// The boolean, where the value is one.
    pub fn as_bool(&self) -> Option<bool>
        ensures { result ≡ as_bool (view self.now) }
    {
        if let Node::Bool(is) = self {
            Some(*is)
        } else {
            None
        }
    }

    /// The number, where the value is a whole number of 64 bits with a sign.
    pub fn as_i64(&self) -> Option<i64>
        ensures { result ≡ option_and_then as_i64 (as_number (view self.now)) }
    {
        if let Node::Number(number) = self {
            number.as_i64()
        } else {
            None
        }
    }

    /// The items, where the value is an array.
    pub fn as_array(&self) -> Option<&Vec<Node<'t>>>
        ensures { option_map (λ v. items_view v.now.items) result ≡ as_array (view self.now) }
    {
        if let Node::Array(items) = self {
            Some(items)
        } else {
            None
        }
    }

    /// The members, where the value is an object.
    pub fn as_object(&self) -> Option<&Members<'t>>
        ensures { option_map (λ m. members_view m.now.items) result ≡ as_object (view self.now) }
    {
        if let Node::Object(members) = self {
            Some(members)
        } else {
            None
        }
    }

    /// Whether the value is an object.
    pub fn is_object(&self) -> bool
        ensures { result ≡ is_some (as_object (view self.now)) }
    {
        self.as_object().is_some()
    }
}

/// Whether the two are alike in their length and their first byte.
fn begin_alike(found: &[u8], name: &[u8]) -> bool
    ensures { found.now ≡ name.now → result ≡ true }
{
    found.len() == name.len() && (found.is_empty() || found[0] == name[0])
}

/// Whether the two are one name. Most names that differ don't begin alike.
fn is_name(found: &str, name: &str) -> bool
    ensures { result ≡ bytes_eq found.now name.now }
{
    begin_alike(found.as_bytes(), name.as_bytes()) && found == name
}

/// The last member of that name.
fn last_named<'n, 't>(members: &'n Members<'t>, name: &str) -> Option<&'n Node<'t>>
    ensures { option_map (λ v. view v.now) result ≡ get_member name.now (members_view members.now.items) }
{
    let mut left = members.len();
    'members: while left > 0 {
        left -= 1;
        let member = &members[left];
        if is_name(member.0, name) {
            return Some(&member.1);
        }
    }
    None
}
