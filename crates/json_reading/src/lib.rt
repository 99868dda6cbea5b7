//! JSON values (RFC 8259) as the table formats read and write them: members by their kind, whole
//! numbers alone, lists of texts, objects from pairs, and compact text.
#![tactic(auto)]

mod member;
mod reading;
mod writing;

pub use member::{
    bool_of, count_in, count_of, int_in, int_of, list_of, object_of, present_of, text_of, whole_in,
    whole_of,
};
pub use reading::{read_json, read_json_text, text_from, text_member, texts_from};
pub use writing::{
    json_text, nullable_texts_object, text_or_null, text_value, texts_array, texts_object,
    with_member, with_text,
};
