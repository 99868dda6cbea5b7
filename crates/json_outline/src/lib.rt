//! JSON values (RFC 8259) that borrow the text that they were read from: looked into, never changed.
#![tactic(auto)]

mod member;
mod node;
mod number;
mod reading;
mod sorted;
mod texts;

pub use member::{
    bool_of, count_in, count_of, int_in, int_of, list_of, object_of, present_of, text_of, whole_in,
    whole_of,
};
pub use node::{Members, Node};
pub use number::Number;
pub use reading::read_json;
pub use sorted::{SortedMembers, sorted_members};
pub use texts::{text_from, texts_from};
