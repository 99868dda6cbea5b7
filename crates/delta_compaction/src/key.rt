//! What the lines of commits are about.

use lake_basics::Text;

/// What a line of a commit is about (Delta protocol, "Action Reconciliation"). Of the lines that are
/// about the same the newest counts.
#[derive(Drop, PartialEq, Eq, PartialOrd, Ord)]
pub enum LineKey {
    /// The protocol.
    Protocol,
    /// The table's metadata.
    MetaData,
    /// The transaction of the application of this id.
    Transaction(Text),
    /// The metadata of this domain.
    Domain(Text),
    /// The file of this path, without escapes.
    File(Text),
}
