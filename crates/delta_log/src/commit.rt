//! What a commit of a Delta log says (Delta protocol, "Actions").

ghost use Rattle.std.specs.Prelude.{◌≡◌};
ghost use Rattle.delta_log.specs.Commit.{file_path};

use lake_basics::{Items, Text};

/// The least versions of the protocol that a reader and a writer must follow, and the features that
/// they must know, where lists of these are there.
#[derive(Drop)]
pub struct Protocol {
    pub reader: i64,
    pub writer: i64,
    pub reader_features: Option<Items<Text>>,
    pub writer_features: Option<Items<Text>>,
}

/// The table's id, the text of its schema, its partition columns in their order, and its settings.
#[derive(Drop)]
pub struct MetaData {
    pub id: Text,
    pub schema: Text,
    pub partition: Items<Text>,
    pub configuration: Items<(Text, Text)>,
}

/// A file that comes to the table or leaves it. Its path is unescaped, its size is in bytes, and its
/// count is that of its records.
#[derive(Drop)]
pub enum FileAction {
    Add {
        path: Text,
        values: Items<(Text, Option<Text>)>,
        size: u64,
        count: u64,
    },
    Remove {
        path: Text,
    },
}

/// What one commit says, with its file actions in their order.
#[derive(Drop)]
pub struct DeltaCommit {
    pub protocol: Option<Protocol>,
    pub meta: Option<MetaData>,
    pub files: Items<FileAction>,
}

impl FileAction {
    /// The path of the file in the table's folder.
    pub fn path(&self) -> &Text
        ensures { result.now ≡ file_path self.now }
    {
        match self {
            FileAction::Add { path, .. } | FileAction::Remove { path } => path,
        }
    }
}
