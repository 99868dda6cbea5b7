//! What the protocol and the settings of a commit show.

ghost use Rattle.std.specs.Prelude.{◌≡◌};
ghost use Rattle.std.specs.List.{list_any};
ghost use Rattle.delta_change.specs.ChangeSteps.{first_feature, is_reader, has_other_reader, lists_unknown, needs_other_feature, is_known, is_unknown, is_mapping, maps_columns};

use delta_log::{DeltaCommit, MetaData, Protocol};
use lake_basics::{Items, Text};
use table_history::Feature;

/// The first feature that the protocol or the settings show.
pub(crate) fn first_feature(commit: &DeltaCommit) -> Option<Feature>
    ensures { result ≡ first_feature commit.now }
{
    if has_other_reader(&commit.protocol) {
        Some(Feature::ReaderVersion)
    } else if needs_other_feature(&commit.protocol) {
        Some(Feature::ReaderFeature)
    } else if maps_columns(&commit.meta) {
        Some(Feature::ColumnMapping)
    } else {
        None
    }
}

fn is_reader(version: i64) -> bool
    ensures { result ≡ is_reader version }
{
    version == 1 || version == 2 || version == 3
}

fn has_other_reader(protocol: &Option<Protocol>) -> bool
    ensures { result ≡ has_other_reader protocol.now }
{
    match protocol {
        None => false,
        Some(protocol) => !is_reader(protocol.reader),
    }
}

fn needs_other_feature(protocol: &Option<Protocol>) -> bool
    ensures { result ≡ needs_other_feature protocol.now }
{
    match protocol {
        None => false,
        Some(protocol) => protocol.reader == 3 && lists_unknown(&protocol.reader_features),
    }
}

fn lists_unknown(features: &Option<Items<Text>>) -> bool
    ensures { result ≡ lists_unknown features.now }
{
    match features {
        None => false,
        Some(names) => has_unknown(names.as_slice()),
    }
}

fn has_unknown(names: &[Text]) -> bool
    ensures { result ≡ list_any is_unknown names.now }
{
    names.iter().any(|name| !is_known(name.as_str()))
}

fn is_known(name: &str) -> bool
    ensures { result ≡ is_known name.now }
{
    name == "columnMapping"
        || name == "deletionVectors"
        || name == "timestampNtz"
        || name == "v2Checkpoint"
        || name == "vacuumProtocolCheck"
}

fn maps_columns(meta: &Option<MetaData>) -> bool
    ensures { result ≡ maps_columns meta.now }
{
    match meta {
        None => false,
        Some(meta) => has_mapping(meta.configuration.as_slice()),
    }
}

fn has_mapping(settings: &[(Text, Text)]) -> bool
    ensures { result ≡ list_any is_mapping settings.now }
{
    settings.iter().any(|setting| is_mapping(setting))
}

fn is_mapping(setting: &(Text, Text)) -> bool
    ensures { result ≡ is_mapping setting.now }
{
    setting.0.as_str() == "delta.columnMapping.mode" && setting.1.as_str() != "none"
}
