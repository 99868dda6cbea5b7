//! What the properties of a table say of it.

ghost use Rattle.std.specs.Prelude.{◌≡◌, ◌-◌, ◌==◌, ◌<◌, ◌≤◌, ◌++◌, ◌∷◌, [], length, take, drop, map, filter, codes, slice_index, option_map, IfOk, IfErr, Ok};
ghost use Rattle.std.specs.List.{prefix_len, suffix_len, slice_split};
ghost use Rattle.hudi_names.specs.Errors.{Gives};
ghost use Rattle.hudi_properties.specs.TableFeatures.{ShowNone, IsTableRefusal};
ghost use Rattle.hudi_properties.specs.TableProperties.{property, is_word, shows_hudi_version, is_other_format, is_custom_class, is_custom_generator, first_feature, is_space, without_spaces, is_name, names_in, table_of, checked_table};

use crate::pair::Pairs;
use hudi_names::HudiError;
use lake_basics::{Items, Text};
use std::alloc::{AllocError, Global};
use table_history::Feature;

/// What a table's properties say: its partition columns, how its folders spell their values, and
/// whether this bridge made it.
#[derive(Debug, Drop)]
pub struct HudiTable {
    pub partition: Items<Text>,
    /// Folders are `name=value`.
    pub hive_style: bool,
    /// Values in folders are escaped as in URLs.
    pub url_encode: bool,
    pub ours: bool,
}

/// The table that the properties describe. A table of another type, version, file format or key
/// generator than those that are read is refused, the first of these deciding.
pub fn check_properties(alloc: Global, pairs: &Pairs) -> Result<HudiTable, HudiError>
    // A table is given where the properties show no feature, and it is what they say.
    ensures found { IfOk result (λ table. ShowNone pairs.now × (table ≡ table_of pairs.now)) }
    // Where they show none the table is given, unless memory runs out.
    ensures only { ShowNone pairs.now → Gives result (Ok (table_of pairs.now)) }
    // What is refused names the first feature that they show.
    ensures fault { IfErr result (λ e. IsTableRefusal pairs.now e) }
    // The same as a function of the pairs.
    ensures exact { Gives result (checked_table pairs.now) }
{
    checked_table(alloc, pairs)
}

fn checked_table(alloc: Global, pairs: &Pairs) -> Result<HudiTable, HudiError>
    ensures { Gives result (checked_table pairs.now) }
{
    match first_feature(pairs.as_slice()) {
        Some(feature) => Err(HudiError::Unsupported { feature }),
        None => Ok(table_of(alloc, pairs.as_slice())?),
    }
}

/// The value of a key.
fn property<'a>(pairs: &'a [(Text, Text)], key: &str) -> Option<&'a Text>
    ensures { option_map (λ t. t.now) result ≡ property key.now pairs.now }
{
    let (_, value) = pairs.iter().rev().find(|pair| pair.0.as_str() == key)?;
    Some(value)
}

fn is_word(value: Option<&Text>, word: &str) -> bool
    ensures { result ≡ is_word (option_map (λ t. t.now) value.entry) word.now }
{
    match value {
        None => false,
        Some(value) => value.as_str() == word,
    }
}

fn is_property(pairs: &[(Text, Text)], key: &str, word: &str) -> bool
    ensures { result ≡ is_word (property key.now pairs.now) word.now }
{
    is_word(property(pairs, key), word)
}

fn first_feature(pairs: &[(Text, Text)]) -> Option<Feature>
    ensures { result ≡ first_feature pairs.now }
{
    if !is_property(pairs, "hoodie.table.type", "COPY_ON_WRITE") {
        Some(Feature::HudiType)
    } else if has_other_version(pairs) {
        Some(Feature::HudiVersion)
    } else if is_other_format(property(pairs, "hoodie.table.base.file.format")) {
        Some(Feature::FileFormat)
    } else if is_custom_generator(property(pairs, "hoodie.table.keygenerator.class")) {
        Some(Feature::KeyGenerator)
    } else {
        None
    }
}

fn has_other_version(pairs: &[(Text, Text)]) -> bool
    ensures { result ≡ shows_hudi_version pairs.now }
{
    let version = property(pairs, "hoodie.table.version");
    !(is_word(version, "5") || is_word(version, "6"))
}

fn is_other_format(format: Option<&Text>) -> bool
    ensures { result ≡ is_other_format (option_map (λ t. t.now) format.entry) }
{
    match format {
        None => false,
        Some(format) => !format.as_str().eq_ignore_ascii_case("PARQUET"),
    }
}

fn is_custom_generator(class: Option<&Text>) -> bool
    ensures { result ≡ is_custom_generator (option_map (λ t. t.now) class.entry) }
{
    match class {
        None => false,
        Some(class) => is_custom_class(class.as_bytes()),
    }
}

fn is_custom_class(class: &[u8]) -> bool
    ensures { result ≡ is_custom_class class.now }
{
    class.ends_with(b"TimestampBasedKeyGenerator")
        || class.ends_with(b"TimestampBasedAvroKeyGenerator")
        || class.ends_with(b"CustomKeyGenerator")
        || class.ends_with(b"CustomAvroKeyGenerator")
}

fn table_of(alloc: Global, pairs: &[(Text, Text)]) -> Result<HudiTable, AllocError>
    ensures { IfOk result (λ t. t ≡ table_of pairs.now) }
{
    let partition = names_in(alloc, property(pairs, "hoodie.table.partition.fields"))?;
    Ok(HudiTable {
        partition,
        hive_style: is_property(
            pairs,
            "hoodie.datasource.write.hive_style_partitioning",
            "true",
        ),
        url_encode: is_property(
            pairs,
            "hoodie.datasource.write.partitionpath.urlencode",
            "true",
        ),
        ours: is_property(pairs, "lakebridge.version", "1"),
    })
}

fn names_in(alloc: Global, value: Option<&Text>) -> Result<Items<Text>, AllocError>
    ensures { IfOk result (λ ts. ts ≡ names_in (option_map (λ t. t.now) value.entry)) }
{
    match value {
        None => Ok(Items::new(alloc)),
        Some(value) => names_of(alloc, value.as_str()),
    }
}

fn parts_of<'a>(alloc: Global, text: &'a str) -> Result<Vec<&'a str>, AllocError>
    ensures { IfOk result (λ v. map (λ s. s.now) v.items ≡ slice_split (λ b. b == 44) text.now) }
{
    text.split(',').collect(alloc)
}

fn names_of(alloc: Global, text: &str) -> Result<Items<Text>, AllocError>
    ensures { IfOk result (λ ts. ts ≡ filter is_name (map without_spaces (slice_split (λ b. b == 44) text.now))) }
{
    let parts = parts_of(alloc, text)?;
    let mut names = Items::new(alloc);
    for part in &parts {
        names = with_name(alloc, names, without_spaces(part))?;
    }
    Ok(names)
}

fn with_name(alloc: Global, names: Items<Text>, name: &str) -> Result<Items<Text>, AllocError>
    ensures { IfOk result (λ ts. ts ≡ names ++ filter is_name (name.now ∷ [])) }
{
    let mut names = names;
    if !name.is_empty() {
        names.push(Text::from_str(alloc, name)?)?;
    }
    Ok(names)
}

fn without_spaces(text: &str) -> &str
    ensures { result.now ≡ without_spaces text.now }
{
    let rest = &text[leading_spaces(text)..];
    &rest[..end_before_spaces(rest)]
}

fn leading_spaces(text: &str) -> usize
    ensures { result ≡ prefix_len is_space text.now }
{
    text.as_bytes().iter().take_while(|b| **b == b' ').count()
}

fn end_before_spaces(text: &str) -> usize
    ensures end { result ≡ length text.now - suffix_len is_space text.now }
    ensures within { result ≤ length text.now }
    ensures next { result < length text.now → slice_index text.now result ≡ 32 }
{
    let bytes = text.as_bytes();
    let mut end = bytes.len();
    while end > 0 && bytes[end - 1] == b' ' {
        end -= 1;
    }
    end
}
