//! Names that Avro can spell (Apache Avro specification, "Names").

ghost use Rattle.std.specs.Prelude.{◌≡◌};
ghost use Rattle.std.specs.List.{list_all};
ghost use Rattle.schema_map.specs.Image.{is_letter, is_name_byte, is_avro_name};

use lake_basics::Text;

fn is_letter(byte: u8) -> bool
    ensures { result ≡ is_letter byte }
{
    (64 < byte && byte < 91) || (96 < byte && byte < 123) || byte == 95
}

fn is_name_byte(byte: u8) -> bool
    ensures { result ≡ is_name_byte byte }
{
    is_letter(byte) || (47 < byte && byte < 58)
}

fn are_name_bytes(bytes: &[u8]) -> bool
    ensures { result ≡ list_all is_name_byte bytes.now }
{
    for byte in bytes {
        if !is_name_byte(*byte) {
            return false;
        }
    }
    true
}

fn is_avro_name(name: &[u8]) -> bool
    ensures { result ≡ is_avro_name name.now }
{
    match name {
        [] => false,
        [first, rest @ ..] => is_letter(*first) && are_name_bytes(rest),
    }
}

/// Whether each is a letter or `_`, and then letters, digits and `_`, all ASCII.
pub(crate) fn are_avro_names(names: &[Text]) -> bool
    ensures { result ≡ list_all is_avro_name names.now }
{
    for name in names {
        if !is_avro_name(name.as_bytes()) {
            return false;
        }
    }
    true
}
