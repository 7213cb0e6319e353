//! The names of files.
ghost use Rattle.std.specs.Prelude.{◌≡◌, IfSome, map, string_bytes};
ghost use Rattle.std.specs.List.{list_all};
ghost use Rattle.std.specs.Option.{option_map, option_copied};
ghost use Rattle.t3_holder.specs.FileName.{may_begin as begins, is_name_byte as is_allowed, is_file_name as is_name, IsFileName};
ghost use Rattle.t3_words.specs.Verbs.{only_name as only_name_of, two_names as two_names_of, file_name as file_name_of};

/// The most bytes that a name has.
const NAME_LIMIT: usize = 64;

/// The two words that there are, if files may have these names.
pub(crate) fn two_names<'w>(words: &'w [String]) -> Option<(&'w str, &'w str)>
    ensures names { option_map (λ names. (names.0.now, names.1.now)) result
        ≡ two_names_of (map string_bytes words.now) }
    ensures good { IfSome result (λ names. IsFileName names.0.now × IsFileName names.1.now) }
{
    let [first, words @ ..] = words else {
        return None;
    };
    let first = file_name(first.as_str())?;
    let second = only_name(words)?;
    Some((first, second))
}

/// The one word that there is, if a file may have that name.
pub(crate) fn only_name<'w>(words: &'w [String]) -> Option<&'w str>
    ensures name { option_copied result ≡ only_name_of (map string_bytes words.now) }
    ensures good { IfSome result (λ name. IsFileName name.now) }
{
    match words {
        [name] => file_name(name.as_str()),
        _ => None,
    }
}

/// A word, if a file may have that name.
pub(crate) fn file_name<'w>(word: &'w str) -> Option<&'w str>
    ensures name { option_copied result ≡ file_name_of word.now }
    ensures good { IfSome result (λ name. IsFileName name.now) }
{
    is_file_name(word.as_bytes()).then_some(word)
}

/// Whether a file may have this name.
fn is_file_name(name: &[u8]) -> bool
    ensures { result ≡ is_name name.now }
{
    name.len() <= NAME_LIMIT && may_begin(name) && has_name_bytes(name)
}

/// Whether a name may begin as these bytes do.
fn may_begin(name: &[u8]) -> bool
    ensures { result ≡ begins name.now }
{
    match name {
        [] => false,
        [first, ..] => !matches!(*first, b'.' | b'-'),
    }
}

/// Whether each byte may stand in a name.
fn has_name_bytes(name: &[u8]) -> bool
    ensures { result ≡ list_all is_allowed name.now }
{
    name.iter().all(|byte| is_name_byte(*byte))
}

fn is_name_byte(byte: u8) -> bool
    ensures { result ≡ is_allowed byte }
{
    byte.is_ascii_alphanumeric() || matches!(byte, b'.' | b'_' | b'-')
}
