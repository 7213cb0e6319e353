//! The names that a story gives to files.
ghost use Rattle.std.specs.Prelude.{◌≡◌};
ghost use Rattle.std.specs.List.{list_all};
ghost use Rattle.t3_holder.specs.FileName.{may_begin as begins, is_name_byte as is_allowed, is_file_name as is_name};

/// The most bytes that a name has.
const NAME_LIMIT: usize = 64;

/// Whether a file may have this name.
pub(crate) fn is_file_name(name: &[u8]) -> bool
    ensures { result ≡ is_name name.now }
{
    name.len() <= NAME_LIMIT && may_begin(name) && has_name_bytes(name)
}

/// Whether a name may begin as these bytes do.
fn may_begin(name: &[u8]) -> bool
    ensures { result ≡ begins name.now }
{
    match name {
        [] => false,
        [first, ..] => !matches!(*first, b'.' | b'-'),
    }
}

/// Whether each byte may stand in a name.
fn has_name_bytes(name: &[u8]) -> bool
    ensures { result ≡ list_all is_allowed name.now }
{
    name.iter().all(|byte| is_name_byte(*byte))
}

fn is_name_byte(byte: u8) -> bool
    ensures { result ≡ is_allowed byte }
{
    byte.is_ascii_alphanumeric() || matches!(byte, b'.' | b'_' | b'-')
}
