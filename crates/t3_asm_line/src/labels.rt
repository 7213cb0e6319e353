//! Labels.
ghost use Rattle.std.specs.Prelude.{◌≡◌};
ghost use Rattle.std.specs.List.{list_all};
ghost use Rattle.std.specs.Option.{option_copied};
ghost use Rattle.t3_asm_line.specs.Labels.{is_label_byte as is_byte, is_label as is_good, label_put as put};

/// Whether these bytes are a label.
pub(crate) fn is_label(bytes: &[u8]) -> bool
    ensures { result ≡ is_good bytes.now }
{
    !bytes.is_empty() && has_label_bytes(bytes)
}

fn has_label_bytes(bytes: &[u8]) -> bool
    ensures { result ≡ list_all is_byte bytes.now }
{
    bytes.iter().all(|byte| is_label_byte(*byte))
}

fn is_label_byte(byte: u8) -> bool
    ensures { result ≡ is_byte byte }
{
    byte.is_ascii_alphanumeric() || byte == b'_'
}

/// The label that a word puts: all of it but the colon at its end.
#[tactic(auto, unfolding(crate::specs::Labels::label_put))]
pub(crate) fn label_put(word: &[u8]) -> Option<&[u8]>
    ensures { option_copied result ≡ put word.now }
{
    match word {
        [label @ .., b':'] if is_label(label) => Some(label),
        _ => None,
    }
}
