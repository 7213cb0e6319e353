//! Names of metaclasses and of function sets.
ghost use Rattle.std.specs.Prelude.{◌≡◌, ◌==◌, position};
ghost use Rattle.t3_load.specs.Names.{base_of};

/// The name without a `/` and what follows it, which says of which version the thing is.
pub(crate) fn base(name: &[u8]) -> &[u8]
    ensures { result.now ≡ base_of name.now }
{
    match slash(name) {
        Some(end) => &name[..end],
        None => name,
    }
}

/// The index of the first `/`.
fn slash(name: &[u8]) -> Option<usize>
    ensures { result ≡ position (λ byte. byte == 47) name.now }
{
    name.iter().position(|byte| *byte == b'/')
}
