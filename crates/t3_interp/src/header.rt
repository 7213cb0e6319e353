//! What a method's header says of its arguments.
ghost use Rattle.std.specs.Prelude.{◌≡◌, ◌≤◌};
ghost use Rattle.t3_interp.specs.Step.{takes_count as takes_count_by, missing_arguments as missing_by};

use t3_methods::Header;

/// Whether a method takes so many arguments: those that have to be given, and no more than the optional ones
/// unless it is varying.
#[inline(always)]
pub(crate) fn takes_count(header: &Header, count: u32) -> bool
    ensures { result ≡ takes_count_by header.now count }
{
    u32::from(header.least) <= count
        && (header.varying || count <= u32::from(header.least) + u32::from(header.optional))
}

/// How many of its parameters are left out where it gets so many arguments.
#[inline(always)]
pub(crate) fn missing_arguments(header: &Header, count: u32) -> u16
    ensures count { result ≡ missing_by header.now count }
    ensures few { result ≤ 510 }
{
    let most = u32::from(header.least) + u32::from(header.optional);
    if count < most {
        (most - count) as u16
    } else {
        0
    }
}
