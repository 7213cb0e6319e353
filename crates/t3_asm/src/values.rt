//! What arguments say once labels have addresses, and the rules on values.
ghost use Rattle.std.specs.Prelude.{◌≡◌, ◌+◌, ◌^◌, ◌≤◌};
ghost use Rattle.std.specs.Option.{option_copied};
ghost use Rattle.t3_asm_line.specs.Keywords.{fields_of};
ghost use Rattle.t3_asm.specs.Blocks.{long_at as long_in_field};
ghost use Rattle.t3_asm.specs.Inner.Forming.{IsNear};
ghost use Rattle.t3_asm.specs.Values.{address_of, distance as distance_of, address_value as address_value_of, value_of as value_by, value_in as value_said, lead_size as lead_of, is_missing as names_missing, is_far as too_far, is_far_jump as jumps_too_far, is_wide_address as too_wide_address, is_wide_offset as too_wide_offset, is_wide as too_wide, breaks as breaks_rule, some_breaks as breaks_in_fields, line_breaks as breaks_in_line};

use crate::item::Item;
use crate::labels::Labels;
use crate::sizes::width_of;
use t3_asm_line::{Argument, Field, Keyword};

/// The rules on single values, in their order.
#[derive(Clone, Copy, Debug, PartialEq, Eq, Hash)]
pub enum Rule {
    /// A label that is named is put by a line.
    Missing,
    /// A jump's distance is from -32,768 to 32,767.
    Far,
    /// An address or a place in a method fits its field.
    Wide,
}

/// From where labels are counted in a field.
#[derive(Clone, Copy)]
pub struct Origin {
    /// The address of the newest method.
    pub(crate) method: Option<u128>,
    /// The field's own address.
    pub(crate) address: u128,
}

/// The address of a label; 0 where no line puts it.
fn address(labels: &Labels, label: &[u8]) -> u128
    ensures { result ≡ address_of labels.now label.now }
{
    labels.address(label).unwrap_or(0)
}

/// The number that an argument says in a field.
pub(crate) fn value_of(labels: &Labels, origin: Origin, field: Field, argument: &Argument) -> u128
    ensures { result ≡ value_by labels.now origin.method origin.address field argument.now }
{
    match argument {
        Argument::Number(number) => u128::from(*number),
        Argument::Address(label) => {
            address_value(field, origin.address, address(labels, &label.0))
        }
        Argument::Offset(label) => {
            address(labels, &label.0).saturating_sub(origin.method.unwrap_or(0))
        }
        Argument::Text(_) => 0,
    }
}

/// The same, or 0 where there is no argument.
pub(crate) fn value_in(
    labels: &Labels,
    origin: Origin,
    field: Field,
    argument: Option<&Argument>,
) -> u128
    ensures { result ≡ value_said labels.now origin.method origin.address field
        (option_copied argument.entry) }
{
    match argument {
        Some(argument) => value_of(labels, origin, field, argument),
        None => 0,
    }
}

/// The number that a label or a number says in a field of four bytes.
pub(crate) fn long_at(labels: &Labels, arguments: &[Argument], at: usize) -> u32
    ensures { result ≡ long_in_field labels.now arguments.now at }
{
    let origin = Origin {
        method: None,
        address: 0,
    };
    (value_in(labels, origin, Field::Value, arguments.get(at)) % 4294967296) as u32
}

/// What stands in a field for an address.
fn address_value(field: Field, own: u128, address: u128) -> u128
    ensures { result ≡ address_value_of field own address }
{
    match field {
        Field::Jump => distance(own, address),
        _ => address,
    }
}

/// The distance of a jump, as two's complement of two bytes.
fn distance(own: u128, address: u128) -> u128
    ensures { result ≡ distance_of own address }
{
    if own <= address {
        address - own
    } else {
        65536_u128.saturating_sub(own - address)
    }
}

/// How many bytes a line has before its fields.
pub(crate) fn lead_size(keyword: Keyword) -> u128
    ensures size { result ≡ lead_of keyword }
    ensures few { result ≤ 1 }
{
    match keyword {
        Keyword::Instruction(_) => 1,
        _ => 0,
    }
}

impl Item {
    /// Where its fields begin.
    pub(crate) fn origin(&self) -> Origin
        requires { IsNear self.now }
        ensures address { result.address ≡ self.now.place.address + lead_of self.now.keyword }
        ensures method { result.method ≡ self.now.place.method }
    {
        Origin {
            method: self.place.method,
            address: self.place.address + lead_size(self.keyword),
        }
    }

    /// Whether it breaks a rule in one of its fields.
    pub(crate) fn breaks(&self, rule: Rule, labels: &Labels) -> bool
        requires { IsNear self.now }
        ensures { result ≡ breaks_in_line rule labels.now self.now }
    {
        some_breaks(rule, labels, self.origin(), self.keyword, &self.arguments.0)
    }
}

/// Whether one of some arguments breaks a rule, in fields that begin here.
fn some_breaks(
    rule: Rule,
    labels: &Labels,
    origin: Origin,
    keyword: Keyword,
    arguments: &[Argument],
) -> bool
    requires { origin.address ≤ 2 ^ 113 }
    ensures { result ≡ breaks_in_fields rule labels.now origin.method origin.address
        (fields_of keyword) arguments.now }
{
    let mut address = origin.address;
    for at in 0..keyword.field_count().min(arguments.len()) {
        let field = keyword.field(at);
        let own = Origin { address, ..origin };
        if breaks(rule, labels, own, field, &arguments[at]) {
            return true;
        }
        address += u128::from(width_of(field));
    }
    false
}

/// Whether an argument breaks a rule in a field.
fn breaks(rule: Rule, labels: &Labels, origin: Origin, field: Field, argument: &Argument) -> bool
    ensures { result ≡ breaks_rule rule labels.now origin.method origin.address field argument.now }
{
    match rule {
        Rule::Missing => is_missing(labels, argument),
        Rule::Far => is_far_jump(labels, origin, field, argument),
        Rule::Wide => is_wide(labels, origin, field, argument),
    }
}

/// Whether it names a label that no line puts.
fn is_missing(labels: &Labels, argument: &Argument) -> bool
    ensures { result ≡ names_missing labels.now argument.now }
{
    match argument {
        Argument::Number(_) => false,
        Argument::Address(label) => labels.address(&label.0).is_none(),
        Argument::Offset(label) => labels.address(&label.0).is_none(),
        Argument::Text(_) => false,
    }
}

/// Whether it is a jump to a label that is too far.
fn is_far_jump(labels: &Labels, origin: Origin, field: Field, argument: &Argument) -> bool
    ensures { result ≡ jumps_too_far labels.now origin.address field argument.now }
{
    match (field, argument) {
        (Field::Jump, Argument::Address(label)) => is_far(
            origin.address,
            address(labels, &label.0),
        ),
        _ => false,
    }
}

/// Whether a distance isn't from -32,768 to 32,767.
fn is_far(own: u128, address: u128) -> bool
    ensures { result ≡ too_far own address }
{
    own.saturating_add(32767) < address || address.saturating_add(32768) < own
}

/// Whether it is an address or a place in a method that its field doesn't hold.
fn is_wide(labels: &Labels, origin: Origin, field: Field, argument: &Argument) -> bool
    ensures { result ≡ too_wide labels.now origin.method field argument.now }
{
    match argument {
        Argument::Number(_) => false,
        Argument::Address(label) => is_wide_address(field, address(labels, &label.0)),
        Argument::Offset(label) => {
            is_wide_offset(origin.method.unwrap_or(0), address(labels, &label.0))
        }
        Argument::Text(_) => false,
    }
}

fn is_wide_address(field: Field, address: u128) -> bool
    ensures { result ≡ too_wide_address field address }
{
    match field {
        Field::Jump => false,
        _ => 4294967296 <= address,
    }
}

fn is_wide_offset(method: u128, address: u128) -> bool
    ensures { result ≡ too_wide_offset method address }
{
    address < method || method.saturating_add(65535) < address
}
