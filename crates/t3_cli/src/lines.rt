//! The lines that are shown.
ghost use Rattle.std.specs.Prelude.{◌≡◌, Some, None, IfOk, codes, string_bytes};
ghost use Rattle.std.specs.Fmt.{decimal};
ghost use Rattle.t3_cli.specs.Lines.{absent_line, refused_line, ok_line, put_line, why_name as name_of, items_of, drill_line, bad_line as bad_line_of, source_why_name as name_of_rule, load_line, load_text, pool_rule_name};

use std::alloc::{AllocError, Global};
use t3_asm::AsmWhy;
use t3_image_read::ReadWhy;
use t3_load::LoadRefusal;
use t3_pools::PoolRefusal;
use t3_run::RunEnd;

/// Shown where the words are no command.
pub(crate) const USAGE: &str =
    "usage: t3 check or show or list or run or rewrite or asm or drill\n";

pub(crate) fn absent(alloc: Global, name: &str) -> Result<String, AllocError>
    ensures { IfOk result (λ line. string_bytes line ≡ absent_line name.now) }
{
    format!(in alloc; "absent {name}\n")
}

pub(crate) fn refused(alloc: Global, place: u32, why: ReadWhy) -> Result<String, AllocError>
    ensures { IfOk result (λ line. string_bytes line ≡ refused_line why place) }
{
    let name = why_name(why);
    match items(why) {
        Some(items) => format!(in alloc; "refused {name} at {place} items={items}\n"),
        None => format!(in alloc; "refused {name} at {place}\n"),
    }
}

/// How many items spell of a payload that is malformed.
fn items(why: ReadWhy) -> Option<u32>
    ensures { result ≡ items_of why }
{
    match why {
        ReadWhy::Malformed { items } => Some(items),
        _ => None,
    }
}

/// The line of an image with so many blocks, its end among them, that uses so many bytes.
pub(crate) fn ok(alloc: Global, blocks: usize, bytes: usize) -> Result<String, AllocError>
    ensures { IfOk result (λ line. string_bytes line ≡ ok_line blocks bytes) }
{
    format!(in alloc; "ok blocks={blocks} bytes={bytes}\n")
}

/// The line of a file of so many bytes that was put.
pub(crate) fn put(alloc: Global, bytes: usize) -> Result<String, AllocError>
    ensures { IfOk result (λ line. string_bytes line ≡ put_line bytes) }
{
    format!(in alloc; "ok bytes={bytes}\n")
}

/// The line behind the run of a drill of so many actions.
pub(crate) fn drill(alloc: Global, actions: u32, end: RunEnd) -> Result<String, AllocError>
    ensures { IfOk result (λ line. string_bytes line ≡ drill_line actions end) }
{
    let RunEnd {
        steps,
        held,
        records,
        ..
    } = end;
    format!(in alloc; "drill actions={actions} steps={steps} held={held} records={records}\n")
}

/// The line of an image of which no program is made.
pub(crate) fn load_refused(alloc: Global, why: LoadRefusal) -> Result<String, AllocError>
    ensures { IfOk result (λ line. string_bytes line ≡ load_line why) }
{
    match why {
        LoadRefusal::NoEntry => load_rule(alloc, "NoEntry"),
        LoadRefusal::TwoEntries => load_rule(alloc, "TwoEntries"),
        LoadRefusal::HeaderSizes => load_rule(alloc, "HeaderSizes"),
        LoadRefusal::Pool(why) => load_pool(alloc, pool_rule_name(why)),
        LoadRefusal::Metaclass(index) => load_number(alloc, "Metaclass", index),
        LoadRefusal::FunctionSet(index) => load_number(alloc, "FunctionSet", index),
        LoadRefusal::ObjectNumber(number) => load_number(alloc, "ObjectNumber", number),
        LoadRefusal::ObjectTwice(number) => load_number(alloc, "ObjectTwice", number),
        LoadRefusal::ObjectData(number) => load_number(alloc, "ObjectData", number),
        LoadRefusal::SuperMissing(number) => load_number(alloc, "SuperMissing", number),
        LoadRefusal::SuperCycle(number) => load_number(alloc, "SuperCycle", number),
        LoadRefusal::TransientSuper(number) => load_number(alloc, "TransientSuper", number),
        LoadRefusal::Full => load_rule(alloc, "Full"),
        LoadRefusal::NoMemory => load_rule(alloc, "NoMemory"),
    }
}

fn load_rule(alloc: Global, name: &str) -> Result<String, AllocError>
    ensures { IfOk result (λ line. string_bytes line ≡ load_text (name.now, None)) }
{
    format!(in alloc; "load refused {name}\n")
}

fn load_number(alloc: Global, name: &str, number: u32) -> Result<String, AllocError>
    ensures { IfOk result (λ line. string_bytes line ≡ load_text (name.now, Some (decimal number))) }
{
    format!(in alloc; "load refused {name} {number}\n")
}

fn load_pool(alloc: Global, rule: &str) -> Result<String, AllocError>
    ensures { IfOk result (λ line. string_bytes line ≡ load_text (codes "Pool", Some rule.now)) }
{
    format!(in alloc; "load refused Pool {rule}\n")
}

fn pool_rule_name(why: PoolRefusal) -> &'static str
    ensures { result.now ≡ pool_rule_name why }
{
    match why {
        PoolRefusal::NoCode => "NoCode",
        PoolRefusal::TwoDefs => "TwoDefs",
        PoolRefusal::TooWide => "TooWide",
        PoolRefusal::PageIndex => "PageIndex",
        PoolRefusal::PageTwice => "PageTwice",
        PoolRefusal::PageMissing => "PageMissing",
        PoolRefusal::PageLong => "PageLong",
        PoolRefusal::NoMemory => "NoMemory",
    }
}

fn why_name(why: ReadWhy) -> &'static str
    ensures { result.now ≡ name_of why }
{
    match why {
        ReadWhy::Signature => "Signature",
        ReadWhy::Version => "Version",
        ReadWhy::TooLong => "TooLong",
        ReadWhy::TooMany => "TooMany",
        ReadWhy::UnknownMandatory => "UnknownMandatory",
        ReadWhy::Malformed { .. } => "Malformed",
        ReadWhy::EofSize => "EofSize",
        ReadWhy::Truncated => "Truncated",
    }
}

/// The line of a source that breaks a rule.
pub(crate) fn bad_line(alloc: Global, line: u32, why: AsmWhy) -> Result<String, AllocError>
    ensures { IfOk result (λ text. string_bytes text ≡ bad_line_of line why) }
{
    let name = source_why_name(why);
    format!(in alloc; "refused line {line} {name}\n")
}

fn source_why_name(why: AsmWhy) -> &'static str
    ensures { result.now ≡ name_of_rule why }
{
    match why {
        AsmWhy::Word => "Word",
        AsmWhy::Number => "Number",
        AsmWhy::Range => "Range",
        AsmWhy::LabelTwice => "LabelTwice",
        AsmWhy::Order => "Order",
        AsmWhy::LabelMissing => "LabelMissing",
        AsmWhy::Jump => "Jump",
        AsmWhy::TooLong => "TooLong",
        AsmWhy::NoMemory => "NoMemory",
    }
}
