//! Which handler catches what is thrown at a place of a method.
ghost use Rattle.std.specs.Prelude.{◌≡◌, ◌+◌, ◌^◌, ◌<◌, IfOk, IfSome, option_map};
ghost use Rattle.t3_methods.specs.ExceptionTable.{FindsHandler, catches, entry_in, table_in, handler_among, handler_of};
ghost use Rattle.t3_methods.specs.Inner.Tables.{ReadsEntry, ReadsTable, earlier_of, entry_of};

use crate::header::header_at;
use crate::refusal::CodeRefusal;
use crate::window::{WINDOW_SIZE, Window};
use t3_pools::Pools;

/// How many bytes an entry of an exception table has.
const ENTRY_SIZE: u32 = 10;

/// An entry of an exception table: from which offset of the method to which it covers, both included,
/// the class of what it catches, or 0 for all, and the offset of the handler.
#[derive(Clone, Copy)]
pub(crate) struct TableEntry {
    pub(crate) first: u16,
    pub(crate) last: u16,
    pub(crate) class: u32,
    pub(crate) handler: u16,
}

/// The offset, from the method, of the handler that catches what is thrown at a place of a method: that
/// of the first entry of the method's exception table that covers the place, and whose class is 0 or
/// among `matches`. `None` where no entry does, or the method has no table.
///
/// `Header` exactly where no method header stands there, and else `Table` exactly where the header names
/// a table that isn't whole. It takes no memory.
pub fn handler_in(
    pools: &Pools,
    method: u32,
    place: u32,
    matches: &[u32],
) -> Result<Option<u16>, CodeRefusal>
    ensures finds { FindsHandler pools.now.code method place matches.now result }
    ensures is { result ≡ handler_of pools.now.code method place matches.now }
    ensures within { IfOk result (λ _. method + 10 < 2 ^ 31) }
{
    let header = match header_at(pools, method) {
        Ok(header) => header,
        Err(refusal) => return Err(refusal),
    };
    if header.exceptions == 0 {
        return Ok(None);
    }
    let table = method + u32::from(header.exceptions);
    match handler_by(pools, table, method, place, matches) {
        Some(handler) => Ok(handler),
        None => Err(CodeRefusal::Table),
    }
}

/// The handler of the first entry that catches, of the table at an address. `None` where that isn't
/// whole.
fn handler_by(
    pools: &Pools,
    table: u32,
    method: u32,
    place: u32,
    classes: &[u32],
) -> Option<Option<u16>>
    requires table { table < 2 ^ 31 + 2 ^ 16 }
    requires method { method < 2 ^ 31 }
    ensures reads { ReadsTable pools.now.code table method place classes.now result }
    ensures is { result
        ≡ option_map (handler_among method place classes.now) (table_in pools.now.code table) }
{
    let mut room = [0; WINDOW_SIZE];
    let window = Window::at(pools, table, &mut room);
    if window.bytes.len() < 2 {
        return None;
    }
    let count = window.uint2(0);
    let mut handler = None;
    let mut next = table + 2;
    for _ in 0..count {
        let Some(entry) = entry_at(pools, next) else {
            return None;
        };
        handler = earlier(handler, entry, method, place, classes);
        next += ENTRY_SIZE;
    }
    Some(handler)
}

/// The handler that was found, or else that of an entry which catches.
fn earlier(
    found: Option<u16>,
    entry: TableEntry,
    method: u32,
    place: u32,
    classes: &[u32],
) -> Option<u16>
    requires { method < 2 ^ 31 }
    ensures { result ≡ earlier_of method place classes.now found (entry_of entry) }
{
    if found.is_none() && entry.catches(method, place, classes) {
        Some(entry.handler)
    } else {
        found
    }
}

impl TableEntry {
    /// Whether the entry covers the place, and catches an object of these classes.
    fn catches(self, method: u32, place: u32, classes: &[u32]) -> bool
        requires { method < 2 ^ 31 }
        ensures { result ≡ catches method place classes.now (entry_of self) }
    {
        method + u32::from(self.first) <= place
            && place <= method + u32::from(self.last)
            && (self.class == 0 || classes.contains(&self.class))
    }
}

/// The entry at an address. `None` where it isn't whole.
fn entry_at(pools: &Pools, at: u32) -> Option<TableEntry>
    ensures reads { ReadsEntry pools.now.code at result }
    ensures is { option_map entry_of result ≡ entry_in pools.now.code at }
    ensures bounded { IfSome result (λ _. at + 10 < 2 ^ 31) }
{
    let mut room = [0; WINDOW_SIZE];
    let window = Window::at(pools, at, &mut room);
    if window.bytes.len() < WINDOW_SIZE {
        return None;
    }
    Some(TableEntry {
        first: window.uint2(0),
        last: window.uint2(2),
        class: window.uint4(4),
        handler: window.uint2(8),
    })
}
