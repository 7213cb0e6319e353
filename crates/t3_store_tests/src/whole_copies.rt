//! The plain program of the random runs. It keeps a whole copy of all persistent objects at each
//! savepoint.
ghost use Rattle.std.specs.Prelude.{◌<◌, length, IfSome};

use std::alloc::Global;
use std::test::Fail;
use t3_holder::{Holder, NoMemory};
use t3_store::{Kind, Store, StoreLimits};
use t3_tadsobj::Supers;
use t3_undo::{Cell, Key};

/// The cell of a table's default.
pub(crate) const DEFAULT: u32 = 0;

/// What stands in a row for nil.
pub(crate) const NIL: i32 = -1;

/// The cell of the entry under a text without bytes. So many bytes more are so many cells more.
pub(crate) const TEXTS: u32 = 1000;

/// An object as a row of cells, by their numbers: properties by rising number, bytes, items,
/// elements, or a table's default and its entries in their order.
#[derive(Drop)]
pub(crate) struct Row {
    pub(crate) number: u32,
    pub(crate) kind: Kind,
    pub(crate) class: bool,
    pub(crate) supers: Vec<u32>,
    pub(crate) cells: Vec<(u32, i32)>,
}

/// A savepoint: a copy of all persistent rows, and which cells were changed first since.
#[derive(Drop)]
struct Savepoint {
    rows: Vec<Row>,
    next: u32,
    changed: Vec<(u32, u32)>,
}

/// The plain program.
#[derive(Drop)]
pub(crate) struct Whole {
    pub(crate) persistent: Vec<Row>,
    pub(crate) transient: Vec<Row>,
    pub(crate) next: u32,
    next_transient: u32,
    savepoints: Vec<Savepoint>,
    limits: StoreLimits,
}

/// A copy of rows.
pub(crate) fn copy_rows(alloc: Global, rows: &[Row]) -> Result<Vec<Row>, NoMemory> {
    let mut copy = Vec::new(alloc);
    for row in rows {
        copy.push(copy_row(alloc, row)?)?;
    }
    Ok(copy)
}

fn copy_row(alloc: Global, row: &Row) -> Result<Row, NoMemory> {
    Ok(Row {
        number: row.number,
        kind: row.kind,
        class: row.class,
        supers: Vec::from_slice(alloc, &row.supers)?,
        cells: Vec::from_slice(alloc, &row.cells)?,
    })
}

/// How many units a cell counts.
fn cell_units(cell: u32) -> usize {
    if cell == DEFAULT {
        0
    } else if cell < TEXTS {
        1
    } else {
        (1 + (cell - TEXTS).div_ceil(8)) as usize
    }
}

/// How many units an object counts.
fn row_units(row: &Row) -> usize {
    if row.kind == Kind::Text {
        return row.cells.len().div_ceil(8);
    }
    let mut sum = row.supers.len();
    for (cell, _value) in &row.cells {
        sum = sum.saturating_add(cell_units(*cell));
    }
    sum
}

fn units(rows: &[Row]) -> usize {
    let mut sum: usize = 0;
    for row in rows {
        sum = sum.saturating_add(row_units(row));
    }
    sum
}

fn records(savepoints: &[Savepoint]) -> usize {
    let mut sum: usize = 0;
    for savepoint in savepoints {
        sum = sum.saturating_add(savepoint.changed.len());
    }
    sum
}

fn position(cells: &[(u32, i32)], cell: u32) -> Option<usize>
    ensures { IfSome result (λ index. index < length cells.now) }
{
    for index in 0..cells.len() {
        if cells[index].0 == cell {
            return Some(index);
        }
    }
    None
}

fn row_of(rows: &[Row], number: u32) -> Option<usize>
    ensures { IfSome result (λ index. index < length rows.now) }
{
    for index in 0..rows.len() {
        if rows[index].number == number {
            return Some(index);
        }
    }
    None
}

/// Where a new cell goes: properties by their numbers, and others last.
fn place_of(row: &Row, cell: u32) -> usize {
    if row.kind != Kind::Tads {
        return row.cells.len();
    }
    row.cells.iter().filter(|entry| entry.0 < cell).count()
}

/// `false` where there is no room for a cell more.
fn set_in(row: &mut Row, cell: u32, value: i32, full: bool) -> Result<bool, NoMemory> {
    match position(&row.cells, cell) {
        Some(place) => row.cells[place] = (cell, value),
        None => {
            if full {
                return Ok(false);
            }
            let place = place_of(row, cell).min(row.cells.len());
            row.cells.insert(place, (cell, value))?;
        }
    }
    Ok(true)
}

/// `false` where the cell isn't there.
fn take_from(row: &mut Row, cell: u32) -> bool {
    match position(&row.cells, cell) {
        Some(place) => {
            let _old = row.cells.remove(place);
            true
        }
        None => false,
    }
}

/// Whether a change of the cell is the first since the newest savepoint.
fn is_due(savepoints: &[Savepoint], number: u32, cell: u32) -> bool {
    match savepoints.last() {
        Some(newest) => number < newest.next
            && !newest
                .changed
                .iter()
                .any(|change| *change == (number, cell)),
        None => false,
    }
}

/// Whether an object of the store is like the row.
pub(crate) fn has_row(store: &Store, row: &Row, alloc: Global) -> Result<bool, Fail> {
    if store.kind(row.number) != Some(row.kind) || store.is_class(row.number) != row.class {
        return Ok(false);
    }
    let supers = store.supers(row.number).unwrap_or(&[]);
    let cells = cells_of(store, row.number, alloc)?;
    Ok(supers == row.supers.as_slice() && cells.as_slice() == row.cells.as_slice())
}

/// The cells of an object by their numbers.
fn cells_of(store: &Store, number: u32, alloc: Global) -> Result<Vec<(u32, i32)>, Fail> {
    let mut cells = Vec::new(alloc);
    match store.kind(number) {
        Some(Kind::Tads) => {
            for prop in store.props(alloc, number)?.items() {
                cells.push((u32::from(prop.number), number_in(Some(prop.value))))?;
            }
        }
        Some(Kind::Table) => {
            cells.push((DEFAULT, number_in(store.get(number, &Cell::Default))))?;
            for pair in store.entries(alloc, number)?.items() {
                cells.push((cell_under(&pair.key), number_in(Some(pair.value))))?;
            }
        }
        _ => push_row(store, number, &mut cells)?,
    }
    Ok(cells)
}

/// The bytes, items or elements of an object.
fn push_row(store: &Store, number: u32, cells: &mut Vec<(u32, i32)>) -> Result<(), NoMemory> {
    let mut cell: u32 = 0;
    for byte in store.text(number).unwrap_or(&[]) {
        cell = cell.saturating_add(1);
        cells.push((cell, i32::from(*byte)))?;
    }
    for item in store.items(number).unwrap_or(&[]) {
        cell = cell.saturating_add(1);
        cells.push((cell, number_in(Some(*item))))?;
    }
    for element in 1..store.length(number).unwrap_or(0).saturating_add(1) {
        cells.push((element, number_in(store.get(number, &Cell::Elem(element)))))?;
    }
    Ok(())
}

fn number_in(value: Option<Holder>) -> i32 {
    match value {
        Some(Holder::Int(number)) => number,
        _ => NIL,
    }
}

/// The cell under a key.
fn cell_under(key: &Key) -> u32 {
    match key {
        Key::Int(number) => u32::try_from(*number).unwrap_or(0),
        Key::Text(bytes) => TEXTS.saturating_add(u32::try_from(bytes.0.len()).unwrap_or(0)),
        _ => DEFAULT,
    }
}

impl Whole {
    pub(crate) fn start(alloc: Global, limits: StoreLimits) -> Whole {
        Whole {
            persistent: Vec::new(alloc),
            transient: Vec::new(alloc),
            next: 1,
            next_transient: 0x8000_0000,
            savepoints: Vec::new(alloc),
            limits,
        }
    }

    /// Whether so many objects and units are more than there may be.
    fn is_past(&self, objects: usize, units: usize) -> bool {
        objects > self.limits.objects as usize || units > self.limits.units as usize
    }

    pub(crate) fn objects(&self) -> usize {
        self.persistent.len().saturating_add(self.transient.len())
    }

    pub(crate) fn units(&self) -> usize {
        units(&self.persistent).saturating_add(units(&self.transient))
    }

    pub(crate) fn held(&self) -> usize {
        self.savepoints.len()
    }

    pub(crate) fn records(&self) -> usize {
        records(&self.savepoints)
    }

    /// The object at a place among all, the persistent ones first.
    pub(crate) fn row_at(&self, place: usize) -> Option<&Row> {
        match self.persistent.get(place) {
            Some(row) => Some(row),
            None => self
                .transient
                .get(place.saturating_sub(self.persistent.len())),
        }
    }

    /// Adds an object under the next number of a half, and gives that. `None` where there is no
    /// room.
    pub(crate) fn create(&mut self, row: Row, transient: bool) -> Result<Option<u32>, NoMemory> {
        let units = self.units().saturating_add(row_units(&row));
        if self.is_past(self.objects().saturating_add(1), units) {
            return Ok(None);
        }
        let mut row = row;
        if transient {
            row.number = self.next_transient;
            self.next_transient = self.next_transient.saturating_add(1);
            self.transient.push(row)?;
            return Ok(Some(self.next_transient.saturating_sub(1)));
        }
        row.number = self.next;
        self.next = self.next.saturating_add(1);
        self.persistent.push(row)?;
        Ok(Some(self.next.saturating_sub(1)))
    }

    pub(crate) fn savepoint(&mut self, alloc: Global) -> Result<(), NoMemory> {
        let savepoint = Savepoint {
            rows: copy_rows(alloc, &self.persistent)?,
            next: self.next,
            changed: Vec::new(alloc),
        };
        let full = self.savepoints.len() >= self.limits.savepoints as usize;
        if full && self.savepoints.len() > 0 {
            let _oldest = self.savepoints.remove(0);
        }
        self.savepoints.push(savepoint)?;
        Ok(())
    }

    /// `false` where no savepoint is held.
    pub(crate) fn undo(&mut self) -> bool {
        match self.savepoints.pop() {
            Some(savepoint) => {
                self.persistent = savepoint.rows;
                true
            }
            None => false,
        }
    }

    /// Puts rows in place of the persistent ones, which ends all savepoints. `false` where there is no room for
    /// them beside the transient ones.
    pub(crate) fn replace(&mut self, rows: Vec<Row>, next: u32) -> bool {
        let objects = rows.len().saturating_add(self.transient.len());
        if self.is_past(objects, units(&rows).saturating_add(units(&self.transient))) {
            return false;
        }
        self.persistent = rows;
        self.next = self.next.max(next);
        self.savepoints.clear();
        true
    }

    /// The change of a persistent object's cell, noted at the newest savepoint where it is the
    /// first since.
    fn note(&mut self, number: u32, cell: u32) -> Result<(), NoMemory> {
        if !is_due(&self.savepoints, number, cell) {
            return Ok(());
        }
        for _ in 0..self.limits.savepoints {
            let full = records(&self.savepoints) >= self.limits.records as usize;
            if full && self.savepoints.len() > 0 {
                let _oldest = self.savepoints.remove(0);
            }
        }
        if let Some(newest) = self.savepoints.last_mut() {
            newest.changed.push((number, cell))?;
        }
        Ok(())
    }

    /// `false` where there is no room for a cell more.
    pub(crate) fn set(&mut self, number: u32, cell: u32, value: i32) -> Result<bool, NoMemory> {
        let full = self.is_past(0, self.units().saturating_add(cell_units(cell)));
        if let Some(index) = row_of(&self.persistent, number) {
            if !set_in(&mut self.persistent[index], cell, value, full)? {
                return Ok(false);
            }
            self.note(number, cell)?;
        }
        if let Some(index) = row_of(&self.transient, number) {
            return set_in(&mut self.transient[index], cell, value, full);
        }
        Ok(true)
    }

    pub(crate) fn take(&mut self, number: u32, cell: u32) -> Result<(), NoMemory> {
        if let Some(index) = row_of(&self.persistent, number) {
            if take_from(&mut self.persistent[index], cell) {
                self.note(number, cell)?;
            }
        }
        if let Some(index) = row_of(&self.transient, number) {
            let _was_there = take_from(&mut self.transient[index], cell);
        }
        Ok(())
    }
}
