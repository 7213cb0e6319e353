//! A plain object, which is a list of places.
ghost use Rattle.std.specs.Prelude.{IsTrue};
ghost use Rattle.t3_undo.specs.Content.{shown, is_form};

use std::alloc::Global;
use t3_holder::{Holder, NoMemory};
use t3_undo::{Cell, Content};

/// What stands in a present cell: in an entry with its tick, elsewhere with 0.
#[derive(Clone, Copy)]
pub(crate) struct Value {
    pub(crate) tick: u32,
    pub(crate) holder: Holder,
}

/// A place of a plain object. A cell goes by its index among those that are tried.
#[derive(Clone, Copy)]
pub(crate) struct PlainPlace {
    pub(crate) cell: usize,
    pub(crate) stamp: u64,
    pub(crate) value: Option<Value>,
}

impl PlainPlace {
    fn has_tick_up_to(&self, tick: u32) -> bool {
        match self.value {
            Some(value) => value.tick > 0 && value.tick <= tick,
            None => false,
        }
    }

    fn is_present_up_to(&self, cell: usize) -> bool {
        self.value.is_some() && self.cell <= cell
    }

    /// Whether something stands there, or the stamp isn't below this one.
    fn is_needed(&self, oldest: u64) -> bool {
        self.value.is_some() || self.stamp >= oldest
    }
}

/// A plain object: its places, in no order.
#[derive(Drop)]
pub(crate) struct Plain {
    /// How many of the cells can have a place. They come first.
    pub(crate) own: usize,
    /// Whether they are elements: one has a place only where all below it have.
    pub(crate) is_row: bool,
    pub(crate) places: Vec<PlainPlace>,
}

impl Plain {
    pub(crate) fn place(&self, cell: usize) -> Option<PlainPlace> {
        for place in &self.places {
            if place.cell == cell {
                return Some(*place);
            }
        }
        None
    }

    pub(crate) fn content(&self, index: usize, cell: &Cell) -> Content {
        match self.place(index) {
            Some(place) => content(cell, place.value),
            None => Content::Absent,
        }
    }

    pub(crate) fn present(&self) -> usize {
        self.places
            .iter()
            .filter(|place| place.value.is_some())
            .count()
    }

    /// Makes the places that the cell lacks.
    pub(crate) fn make_place(&mut self, cell: usize) -> Result<(), NoMemory> {
        if cell >= self.own {
            return Ok(());
        }
        for other in 0..=cell {
            if (other == cell || self.is_row) && self.place(other).is_none() {
                self.places.push(PlainPlace {
                    cell: other,
                    stamp: 0,
                    value: None,
                })?;
            }
        }
        Ok(())
    }

    /// Another place for a cell that has one.
    pub(crate) fn set(&mut self, place: PlainPlace) -> Result<(), NoMemory> {
        self.places.retain(|other| other.cell != place.cell);
        self.places.push(place)?;
        Ok(())
    }

    /// Whether a place is needed, or is that of an element below one whose place is.
    fn stays(&self, place: PlainPlace, oldest: u64) -> bool {
        for other in &self.places {
            let tells = other.cell == place.cell || self.is_row && other.cell > place.cell;
            if tells && other.is_needed(oldest) {
                return true;
            }
        }
        false
    }

    /// Takes away each place whose cell is absent and whose stamp is below this one, but of the places of
    /// elements only those above which none stays.
    pub(crate) fn purge(&mut self, alloc: Global, oldest: u64) -> Result<(), NoMemory> {
        let mut left = Vec::new(alloc);
        for place in &self.places {
            if self.stays(*place, oldest) {
                left.push(*place)?;
            }
        }
        self.places = left;
        Ok(())
    }

    /// Whether it can be copied: no element is missing below a present one.
    pub(crate) fn is_whole(&self) -> bool {
        for place in &self.places {
            let below = self
                .places
                .iter()
                .filter(|other| other.is_present_up_to(place.cell))
                .count();
            if self.is_row && place.value.is_some() && below <= place.cell {
                return false;
            }
        }
        true
    }

    /// The present cells with stamp 0, and with the ticks 1, 2 and so on in the order of theirs.
    pub(crate) fn copy(&self, alloc: Global) -> Result<Plain, NoMemory> {
        let mut places = Vec::new(alloc);
        for place in &self.places {
            if let Some(value) = place.value {
                places.push(PlainPlace {
                    cell: place.cell,
                    stamp: 0,
                    value: Some(Value {
                        tick: self.new_tick(value.tick),
                        holder: value.holder,
                    }),
                })?;
            }
        }
        Ok(Plain {
            own: self.own,
            is_row: self.is_row,
            places,
        })
    }

    fn new_tick(&self, tick: u32) -> u32 {
        let ticks = self
            .places
            .iter()
            .filter(|place| place.has_tick_up_to(tick))
            .count();
        u32::try_from(ticks).unwrap_or(0)
    }
}

/// A content for a cell. Without a value it is nothing, but a default is nil.
pub(crate) fn content(cell: &Cell, value: Option<Value>) -> Content
    ensures { IsTrue (is_form cell.now (shown result)) }
{
    match value {
        Some(value) => match cell {
            Cell::Key(_) => Content::Slot(u64::from(value.tick), value.holder),
            _ => Content::Held(value.holder),
        },
        None => match cell {
            Cell::Default => Content::Held(Holder::Nil),
            _ => Content::Absent,
        },
    }
}
