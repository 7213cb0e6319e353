//! A machine that keeps whole copies: what drawn stories do to their objects is done to it, too.
use std::alloc::{AllocError, Global};

/// How many properties, elements of a vector and entries of a table, with its default, a story sets.
pub(crate) const CELLS: usize = 18;

/// The cells from this one on are elements of the vector, and those before it properties.
pub(crate) const FIRST_ELEMENT: usize = 6;

/// The cells from this one on are entries of the table.
pub(crate) const FIRST_ENTRY: usize = 11;

/// The last cell is the table's default.
pub(crate) const DEFAULT: usize = 17;

/// How many objects a story makes at most.
pub(crate) const OBJECTS: usize = 40;

/// What a cell has.
#[derive(Clone, Copy, Debug)]
pub(crate) enum Content {
    /// The vector hasn't that element, or the table that key.
    Absent,
    Nil,
    Number(u8),
    /// The tads-object that was made as that one, from 0 on.
    Object(usize),
    /// The vector or the table that was made as that one.
    Container(usize),
}

/// What there is: the cells, and of each object that was made the property, element or entry that is set.
#[derive(Clone, Copy, Debug)]
struct World {
    cells: [Content; CELLS],
    objects: [Content; OBJECTS],
    made: usize,
}

/// A copy of what there was, and which cells and objects were changed since.
#[derive(Clone, Copy, Debug)]
struct Mark {
    world: World,
    changed: [bool; CELLS + OBJECTS],
    records: usize,
}

/// What there is, and the savepoints that are held, the oldest first.
#[derive(Drop)]
pub(crate) struct Plain {
    world: World,
    marks: Vec<Mark>,
    records: usize,
    savepoints: usize,
}

impl Plain {
    /// Nothing is set, neither the vector nor the table has anything, and no savepoint is held; so many savepoints are
    /// kept, with so many records together.
    pub(crate) fn new(alloc: Global, records: usize, savepoints: usize) -> Plain {
        let mut cells = [Content::Nil; CELLS];
        cells[FIRST_ELEMENT..DEFAULT].fill(Content::Absent);
        Plain {
            world: World {
                cells,
                objects: [Content::Nil; OBJECTS],
                made: 0,
            },
            marks: Vec::new(alloc),
            records,
            savepoints,
        }
    }

    /// What is read of a cell: of a key that isn't there, the default.
    pub(crate) fn content(&self, cell: usize) -> Content {
        let own = self.own(cell);
        if cell >= FIRST_ENTRY && matches!(own, Content::Absent) {
            return self.own(DEFAULT);
        }
        own
    }

    /// What a cell has.
    fn own(&self, cell: usize) -> Content {
        self.world.cells.get(cell).copied().unwrap_or(Content::Nil)
    }

    /// What was set of an object that was made.
    pub(crate) fn object(&self, number: usize) -> Content {
        self.world
            .objects
            .get(number)
            .copied()
            .unwrap_or(Content::Nil)
    }

    /// Makes a savepoint.
    pub(crate) fn save(&mut self) -> Result<(), AllocError> {
        if self.marks.len() >= self.savepoints {
            self.drop_oldest();
        }
        self.marks.push(Mark {
            world: self.world,
            changed: [false; CELLS + OBJECTS],
            records: 0,
        })?;
        Ok(())
    }

    /// Undoes to the newest savepoint, and answers whether one was held.
    pub(crate) fn undo(&mut self) -> bool {
        match self.marks.pop() {
            Some(mark) => {
                self.world = mark.world;
                true
            }
            None => false,
        }
    }

    /// Sets a cell. Elements that the vector hasn't below the one that is set become nil first, in rising order.
    pub(crate) fn set(&mut self, cell: usize, content: Content) {
        if cell >= FIRST_ELEMENT && cell < FIRST_ENTRY {
            self.fill_below(cell);
        }
        self.put(cell, content);
    }

    fn fill_below(&mut self, cell: usize) {
        for lower in FIRST_ELEMENT..cell {
            if matches!(self.content(lower), Content::Absent) {
                self.put(lower, Content::Nil);
            }
        }
    }

    /// Takes an element or an entry away, if it is there.
    pub(crate) fn take(&mut self, cell: usize) {
        if !matches!(self.own(cell), Content::Absent) {
            self.put(cell, Content::Absent);
        }
    }

    /// Gives the vector so many elements: further ones are nil.
    pub(crate) fn set_length(&mut self, length: usize) {
        let end = FIRST_ELEMENT.wrapping_add(length);
        self.fill_below(end);
        for cell in end..FIRST_ENTRY {
            self.take(cell);
        }
    }

    fn put(&mut self, cell: usize, content: Content) {
        self.note(cell);
        if let Some(place) = self.world.cells.get_mut(cell) {
            *place = content;
        }
    }

    /// Sets what is set of an object that was made.
    pub(crate) fn set_object(&mut self, number: usize, content: Content) {
        let is_older = match self.marks.last() {
            Some(mark) => number < mark.world.made,
            None => false,
        };
        if is_older {
            self.note(CELLS.wrapping_add(number));
        }
        if let Some(place) = self.world.objects.get_mut(number) {
            *place = content;
        }
    }

    /// Makes an object, and answers which it is, if there is room for it.
    pub(crate) fn make(&mut self) -> Option<usize> {
        let number = self.world.made;
        let place = self.world.objects.get_mut(number)?;
        *place = Content::Nil;
        self.world.made = number.wrapping_add(1);
        Some(number)
    }

    /// Before a change: if it is the first of its cell since the newest savepoint, a record is made, for which the oldest
    /// savepoints make room.
    fn note(&mut self, cell: usize) {
        if self.is_noted(cell) {
            return;
        }
        self.make_room();
        if let Some(mark) = self.marks.last_mut() {
            if let Some(place) = mark.changed.get_mut(cell) {
                *place = true;
            }
            mark.records = mark.records.wrapping_add(1);
        }
    }

    /// Whether the cell needs no record: the newest savepoint has one, or none is held.
    fn is_noted(&self, cell: usize) -> bool {
        match self.marks.last() {
            Some(mark) => mark.changed.get(cell).copied().unwrap_or(false),
            None => true,
        }
    }

    /// Drops the oldest savepoints until there is room for a record, or none is held.
    fn make_room(&mut self) {
        for _ in 0..self.marks.len() {
            if self.all_records() < self.records {
                return;
            }
            self.drop_oldest();
        }
    }

    /// How many records the savepoints have together.
    fn all_records(&self) -> usize {
        let mut sum: usize = 0;
        for mark in &self.marks {
            sum = sum.wrapping_add(mark.records);
        }
        sum
    }

    fn drop_oldest(&mut self) {
        if !self.marks.is_empty() {
            let _oldest = self.marks.remove(0);
        }
    }
}
