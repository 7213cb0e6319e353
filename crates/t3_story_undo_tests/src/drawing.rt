//! A story whose savepoints, undos, changes and objects are drawn, and what it shows by the machine of whole copies.
use crate::plain::{CELLS, Content, DEFAULT, FIRST_ELEMENT, FIRST_ENTRY, Plain};
use std::alloc::{AllocError, Global};

/// How many actions a story has.
const ACTIONS: u32 = 48;

/// The keys of the table's entries; the last but one is a string that the story has made, and the last is never set.
const KEYS: [&str; 7] = [
    "pushnil",
    "pushtrue",
    "pushint8 3",
    "pushenum 7",
    "pushobj 1",
    "getlcl1 2",
    "pushobj 3",
];

/// Sets the table's default.
const SETS_DEFAULT: &str = " / getlcl1 1 / callprop 1 110";

/// What a story begins with, in a function of its own: its locals are a vector, a table, a string and a transient object.
const BEGINS: &str =
    "call 0 @drawn / retnil / drawn: / method 0 4 8 0 / push_0 / new1 1 3 / getr0 / setlcl1 0 / \
                      new1 0 4 / getr0 / setlcl1 1 / pushint8 65 / builtin_a 1 20 / getr0 / setlcl1 2 / \
                      trnew1 0 0 / getr0 / setlcl1 3";

/// The number of the object that is made next, after the vector, the table and the string.
const FIRST_NEXT: u32 = 7;

/// Numbers that look random, each from the one before.
#[derive(Drop)]
struct Draw(u32);

impl Draw {
    /// The next number, below a limit.
    fn below(&mut self, limit: u8) -> u8 {
        self.0 = self.0.wrapping_mul(1_103_515_245).wrapping_add(12_345);
        let number = self.0.to_le_bytes()[2];
        number.checked_rem(limit).unwrap_or(0)
    }
}

/// A story's body, and what it shows, as far as they have come, beside the machine of whole copies.
#[derive(Drop)]
pub(crate) struct Story {
    pub(crate) body: String,
    pub(crate) shows: String,
    plain: Plain,
    /// The property of the transient object, which no undo changes.
    transient: Content,
    /// The number of the object that is made next.
    next: u32,
}

impl Story {
    /// A story without actions.
    fn new(alloc: Global, records: usize, savepoints: usize) -> Result<Story, AllocError> {
        Ok(Story {
            body: String::from_str(alloc, BEGINS)?,
            shows: String::new(alloc),
            plain: Plain::new(alloc, records, savepoints),
            transient: Content::Nil,
            next: FIRST_NEXT,
        })
    }

    /// Adds an action that is drawn.
    fn act(&mut self, alloc: Global, draw: &mut Draw) -> Result<(), AllocError> {
        let cell = usize::from(draw.below(18));
        let number = draw.below(99);
        match draw.below(24) {
            0 | 1 | 2 => self.save(),
            3 | 4 | 5 => self.undo(),
            6 => self.set(alloc, cell, Content::Nil),
            7 => self.set_transient(alloc, number),
            8 => self.make(alloc, cell, "new1 0 0", true),
            9 => self.make(alloc, cell, "push_1 / push_1 / new1 2 3", false),
            10 => self.make(alloc, cell, "new1 0 4", false),
            11 | 12 | 13 | 14 => self.set_in(alloc, cell, number),
            15 => self.take(alloc, cell),
            16 => self.set_length(alloc, draw.below(6)),
            _ => self.set(alloc, cell, Content::Number(number)),
        }
    }

    fn save(&mut self) -> Result<(), AllocError> {
        self.plain.save()?;
        self.body.push_str(" / builtin_a 0 13")
    }

    fn undo(&mut self) -> Result<(), AllocError> {
        let answer = if self.plain.undo() { "true" } else { "nil" };
        self.shows.push_str(answer)?;
        self.body.push_str(" / builtin_a 0 14 / getr0")?;
        self.show_topmost()
    }

    /// Sets a cell to a number or to nil.
    fn set(&mut self, alloc: Global, cell: usize, content: Content) -> Result<(), AllocError> {
        self.plain.set(cell, content);
        self.push(alloc, content)?;
        self.body.push_str(set_line(alloc, cell)?.as_str())
    }

    /// Pushes a number or nil.
    fn push(&mut self, alloc: Global, content: Content) -> Result<(), AllocError> {
        match content {
            Content::Number(number) => {
                let line = format!(in alloc; " / pushint8 {number}")?;
                self.body.push_str(line.as_str())
            }
            _ => self.body.push_str(" / pushnil"),
        }
    }

    /// Takes an entry away, if the cell is one that can be.
    fn take(&mut self, alloc: Global, cell: usize) -> Result<(), AllocError> {
        if cell < FIRST_ENTRY || cell == DEFAULT {
            return Ok(());
        }
        self.plain.take(cell);
        let key = key(cell);
        let line = format!(in alloc; " / {key} / getlcl1 1 / callprop 1 101")?;
        self.body.push_str(line.as_str())
    }

    /// Gives the vector so many elements.
    fn set_length(&mut self, alloc: Global, length: u8) -> Result<(), AllocError> {
        self.plain.set_length(usize::from(length));
        let line = format!(in alloc; " / pushint8 {length} / getlcl1 0 / callprop 1 220")?;
        self.body.push_str(line.as_str())
    }

    /// Sets the property of the transient object.
    fn set_transient(&mut self, alloc: Global, number: u8) -> Result<(), AllocError> {
        self.transient = Content::Number(number);
        self.push(alloc, self.transient)?;
        self.body.push_str(" / getlcl1 3 / setprop 4")
    }

    /// Makes an object by these lines, and sets a cell to it.
    fn make(
        &mut self,
        alloc: Global,
        cell: usize,
        lines: &str,
        is_tads_object: bool,
    ) -> Result<(), AllocError> {
        let Some(number) = self.plain.make() else {
            return Ok(());
        };
        self.next = self.next.wrapping_add(1);
        let content = if is_tads_object {
            Content::Object(number)
        } else {
            Content::Container(number)
        };
        self.plain.set(cell, content);
        let made = format!(in alloc; " / {lines} / getr0")?;
        self.body.push_str(made.as_str())?;
        self.body.push_str(set_line(alloc, cell)?.as_str())
    }

    /// Sets what is set of the object that a cell has, if it has one.
    fn set_in(&mut self, alloc: Global, cell: usize, number: u8) -> Result<(), AllocError> {
        let (object, sets) = match self.plain.content(cell) {
            Content::Object(object) => (object, " / setprop 4"),
            Content::Container(object) => (object, " / push_1 / setind / disc"),
            _ => return Ok(()),
        };
        let content = Content::Number(number);
        self.plain.set_object(object, content);
        self.push(alloc, content)?;
        self.body.push_str(get_line(alloc, cell)?.as_str())?;
        self.body.push_str(sets)
    }

    /// What is shown of a cell: what it has, or what is set of the object that it has; and what reads that of the object.
    fn seen(&self, cell: usize) -> (Content, &'static str) {
        let content = self.plain.content(cell);
        match content {
            Content::Object(object) => (self.plain.object(object), " / getprop 4 / getr0"),
            Content::Container(object) => (self.plain.object(object), " / push_1 / index"),
            _ => (content, ""),
        }
    }

    /// Shows what a cell has, if it is there.
    fn show(&mut self, alloc: Global, cell: usize) -> Result<(), AllocError> {
        let (content, reads) = self.seen(cell);
        if matches!(content, Content::Absent) {
            return Ok(());
        }
        self.body.push_str(get_line(alloc, cell)?.as_str())?;
        self.body.push_str(reads)?;
        self.show_content(alloc, content)
    }

    /// Shows the topmost operand, which is this.
    fn show_content(&mut self, alloc: Global, content: Content) -> Result<(), AllocError> {
        match content {
            Content::Number(number) => {
                let text = format!(in alloc; "{number}")?;
                self.shows.push_str(text.as_str())?;
            }
            _ => self.shows.push_str("nil")?,
        }
        self.show_topmost()
    }

    /// Shows the topmost operand, of which a string is made.
    fn show_topmost(&mut self) -> Result<(), AllocError> {
        self.next = self.next.wrapping_add(1);
        self.body.push_str(" / call 1 @show")
    }

    /// Shows the property of the transient object.
    fn show_transient(&mut self, alloc: Global) -> Result<(), AllocError> {
        self.body.push_str(" / getlcl1 3 / getprop 4 / getr0")?;
        self.show_content(alloc, self.transient)
    }

    /// Ends the story by the element behind the last, which isn't there: the exception has the next number.
    fn end(&mut self, alloc: Global) -> Result<(), AllocError> {
        let behind = self.length().wrapping_add(1);
        let line = format!(in alloc; " / getlcl1 0 / pushint8 {behind} / index / retnil")?;
        self.body.push_str(line.as_str())?;
        let next = self.next;
        let shown = format!(in alloc; "\n[unhandled object={next} fault=6]\n")?;
        self.shows.push_str(shown.as_str())
    }

    /// How many elements the vector has.
    fn length(&self) -> usize {
        let mut count: usize = 0;
        for cell in FIRST_ELEMENT..FIRST_ENTRY {
            if !matches!(self.plain.content(cell), Content::Absent) {
                count = count.wrapping_add(1);
            }
        }
        count
    }
}

/// What names a cell behind the value that it is to get: properties 8 and 10 of objects 1 to 3, elements 1 to 5 of the
/// vector, the entries of the table under its keys, and its default.
fn set_line(alloc: Global, cell: usize) -> Result<String, AllocError> {
    if cell < FIRST_ELEMENT {
        let object = (cell / 2).wrapping_add(1);
        let property = (cell % 2).wrapping_mul(2).wrapping_add(8);
        return format!(in alloc; " / objsetprop {object} {property}");
    }
    if cell == DEFAULT {
        return String::from_str(alloc, SETS_DEFAULT);
    }
    let container = container_line(alloc, cell)?;
    format!(in alloc; "{container} / setind / disc")
}

/// What pushes what a cell has.
fn get_line(alloc: Global, cell: usize) -> Result<String, AllocError> {
    if cell < FIRST_ELEMENT {
        let object = (cell / 2).wrapping_add(1);
        let property = (cell % 2).wrapping_mul(2).wrapping_add(8);
        return format!(in alloc; " / objgetprop {object} {property} / getr0");
    }
    let container = container_line(alloc, cell)?;
    format!(in alloc; "{container} / index")
}

/// What pushes the vector or the table of a cell, and its index or its key.
fn container_line(alloc: Global, cell: usize) -> Result<String, AllocError> {
    if cell < FIRST_ENTRY {
        let index = cell.wrapping_sub(FIRST_ELEMENT).wrapping_add(1);
        return format!(in alloc; " / getlcl1 0 / pushint8 {index}");
    }
    let key = key(cell);
    format!(in alloc; " / getlcl1 1 / {key}")
}

/// What pushes the key of an entry, or one that the table never has.
fn key(cell: usize) -> &'static str {
    KEYS.get(cell.wrapping_sub(FIRST_ENTRY))
        .copied()
        .unwrap_or("pushobj 3")
}

/// The actions of a seed.
fn acted(alloc: Global, seed: u32, records: usize, savepoints: usize) -> Result<Story, AllocError> {
    let mut story = Story::new(alloc, records, savepoints)?;
    let mut draw = Draw(seed);
    for _ in 0..ACTIONS {
        story.act(alloc, &mut draw)?;
    }
    Ok(story)
}

/// The drawn story of a seed, under these limits: its actions, and behind them it shows each cell.
pub(crate) fn drawn(
    alloc: Global,
    seed: u32,
    records: usize,
    savepoints: usize,
) -> Result<Story, AllocError> {
    let mut story = acted(alloc, seed, records, savepoints)?;
    for cell in 0..CELLS {
        story.show(alloc, cell)?;
    }
    story.show_transient(alloc)?;
    story.end(alloc)?;
    Ok(story)
}
