//! The page as its callers see it.
ghost use Rattle.std.specs.Prelude.{◌≡◌, ◌<◌, ℕ, List, [], ◌++◌, IfOk, OnErr};
ghost use Rattle.t3_console.specs.Rendering.{rendering, closed_rendering};
ghost use Rattle.t3_console.specs.Page.{page_after, HasTaken, Says, Ends};
ghost use Rattle.t3_console.specs.Inner.Ending.{EndsLine};

use crate::words::{Line, put_rest, say_words};
use std::alloc::Global;
use std::marker::Model;
use t3_holder::NoMemory;

/// A page of some width, on which text is said in pieces.
///
/// Contracts see its width, the column that the line has come to, and the word that isn't ended. Of
/// the text that it has taken since it was made, rested or closed, all is put out up to the last
/// separator, which is a space, a tab or a newline.
#[derive(Drop)]
pub struct Page {
    line: Line,
    word: Vec<u8>,
}

impl Model for Page {
    ghost use Rattle.t3_console.specs.Page.{PageValue};

    ghost Value = { PageValue };

    ghost view = { λ p. record {
      width = p.line.width;
      column = p.line.column;
      word = p.word.items;
    } };
}

impl Page {
    /// A page that has taken nothing. It takes no memory.
    pub fn new(alloc: Global, width: u16) -> Page
        requires { 0 < width }
        ensures { result ≡ page_after width [] }
    {
        Page {
            line: Line {
                width,
                column: None,
            },
            word: Vec::new(alloc),
        }
    }

    /// Takes the next piece of the text, and puts out what can be put out of it.
    ///
    /// Where memory is wanting, page and `out` are as before.
    pub fn say(&mut self, text: &[u8], out: &mut Vec<u8>) -> Result<(), NoMemory>
        ensures said { IfOk result (λ _. (taken : List ℕ) → HasTaken self.old taken
            → Says taken text.now self.old self.new out.old.items out.new.items) }
        ensures page { OnErr result (self.new ≡ self.old) }
        ensures out { OnErr result (out.new.items ≡ out.old.items) }
    {
        let before = out.len();
        match say_words(self.line, &mut self.word, text, out) {
            Ok(column) => {
                self.line.column = column;
                Ok(())
            }
            Err(refusal) => {
                out.truncate(before);
                Err(refusal)
            }
        }
    }

    /// Puts out what remains of the text, and begins a new one at column 0.
    ///
    /// Where memory is wanting, page and `out` are as before.
    pub fn rest(&mut self, out: &mut Vec<u8>) -> Result<(), NoMemory>
        ensures ended { IfOk result (λ _. (taken : List ℕ) → HasTaken self.old taken
            → Ends taken (rendering self.old.width taken)
            self.old self.new out.old.items out.new.items) }
        ensures page { OnErr result (self.new ≡ self.old) }
        ensures out { OnErr result (out.new.items ≡ out.old.items) }
    {
        self.end(false, out)
    }

    /// Puts out what remains of the text, ends the last line if it isn't empty, and begins a new
    /// text.
    ///
    /// Where memory is wanting, page and `out` are as before.
    pub fn close(&mut self, out: &mut Vec<u8>) -> Result<(), NoMemory>
        ensures ended { IfOk result (λ _. (taken : List ℕ) → HasTaken self.old taken
            → Ends taken (closed_rendering self.old.width taken)
            self.old self.new out.old.items out.new.items) }
        ensures page { OnErr result (self.new ≡ self.old) }
        ensures out { OnErr result (out.new.items ≡ out.old.items) }
    {
        self.end(true, out)
    }

    /// Ends the text, and its last line where `is_closed` says so.
    fn end(&mut self, is_closed: bool, out: &mut Vec<u8>) -> Result<(), NoMemory>
        ensures ended { IfOk result (λ _.
            EndsLine self.old self.new is_closed out.old.items out.new.items) }
        ensures page { OnErr result (self.new ≡ self.old) }
        ensures out { OnErr result (out.new.items ≡ out.old.items) }
    {
        let start = out.len();
        match put_rest(self.line, &self.word, is_closed, out) {
            Ok(()) => {
                self.line.column = None;
                self.word.clear();
                Ok(())
            }
            Err(refusal) => {
                out.truncate(start);
                Err(refusal)
            }
        }
    }
}
