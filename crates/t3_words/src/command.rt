//! The commands, and which one the words are.

use crate::verbs::{asm, check, drill, list, rewrite, run, show};

/// What the words ask for.
#[derive(Clone, Copy, Debug, PartialEq, Eq)]
pub enum Command<'w> {
    /// Says whether a file is an image.
    Check {
        image: &'w str,
    },
    /// Shows the blocks of an image.
    Show {
        image: &'w str,
    },
    /// Runs an image.
    Run {
        image: &'w str,
        options: RunOptions,
    },
    /// Writes an image anew, with its pages under the mask, where one is given.
    Rewrite {
        image: &'w str,
        out: &'w str,
        mask: Option<u8>,
    },
    /// Writes the source that an image is listed as.
    List {
        image: &'w str,
        out: &'w str,
    },
    /// Assembles a source into an image.
    Asm {
        source: &'w str,
        out: &'w str,
    },
    /// Runs the image that is made for a number, from 0 to 200.
    Drill {
        number: u8,
    },
}

/// What a run is told besides its image.
#[derive(Clone, Copy, Debug, PartialEq, Eq)]
pub struct RunOptions {
    /// How many steps it makes at most, from 1 on.
    pub steps: u32,
    /// How many cells changed since its savepoints it keeps at most, from 1 to 1,048,576.
    pub records: u32,
    /// How many savepoints it holds at most, from 1 to 1024.
    pub savepoints: u32,
    /// How wide its lines are, from 1 to 1000.
    pub width: u16,
}

impl<'w> Command<'w> {
    ghost use Rattle.std.specs.Prelude.{◌≡◌, IfSome, map, string_bytes};
    ghost use Rattle.std.specs.Option.{option_map};
    ghost use Rattle.t3_words.specs.Command.{command_value, IsWellFormed};
    ghost use Rattle.t3_words.specs.Input.{input_of, file_of, out_of};
    ghost use Rattle.t3_words.specs.Verbs.{command_of};

    /// The command that the words are, if they are one.
    pub fn parse(words: &'w [String]) -> Option<Command<'w>>
        ensures command { option_map command_value result
            ≡ command_of (map string_bytes words.now) }
        ensures well_formed { IfSome result (λ command. IsWellFormed (command_value command)) }
    {
        let [verb, words @ ..] = words else {
            return None;
        };
        match verb.as_str() {
            "check" => check(words),
            "show" => show(words),
            "run" => run(words),
            "rewrite" => rewrite(words),
            "list" => list(words),
            "asm" => asm(words),
            "drill" => drill(words),
            _ => None,
        }
    }

    /// The file that the command reads. A drill reads none: its name is empty, which no file's is.
    pub fn file(self) -> &'w str
        ensures { result.now ≡ file_of (input_of (command_value self.entry)) }
    {
        match self {
            Command::Check { image }
            | Command::Show { image }
            | Command::Run { image, .. }
            | Command::Rewrite { image, .. }
            | Command::List { image, .. } => image,
            Command::Asm { source, .. } => source,
            Command::Drill { .. } => "",
        }
    }

    /// The file that the command puts, or the one that it reads where it puts none.
    pub fn out(self) -> &'w str
        ensures { result.now ≡ out_of (command_value self.entry) }
    {
        match self {
            Command::Rewrite { out, .. } | Command::List { out, .. } | Command::Asm { out, .. } =>
                out,
            _ => self.file(),
        }
    }
}
