//! What each verb's words are.
ghost use Rattle.std.specs.Prelude.{map, string_bytes};
ghost use Rattle.std.specs.Option.{option_map};
ghost use Rattle.t3_words.specs.Command.{Check, Show, Listing, Asm};
ghost use Rattle.t3_words.specs.Verbs.{run_of, rewrite_of, drill_of, only_name as only_name_of, two_names as two_names_of};
ghost use Rattle.t3_words.specs.Inner.Parsing.{IsRead};

use crate::command::Command;
use crate::names::{file_name, only_name, two_names};
use crate::number::number_within;
use crate::options::{mask, run_options};

/// The greatest number of a drill.
const DRILL_LIMIT: u32 = 200;

pub(crate) fn check<'w>(words: &'w [String]) -> Option<Command<'w>>
    ensures { IsRead (option_map Check (only_name_of (map string_bytes words.now))) result }
{
    let image = only_name(words)?;
    Some(Command::Check { image })
}

pub(crate) fn show<'w>(words: &'w [String]) -> Option<Command<'w>>
    ensures { IsRead (option_map Show (only_name_of (map string_bytes words.now))) result }
{
    let image = only_name(words)?;
    Some(Command::Show { image })
}

pub(crate) fn run<'w>(words: &'w [String]) -> Option<Command<'w>>
    ensures { IsRead (run_of (map string_bytes words.now)) result }
{
    let [image, words @ ..] = words else {
        return None;
    };
    let image = file_name(image.as_str())?;
    let options = run_options(words)?;
    Some(Command::Run { image, options })
}

pub(crate) fn rewrite<'w>(words: &'w [String]) -> Option<Command<'w>>
    ensures { IsRead (rewrite_of (map string_bytes words.now)) result }
{
    let [image, out, words @ ..] = words else {
        return None;
    };
    let image = file_name(image.as_str())?;
    let out = file_name(out.as_str())?;
    let mask = mask(words)?;
    Some(Command::Rewrite { image, out, mask })
}

pub(crate) fn list<'w>(words: &'w [String]) -> Option<Command<'w>>
    ensures { IsRead (option_map (λ names. Listing names.0 names.1)
        (two_names_of (map string_bytes words.now))) result }
{
    let (image, out) = two_names(words)?;
    Some(Command::List { image, out })
}

pub(crate) fn asm<'w>(words: &'w [String]) -> Option<Command<'w>>
    ensures { IsRead (option_map (λ names. Asm names.0 names.1)
        (two_names_of (map string_bytes words.now))) result }
{
    let (source, out) = two_names(words)?;
    Some(Command::Asm { source, out })
}

pub(crate) fn drill<'w>(words: &'w [String]) -> Option<Command<'w>>
    ensures { IsRead (drill_of (map string_bytes words.now)) result }
{
    match words {
        [number] => {
            let number = number_within(number.as_str(), 0, DRILL_LIMIT)? as u8;
            Some(Command::Drill { number })
        }
        _ => None,
    }
}
