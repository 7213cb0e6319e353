//! The options after a command's names.
ghost use Rattle.std.specs.Prelude.{◌≡◌, map, string_bytes, nat_eq, IfSome, [], Some};
ghost use Rattle.std.specs.List.{list_all, list_any, starts_with};
ghost use Rattle.std.specs.Option.{option_map, option_copied};
ghost use Rattle.t3_words.specs.Options.{values_of, value_after as value_of, number_of, IsWithin};
ghost use Rattle.t3_words.specs.Command.{options_value, default_options, AreWithin};
ghost use Rattle.t3_words.specs.Verbs.{mask_of, run_options as run_options_of};
ghost use Rattle.t3_words.specs.Inner.Parsing.{only_value as only_value_of, row_value};

use crate::command::RunOptions;
use crate::number::number_within;

/// An option with a number.
#[derive(Clone, Copy)]
struct NumberOption {
    /// What its word begins with.
    prefix: &'static str,
    /// The number where it isn't given.
    default: u32,
    /// The least that may be given.
    least: u32,
    /// The most that may be given.
    most: u32,
}

const STEPS: NumberOption = NumberOption {
    prefix: "--steps=",
    default: 100_000_000,
    least: 1,
    most: u32::MAX,
};

const RECORDS: NumberOption = NumberOption {
    prefix: "--records=",
    default: 65_536,
    least: 1,
    most: 1_048_576,
};

const SAVEPOINTS: NumberOption = NumberOption {
    prefix: "--savepoints=",
    default: 128,
    least: 1,
    most: 1024,
};

const WIDTH: NumberOption = NumberOption {
    prefix: "--width=",
    default: 79,
    least: 1,
    most: 1000,
};

const MASK: &str = "--mask=";

impl RunOptions {
    /// Those of a run that is told none.
    pub fn defaults() -> RunOptions
        ensures options { options_value result ≡ default_options }
        ensures within { AreWithin default_options }
        ensures told_none { run_options_of [] ≡ Some default_options }
    {
        RunOptions {
            steps: STEPS.default,
            records: RECORDS.default,
            savepoints: SAVEPOINTS.default,
            width: WIDTH.default as u16,
        }
    }
}

/// The options of a run.
pub(crate) fn run_options(words: &[String]) -> Option<RunOptions>
    ensures options { option_map options_value result
        ≡ run_options_of (map string_bytes words.now) }
    ensures within { IfSome result (λ options. AreWithin (options_value options)) }
{
    let prefixes = [
        STEPS.prefix,
        RECORDS.prefix,
        SAVEPOINTS.prefix,
        WIDTH.prefix,
    ];
    if !are_all_given(&prefixes, words) {
        return None;
    }
    let steps = number_option(STEPS, words)?;
    let records = number_option(RECORDS, words)?;
    let savepoints = number_option(SAVEPOINTS, words)?;
    let width = number_option(WIDTH, words)? as u16;
    Some(RunOptions {
        steps,
        records,
        savepoints,
        width,
    })
}

/// The mask that a rewriting is given, if it is given one.
pub(crate) fn mask(words: &[String]) -> Option<Option<u8>>
    ensures { result ≡ mask_of (map string_bytes words.now) }
{
    if !are_all_given(&[MASK], words) {
        return None;
    }
    match only_value(MASK, words)? {
        None => Some(None),
        Some(value) => Some(Some(number_within(value, 0, u8::MAX as u32)? as u8)),
    }
}

/// The number that an option is given as, or the default.
fn number_option(option: NumberOption, words: &[String]) -> Option<u32>
    requires { IsWithin (row_value option) option.default }
    ensures number { result ≡ number_of (row_value option) (map string_bytes words.now) }
    ensures within { IfSome result (IsWithin (row_value option)) }
{
    match only_value(option.prefix, words)? {
        None => Some(option.default),
        Some(value) => number_within(value, option.least, option.most),
    }
}

/// Whether each word begins with one of the prefixes.
fn are_all_given(prefixes: &[&str], words: &[String]) -> bool
    ensures { result ≡ list_all (λ word. list_any (λ prefix. starts_with nat_eq word prefix.now)
        prefixes.now) (map string_bytes words.now) }
{
    for word in words {
        if !is_one_of(prefixes, word.as_str()) {
            return false;
        }
    }
    true
}

/// Whether a word begins with one of the prefixes.
fn is_one_of(prefixes: &[&str], word: &str) -> bool
    ensures { result ≡ list_any (λ prefix. starts_with nat_eq word.now prefix.now) prefixes.now }
{
    prefixes.iter().any(|prefix| begins_with(prefix, word))
}

#[tactic(auto, using(std::proofs::lemmas::Str::Pattern::starts_text))]
fn begins_with(prefix: &str, word: &str) -> bool
    ensures { result ≡ starts_with nat_eq word.now prefix.now }
{
    word.starts_with(prefix)
}

/// What stands after the prefix, where one word begins with it. None where several do.
fn only_value<'w>(prefix: &str, words: &'w [String]) -> Option<Option<&'w str>>
    ensures { option_map option_copied result ≡ only_value_of
        (values_of prefix.now (map string_bytes words.now)) }
{
    let mut found = None;
    for word in words {
        if let Some(value) = value_after(prefix, word) {
            if found.is_some() {
                return None;
            }
            found = Some(value);
        }
    }
    Some(found)
}

/// What a word has after the prefix, if it begins with it.
#[tactic(auto, using(crate::proofs::OptionValues::stripped_value))]
fn value_after<'w>(prefix: &str, word: &'w String) -> Option<&'w str>
    ensures { option_copied result ≡ value_of prefix.now (string_bytes word.now) }
{
    word.as_str().strip_prefix(prefix)
}
