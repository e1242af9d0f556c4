//! The table of the words that name a verb.

ghost use Rattle.std.specs.Prelude.{◌≡◌, ◌<◌, MatchOption, map, get_or, string_bytes};
ghost use Rattle.dbn_top.specs.Words as table;

use crate::verb::Verb;
use clap::{Arg, ArgAction, Command};
use std::alloc::Global;
use std::str;

// The greatest number of `--every`.
const MOST_EVERY: u64 = 1_000_000_000;

// The greatest number of `--size`.
const MOST_SIZE: u64 = 1_000_000;

// The size of a demo without `--size`.
const USUAL_SIZE: u64 = 2000;

// The first byte, or zero.
fn first_byte(bytes: &[u8]) -> u8
    ensures { result ≡ get_or bytes.now 0 0 }
{
    bytes.first().copied().unwrap_or(0)
}

// The number from 1 to `most` that the digits are.
fn number_of(most: u64, digits: &[u8]) -> Option<u64>
    ensures { result ≡ table.number_of most digits.now }
{
    if first_byte(digits) < b'1' {
        return None;
    }
    let Ok(text) = str::from_utf8(digits) else {
        return None;
    };
    match text.parse::<u64>() {
        Ok(number) if number <= most => Some(number),
        _ => None,
    }
}

fn one_word(verb: &str) -> Option<Verb>
    ensures { result ≡ table.one_word verb.now }
{
    if verb == "check" {
        return Some(Verb::Check);
    }
    if verb == "try" {
        return Some(Verb::Try);
    }
    if verb == "new" {
        return Some(Verb::New);
    }
    if verb == "run" {
        return Some(Verb::Run(None));
    }
    if verb == "dump" {
        return Some(Verb::Dump);
    }
    if verb == "demo" {
        return Some(Verb::Demo(USUAL_SIZE));
    }
    None
}

fn two_words(verb: &str, option: &str) -> Option<Verb>
    ensures { result ≡ table.two_words verb.now option.now }
{
    if verb == "run" {
        let digits = option.as_bytes().strip_prefix(b"--every=".as_slice())?;
        let number = number_of(MOST_EVERY, digits)?;
        return Some(Verb::Run(Some(number)));
    }
    if verb == "demo" {
        let digits = option.as_bytes().strip_prefix(b"--size=".as_slice())?;
        let size = number_of(MOST_SIZE, digits)?;
        return Some(Verb::Demo(size));
    }
    None
}

fn three_words(verb: &str, option: &str, number: &str) -> Option<Verb>
    ensures { result ≡ table.three_words verb.now option.now number.now }
{
    if verb == "run" && option == "--every" {
        let number = number_of(MOST_EVERY, number.as_bytes())?;
        return Some(Verb::Run(Some(number)));
    }
    if verb == "demo" && option == "--size" {
        let size = number_of(MOST_SIZE, number.as_bytes())?;
        return Some(Verb::Demo(size));
    }
    None
}

/// The verb that the words name, or nothing where they name none.
pub(crate) fn verb_of(words: &[String]) -> Option<Verb>
    ensures { result ≡ table.verb_of (map string_bytes words.now) }
{
    match words {
        [verb] => one_word(verb.as_str()),
        [verb, option] => two_words(verb.as_str(), option.as_str()),
        [verb, option, number] => three_words(verb.as_str(), option.as_str(), number.as_str()),
        _ => None,
    }
}

// The number of the option with that name, or nothing where clap refuses the words behind the verb.
fn option_number(alloc: Global, name: &str, words: &[String]) -> Option<u64> {
    let option = Arg::new(alloc, name).long(name).action(ArgAction::Set);
    let Ok(command) = Command::new(alloc, "dbnet")
        .no_binary_name(true)
        .disable_help_flag(true)
        .disable_version_flag(true)
        .arg(option)
    else {
        return None;
    };
    let Ok(matches) = command.try_get_matches_from(words) else {
        return None;
    };
    matches.get_one::<u64>(name)
}

/// Whether clap takes this number as the value of the option with that name. It refuses words that the table has for want of
/// memory alone.
pub(crate) fn takes_option(alloc: Global, name: &str, words: &[String], number: u64) -> bool {
    match words {
        [_verb, options @ ..] => option_number(alloc, name, options) == Some(number),
        [] => false,
    }
}
