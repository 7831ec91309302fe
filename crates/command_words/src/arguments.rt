//! The values that words give to the options and the places of a command, read by clap.

ghost use Rattle.std.specs.Prelude.{◌≡◌, ℕ, List, true, codes, drop, fold, map, option_map, string_bytes, IfOk, MatchOption};
ghost use Rattle.clap.specs.Words.{app_of, with_rule};
ghost use Rattle.command_words.specs.Given.{Give, Values, completed, value_of};
ghost use Rattle.command_words.specs.Clap.{Hold, app, are_names, option_rule, place_rule, row_seen};

use crate::options::OptionRow;
use clap::error::ErrorKind;
use clap::{Arg, ArgAction, ArgMatches, Command};
use mg_word::NoMemory;
use std::alloc::{AllocError, Global};

/// The values of options and places.
#[derive(Drop)]
pub(crate) struct Arguments<'a> {
    matches: ArgMatches<'a>,
}

impl<'a> Arguments<'a> {
    /// The value of an option or a place, if it is given.
    pub(crate) fn value(&self, name: &str) -> Option<&'a str>
        ensures { (values : Values) → Hold self.now values → option_map (λ value. value.now) result ≡ value_of name.now values }
    {
        self.matches.get_str(name)
    }
}

// The command with these options.
fn with_options<'a>(
    alloc: Global,
    mut command: Command<'a>,
    options: &'a [OptionRow],
) -> Result<Command<'a>, AllocError>
    ensures { IfOk result (λ made. app_of made ≡ fold with_rule (app_of command.entry) (map (λ row. option_rule (row_seen row)) options.now)) }
{
    for row in options {
        let action = if row.takes_value {
            ArgAction::Set
        } else {
            ArgAction::SetTrue
        };
        command = command.arg(Arg::new(alloc, row.name).long(row.name).action(action))?;
    }
    Ok(command)
}

// The command with these places.
fn with_places<'a>(
    alloc: Global,
    mut command: Command<'a>,
    places: &'a [&'a str],
) -> Result<Command<'a>, AllocError>
    ensures { IfOk result (λ made. app_of made ≡ fold with_rule (app_of command.entry) (map (λ name. place_rule name.now) places.now)) }
{
    for name in places {
        command = command.arg(Arg::new(alloc, name).required(true))?;
    }
    Ok(command)
}

// The command with these options and places, as clap takes it.
fn command_with<'a>(
    alloc: Global,
    options: &'a [OptionRow],
    places: &'a [&'a str],
) -> Result<Command<'a>, AllocError>
    ensures { IfOk result (λ made. app_of made ≡ app (codes "mgtp") (map row_seen options.now) (map (λ name. name.now) places.now)) }
{
    let bare = Command::new(alloc, "mgtp").disable_help_flag(true);
    with_places(alloc, with_options(alloc, bare, options)?, places)
}

/// The values that the words behind the first give to these options and places, and `None` where they give none. A flag
/// has the value `true` or `false`.
pub(crate) fn read_arguments<'a>(
    alloc: Global,
    options: &'a [OptionRow],
    places: &'a [&'a str],
    words: &'a [String],
) -> Result<Option<Arguments<'a>>, NoMemory>
    requires { are_names (map row_seen options.now) (map (λ name. name.now) places.now) ≡ true }
    ensures { IfOk result (λ found. MatchOption found
        ((values : Values) → Give (map row_seen options.entry.now) (map (λ name. name.now) places.entry.now) (drop 1 (map string_bytes words.entry.now)) values → ⊥)
        (λ given. (values : Values) × Give (map row_seen options.entry.now) (map (λ name. name.now) places.entry.now) (drop 1 (map string_bytes words.entry.now)) values × Hold given (completed (map row_seen options.entry.now) values))) }
{
    match command_with(alloc, options, places)?.try_get_matches_from(words) {
        Ok(matches) => Ok(Some(Arguments { matches })),
        Err(error) => {
            if error.kind() == ErrorKind::OutOfMemory {
                return Err(NoMemory);
            }
            Ok(None)
        }
    }
}
