//! The words of the command line.
ghost use Rattle.std.specs.Prelude.{◌≡◌, IfOk, false, map, option_map, string_bytes};
ghost use Rattle.clap.specs.Matches.{found_of};
ghost use Rattle.clap.specs.Simple.{app_of};
ghost use Rattle.clap.specs.Walk.{rows_of, rule_of};
ghost use Rattle.tower_words.specs.Words.{given_by, given_in, given_of, has_only, is_allowed, option, positional, towerc};

use clap::error::ErrorKind;
use clap::{Arg, ArgMatches, Command};
use std::alloc::{AllocError, Global};

/// The words of a command, of which each was given in its form.
#[derive(Clone, Copy)]
pub struct Given<'a> {
    pub command: &'a str,
    pub file: &'a str,
    pub record_name: Option<&'a str>,
    pub choices_name: Option<&'a str>,
    pub order_name: Option<&'a str>,
    pub steps: Option<&'a str>,
    pub policy: Option<&'a str>,
    pub cores: Option<&'a str>,
    pub listing_name: Option<&'a str>,
    pub notes_name: Option<&'a str>,
    pub rate: Option<&'a str>,
    pub gap: Option<&'a str>,
}

/// A word at its place, which must be there.
fn positional<'a>(alloc: Global, id: &'a str) -> Arg<'a>
    ensures rule { rule_of result ≡ positional id.entry.now }
    ensures local { result.global ≡ false }
{
    Arg::new(alloc, id).required(true)
}

/// An option with one value.
fn option<'a>(alloc: Global, id: &'a str) -> Arg<'a>
    ensures rule { rule_of result ≡ option id.entry.now }
    ensures local { result.global ≡ false }
{
    Arg::new(alloc, id).long(id)
}

/// The simple command by which the words are read.
fn towerc<'a>(alloc: Global) -> Result<Command<'a>, AllocError>
    ensures { IfOk result (λ c. app_of c ≡ towerc) }
{
    let towerc = Command::new(alloc, "towerc")
        .arg(positional(alloc, "command"))?
        .arg(positional(alloc, "file"))?
        .arg(option(alloc, "record"))?
        .arg(option(alloc, "choices"))?
        .arg(option(alloc, "order"))?
        .arg(option(alloc, "steps"))?
        .arg(option(alloc, "policy"))?
        .arg(option(alloc, "cores"))?
        .arg(option(alloc, "listing"))?
        .arg(option(alloc, "notes"))?
        .arg(option(alloc, "rate"))?
        .arg(option(alloc, "gap"))?;
    Ok(towerc)
}

/// What the matches have.
fn given_in<'a>(matches: &ArgMatches<'a>) -> Option<Given<'a>>
    ensures { option_map given_of result ≡ given_in (rows_of (found_of matches.now)) }
{
    Some(Given {
        command: matches.get_str("command")?,
        file: matches.get_str("file")?,
        record_name: matches.get_str("record"),
        choices_name: matches.get_str("choices"),
        order_name: matches.get_str("order"),
        steps: matches.get_str("steps"),
        policy: matches.get_str("policy"),
        cores: matches.get_str("cores"),
        listing_name: matches.get_str("listing"),
        notes_name: matches.get_str("notes"),
        rate: matches.get_str("rate"),
        gap: matches.get_str("gap"),
    })
}

/// What the words give, of which the first is the program's own name, or none where they are refused.
pub fn read_words<'a>(alloc: Global, words: &'a [String]) -> Result<Option<Given<'a>>, AllocError>
    ensures { IfOk result (λ g. option_map given_of g ≡ given_by (map string_bytes words.entry.now)) }
{
    let matches = match towerc(alloc)?.try_get_matches_from(words) {
        Ok(matches) => matches,
        Err(error) => match error.kind() {
            ErrorKind::OutOfMemory => return Err(AllocError),
            _ => return Ok(None),
        },
    };
    Ok(given_in(&matches))
}

/// Which options a command may have.
#[derive(Clone, Copy)]
pub struct Options {
    pub record_name: bool,
    pub choices_name: bool,
    pub order_name: bool,
    pub steps: bool,
    pub policy: bool,
    pub cores: bool,
    pub listing_name: bool,
    pub notes_name: bool,
    pub rate: bool,
    pub gap: bool,
}

impl Options {
    /// None of them.
    pub const NONE: Options = Options {
        record_name: false,
        choices_name: false,
        order_name: false,
        steps: false,
        policy: false,
        cores: false,
        listing_name: false,
        notes_name: false,
        rate: false,
        gap: false,
    };
}

/// Whether an option is left out, or may be given.
fn is_allowed(allowed: bool, value: Option<&str>) -> bool
    ensures { result ≡ is_allowed allowed (option_map (λ s. s.now) value.entry) }
{
    match value {
        None => true,
        Some(_) => allowed,
    }
}

impl Given<'_> {
    /// Whether no option is given but these.
    pub fn has_only(&self, options: Options) -> bool
        ensures { result ≡ has_only options (given_of self.now) }
    {
        is_allowed(options.record_name, self.record_name)
            && is_allowed(options.choices_name, self.choices_name)
            && is_allowed(options.order_name, self.order_name)
            && is_allowed(options.steps, self.steps)
            && is_allowed(options.policy, self.policy)
            && is_allowed(options.cores, self.cores)
            && is_allowed(options.listing_name, self.listing_name)
            && is_allowed(options.notes_name, self.notes_name)
            && is_allowed(options.rate, self.rate)
            && is_allowed(options.gap, self.gap)
    }
}
