// From words to options, by clap.
ghost use Rattle.std.specs.Prelude.{◌≡◌, ◌≤◌, map, option_and_then, option_map, string_bytes, is_some, IfOk, IfSome};
ghost use Rattle.clap.specs.Words.{app_of, found_of};
ghost use Rattle.clap.specs.Walk.{rows_of, one_of};
ghost use Rattle.clap.specs.Simple.{matches_of};
ghost use Rattle.fc_spec.specs.words.Lists.{is_empty};
ghost use Rattle.clap.specs.Faults.{fault_of};
ghost use Rattle.fc_words.specs.Words.{facets_app, asked_by, number_in, options_of, takes};
ghost use Rattle.fc_words.specs.View.{asked_of};

use crate::options::Options;
use clap::error::ErrorKind;
use clap::{Arg, ArgMatches, Command, value_parser};
use fc_base::WantMemory;
use std::alloc::{AllocError, Global};

fn facets_command<'a>(alloc: Global) -> Result<Command<'a>, AllocError>
    ensures { IfOk result (λ command. app_of command ≡ facets_app) }
{
    let workers = Arg::new(alloc, "workers")
        .long("workers")
        .value_parser(value_parser!(u64).range(1..=64));
    let demo = Arg::new(alloc, "demo")
        .long("demo")
        .value_parser(value_parser!(u64).range(0..=200_000));
    Command::new(alloc, "facets").arg(workers)?.arg(demo)
}

// What clap finds in the words, where it takes them.
fn matches_in<'a>(alloc: Global, words: &'a [String]) -> Result<Option<ArgMatches<'a>>, WantMemory>
    ensures taken { IfOk result (λ found. is_some found ≡ is_empty (fault_of facets_app (map string_bytes words.entry.now))) }
    ensures rows { IfOk result (λ found. IfSome found (λ matches.
        rows_of (found_of matches) ≡ matches_of facets_app (map string_bytes words.entry.now))) }
{
    let command = facets_command(alloc)?;
    match command.try_get_matches_from(words) {
        Ok(matches) => Ok(Some(matches)),
        Err(error) => {
            if error.kind() == ErrorKind::OutOfMemory {
                Err(WantMemory)
            } else {
                Ok(None)
            }
        }
    }
}

// The number that an option is given. That it is in the range was clap's test.
fn number(matches: &ArgMatches<'_>, name: &str, low: u32, high: u32) -> Option<u32>
    ensures given { result ≡ option_and_then (number_in low high) (one_of name.now (rows_of (found_of matches.now))) }
    ensures within { IfSome result (λ n. (low ≤ n) × (n ≤ high)) }
{
    let given = matches.get_one::<u64>(name)?;
    if given < low as u64 || given > high as u64 {
        return None;
    }
    Some(given as u32)
}

fn options_in(matches: &ArgMatches<'_>) -> Options
    ensures asked { asked_of result ≡ asked_by (rows_of (found_of matches.now)) }
    ensures workers { (1 ≤ result.workers) × (result.workers ≤ 64) }
    ensures demo { IfSome result.demo (λ n. n ≤ 200_000) }
{
    let workers = number(matches, "workers", 1, 64).unwrap_or(1);
    let demo = number(matches, "demo", 0, 200_000);
    Options { workers, demo }
}

/// The options, where the words are taken; the first word is the program's name. Each of `--workers N` and `--demo N` may
/// stand once, and nothing else: a call for help is not taken.
pub fn read_words(alloc: Global, words: &[String]) -> Result<Option<Options>, WantMemory>
    ensures options { IfOk result (λ found. option_map asked_of found ≡ options_of (map string_bytes words.now)) }
    ensures taken { IfOk result (λ found. is_some found ≡ takes (map string_bytes words.now)) }
    ensures workers { IfOk result (λ found. IfSome found (λ options. (1 ≤ options.workers) × (options.workers ≤ 64))) }
    ensures demo { IfOk result (λ found. IfSome found (λ options. IfSome options.demo (λ n. n ≤ 200_000))) }
{
    if words.is_empty() {
        return Ok(None);
    }
    match matches_in(alloc, words)? {
        Some(matches) => Ok(Some(options_in(&matches))),
        None => Ok(None),
    }
}
