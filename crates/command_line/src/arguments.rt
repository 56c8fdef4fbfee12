ghost use Rattle.std.specs.Prelude.{◌≡◌, ◌⊎◌, IfOk, IfErr, IfSome, Some, None, Err, codes, map, option_map, string_bytes};
ghost use Rattle.clap.specs.Words.{found_of, kind_of};
ghost use Rattle.command_line.specs.Commands.{command_by, command_for, parts_of};
ghost use Rattle.command_line.specs.code.Found.{HasLimits, parts_found, seen_of};

use crate::commands::{Command as Line, Verb, WordsFault};
use crate::limit::limit;
use crate::restarts::restarts;
use crate::shop::read_shop;
use clap::error::ErrorKind;
use clap::{Arg, ArgMatches, Command, Error};
use std::alloc::Global;

/// What `clap` makes of the words behind the verb: at most four arguments, `--nodes` and `--restarts`.
fn matched<'a>(alloc: Global, words: &'a [String]) -> Result<ArgMatches<'a>, Error>
    ensures ok { IfOk result (λ m. parts_of None (map string_bytes words.entry.now) ≡ Some (parts_found (found_of m))) }
    ensures err { IfErr result (λ e. (kind_of e ≡ ErrorKind.OutOfMemory)
        ⊎ ((v : Verb) → command_by v (map string_bytes words.entry.now) ≡ None)) }
{
    let command = Command::new(alloc, "schedtool")
        .no_binary_name(true)
        .disable_help_flag(true)
        .arg(Arg::new(alloc, "first"))?
        .arg(Arg::new(alloc, "second"))?
        .arg(Arg::new(alloc, "third"))?
        .arg(Arg::new(alloc, "fourth"))?
        .arg(Arg::new(alloc, "nodes").long("nodes"))?
        .arg(Arg::new(alloc, "restarts").long("restarts"))?;
    command.try_get_matches_from(words)
}

/// `solve`, by its arguments.
fn solve<'a>(matches: &ArgMatches<'a>) -> Option<Line<'a>>
    ensures is { option_map seen_of result ≡ command_for Verb.Solve (parts_found (found_of matches.now)) }
    ensures within { IfSome result (λ c. HasLimits (seen_of c)) }
{
    let model = matches.get_str("first")?;
    let log = matches.get_str("second")?;
    if matches.get_str("third").is_some() {
        return None;
    }
    let nodes = limit(matches.get_str("nodes"))?;
    let restarts = restarts(matches.get_str("restarts"))?;
    Some(Line::Solve {
        model,
        log,
        nodes,
        restarts,
    })
}

/// `check`, by its arguments.
fn check<'a>(matches: &ArgMatches<'a>) -> Option<Line<'a>>
    ensures is { option_map seen_of result ≡ command_for Verb.Check (parts_found (found_of matches.now)) }
    ensures within { IfSome result (λ c. HasLimits (seen_of c)) }
{
    let model = matches.get_str("first")?;
    let log = matches.get_str("second")?;
    if matches.get_str("third").is_some()
        || matches.get_str("nodes").is_some()
        || matches.get_str("restarts").is_some()
    {
        return None;
    }
    Some(Line::Check { model, log })
}

/// `verify`, by its arguments.
fn verify<'a>(matches: &ArgMatches<'a>) -> Option<Line<'a>>
    ensures is { option_map seen_of result ≡ command_for Verb.Verify (parts_found (found_of matches.now)) }
    ensures within { IfSome result (λ c. HasLimits (seen_of c)) }
{
    let model = matches.get_str("first")?;
    let schedule = matches.get_str("second")?;
    if matches.get_str("third").is_some()
        || matches.get_str("nodes").is_some()
        || matches.get_str("restarts").is_some()
    {
        return None;
    }
    Some(Line::Verify { model, schedule })
}

/// `show`, by its argument.
fn show<'a>(matches: &ArgMatches<'a>) -> Option<Line<'a>>
    ensures is { option_map seen_of result ≡ command_for Verb.Show (parts_found (found_of matches.now)) }
    ensures within { IfSome result (λ c. HasLimits (seen_of c)) }
{
    let model = matches.get_str("first")?;
    if matches.get_str("second").is_some()
        || matches.get_str("nodes").is_some()
        || matches.get_str("restarts").is_some()
    {
        return None;
    }
    Some(Line::Show { model })
}

/// `gen`, by its arguments.
fn generate<'a>(matches: &ArgMatches<'a>) -> Option<Line<'a>>
    ensures is { option_map seen_of result ≡ command_for Verb.Gen (parts_found (found_of matches.now)) }
    ensures within { IfSome result (λ c. HasLimits (seen_of c)) }
{
    let seed = matches.get_str("first")?;
    let jobs = matches.get_str("second")?;
    let machines = matches.get_str("third")?;
    if matches.get_str("fourth").is_some()
        || matches.get_str("nodes").is_some()
        || matches.get_str("restarts").is_some()
    {
        return None;
    }
    let shop = read_shop(seed, jobs, machines)?;
    Some(Line::Gen { shop })
}

/// `trial`, by its arguments.
fn trial<'a>(matches: &ArgMatches<'a>) -> Option<Line<'a>>
    ensures is { option_map seen_of result ≡ command_for Verb.Trial (parts_found (found_of matches.now)) }
    ensures within { IfSome result (λ c. HasLimits (seen_of c)) }
{
    let seed = matches.get_str("first")?;
    let jobs = matches.get_str("second")?;
    let machines = matches.get_str("third")?;
    let log = matches.get_str("fourth")?;
    let nodes = limit(matches.get_str("nodes"))?;
    let restarts = restarts(matches.get_str("restarts"))?;
    let shop = read_shop(seed, jobs, machines)?;
    Some(Line::Trial {
        shop,
        log,
        nodes,
        restarts,
    })
}

/// `bound`, by its arguments.
fn bound<'a>(matches: &ArgMatches<'a>) -> Option<Line<'a>>
    ensures is { option_map seen_of result ≡ command_for Verb.Bound (parts_found (found_of matches.now)) }
    ensures within { IfSome result (λ c. HasLimits (seen_of c)) }
{
    let model = matches.get_str("first")?;
    let log = matches.get_str("second")?;
    if matches.get_str("third").is_some()
        || matches.get_str("nodes").is_some()
        || matches.get_str("restarts").is_some()
    {
        return None;
    }
    Some(Line::Bound { model, log })
}

/// `core`, by its arguments.
fn core<'a>(matches: &ArgMatches<'a>) -> Option<Line<'a>>
    ensures is { option_map seen_of result ≡ command_for Verb.Core (parts_found (found_of matches.now)) }
    ensures within { IfSome result (λ c. HasLimits (seen_of c)) }
{
    let model = matches.get_str("first")?;
    let log = matches.get_str("second")?;
    if matches.get_str("third").is_some()
        || matches.get_str("nodes").is_some()
        || matches.get_str("restarts").is_some()
    {
        return None;
    }
    Some(Line::Core { model, log })
}

fn line_of<'a>(verb: Verb, matches: &ArgMatches<'a>) -> Option<Line<'a>>
    ensures is { option_map seen_of result ≡ command_for verb (parts_found (found_of matches.now)) }
    ensures within { IfSome result (λ c. HasLimits (seen_of c)) }
{
    match verb {
        Verb::Solve => solve(matches),
        Verb::Check => check(matches),
        Verb::Verify => verify(matches),
        Verb::Show => show(matches),
        Verb::Gen => generate(matches),
        Verb::Trial => trial(matches),
        Verb::Bound => bound(matches),
        Verb::Core => core(matches),
    }
}

/// The command of a verb and the words behind it.
pub fn read_arguments<'a>(
    alloc: Global,
    verb: Verb,
    words: &'a [String],
) -> Result<Line<'a>, WordsFault>
    ensures ok { IfOk result (λ c. command_by verb (map string_bytes words.entry.now) ≡ Some (seen_of c)) }
    ensures within { IfOk result (λ c. HasLimits (seen_of c)) }
    ensures usage { result ≡ Err WordsFault.Usage → command_by verb (map string_bytes words.entry.now) ≡ None }
{
    match matched(alloc, words) {
        Ok(matches) => match line_of(verb, &matches) {
            Some(line) => Ok(line),
            None => Err(WordsFault::Usage),
        },
        Err(error) => match error.kind() {
            ErrorKind::OutOfMemory => Err(WordsFault::NoMemory),
            _ => Err(WordsFault::Usage),
        },
    }
}
