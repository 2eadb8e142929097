//! The words of a command line, after the program's name.
ghost use Rattle.std.specs.Prelude.{ℕ, ◌≡◌, ◌≤◌, ◌⊎◌, ◌&&◌, false, Some, None, Err, map, nat_le, pos, string_bytes, IfOk, IfErr, MatchResult, option_map};
ghost use Rattle.clap.specs.Walk.{rule_of};
ghost use Rattle.clap.specs.Words.{app_of, found_of, rows_of};
ghost use Rattle.option_model.specs.Plain.{Mode as ModeOf, keys_of_profile, plain_mode};
ghost use Rattle.option_model.specs.Ranges.{AreInRange};
ghost use Rattle.command_line.specs.Words.{IsModeInRange, bare, check_command as check_app, check_held, check_words, flag_of, flag_option, lanes_option, order_option, profile_option, make_command as make_app, make_held, keys_held, make_words, mode_of, mode_read, names_mode, number_held, number_word, options_checked, options_held, order_stated, path_word, path_words, paths_held, run_command as run_app, run_words, watch_command as watch_app, watch_held, watch_words};

use clap::builder::ValueParser;
use clap::error::ErrorKind;
use clap::{Arg, ArgAction, ArgMatches, Command, Error, value_parser};
use commands::{Options, Order};
use lake_model::Keys;
use no_memory::NoMemory;
use std::alloc::Global;

mod order;

use order::read_order;

/// What a command line asks the program to do.
#[derive(Drop)]
pub enum Mode {
    /// Reads a script and runs it with these options.
    Run(Options),
    /// Makes a lake from the seed, with `tables` tables of `rows` rows each.
    Make { seed: u32, tables: u32, rows: u32 },
    /// Watches the first `k` rows of the queries in the files at these paths while a script changes a lake: 1 to 10,000
    /// rows of each, and 1 to 16 paths.
    Watch { k: u32, paths: Vec<String> },
    /// Checks the trace in the file at this path as that of a run of the script with these options. Their trace is on,
    /// and they state no order.
    Check { trace: String, options: Options },
}

/// Why the words of a command line give no mode.
#[derive(Clone, Copy, Debug, PartialEq, Eq)]
pub enum WordsRefused {
    /// The first word is no mode, or the mode does not accept the words that follow it.
    Usage,
    /// Memory ran out.
    NoMemory,
}

impl From<NoMemory> for WordsRefused {
    ghost use Rattle.std.specs.Prelude.{◌≡◌};
    ghost use Rattle.command_line.specs.declared.words.WordsRefused.TheVariants as refused;

    ghost from_gives = { λ _ e. e ≡ refused.NoMemory };

    fn from(_error: NoMemory) -> WordsRefused {
        WordsRefused::NoMemory
    }
}

impl From<Error> for WordsRefused {
    ghost use Rattle.std.specs.Prelude.{◌≡◌};
    ghost use Rattle.clap.specs.Words.{kind_of};
    ghost use Rattle.command_line.specs.Words.{refusal_by};

    ghost from_gives = { λ error e. e ≡ refusal_by (kind_of error) };

    fn from(error: Error) -> WordsRefused {
        match error.kind() {
            ErrorKind::OutOfMemory => WordsRefused::NoMemory,
            _ => WordsRefused::Usage,
        }
    }
}

// Returns the argument for the number of lanes.
fn lanes_option<'a>(alloc: Global) -> Arg<'a>
    ensures rule { rule_of result ≡ lanes_option }
    ensures local { result.global ≡ false }
{
    Arg::new(alloc, "lanes")
        .long("lanes")
        .action(ArgAction::Set)
        .value_parser(value_parser!(u32).range(1..=16))
}

// Returns the argument for the stated order.
fn order_option<'a>(alloc: Global) -> Arg<'a>
    ensures rule { rule_of result ≡ order_option }
    ensures local { result.global ≡ false }
{
    Arg::new(alloc, "order")
        .long("order")
        .action(ArgAction::Set)
}

// Returns the argument for the profile.
fn profile_option<'a>(alloc: Global) -> Arg<'a>
    ensures rule { rule_of result ≡ profile_option }
    ensures local { result.global ≡ false }
{
    Arg::new(alloc, "profile")
        .long("profile")
        .action(ArgAction::Set)
        .value_parser(value_parser!(u32).range(1..=2))
}

// Returns a flag, which is off if the words do not have it.
fn flag_option<'a>(alloc: Global, name: &'a str) -> Arg<'a>
    ensures rule { rule_of result ≡ flag_option name.entry.now }
    ensures local { result.global ≡ false }
{
    Arg::new(alloc, name).long(name).action(ArgAction::SetTrue)
}

// Returns a required number, which has no name before it.
fn number_word<'a>(alloc: Global, name: &'a str, parser: ValueParser<'a>) -> Arg<'a>
    ensures rule { rule_of result ≡ number_word name.entry.now parser.entry }
    ensures local { result.global ≡ false }
{
    Arg::new(alloc, name)
        .required(true)
        .action(ArgAction::Set)
        .value_parser(parser)
}

// Returns the argument for the paths at the end, of which at least one is required.
fn path_words<'a>(alloc: Global) -> Arg<'a>
    ensures rule { rule_of result ≡ path_words }
    ensures local { result.global ≡ false }
{
    Arg::new(alloc, "path")
        .required(true)
        .action(ArgAction::Append)
}

// Returns the argument for one path, which is required.
fn path_word<'a>(alloc: Global) -> Arg<'a>
    ensures rule { rule_of result ≡ path_word }
    ensures local { result.global ≡ false }
{
    Arg::new(alloc, "path")
        .required(true)
        .action(ArgAction::Set)
}

// Returns a command all of whose words are arguments of its own.
fn bare<'a>(alloc: Global, name: &'a str) -> Command<'a>
    ensures { app_of result ≡ bare name.entry.now }
{
    Command::new(alloc, name)
        .no_binary_name(true)
        .disable_help_flag(true)
        .disable_version_flag(true)
}

// Returns the command that reads the words after `run`.
fn run_command<'a>(alloc: Global) -> Result<Command<'a>, NoMemory>
    ensures { IfOk result (λ command. app_of command ≡ run_app) }
{
    let command = bare(alloc, "run")
        .arg(lanes_option(alloc))?
        .arg(order_option(alloc))?
        .arg(flag_option(alloc, "merge"))?
        .arg(flag_option(alloc, "trace"))?
        .arg(profile_option(alloc))?;
    Ok(command)
}

// Returns the command that reads the words after `make`.
fn make_command<'a>(alloc: Global) -> Result<Command<'a>, NoMemory>
    ensures { IfOk result (λ command. app_of command ≡ make_app) }
{
    let command = bare(alloc, "make")
        .arg(number_word(alloc, "seed", value_parser!(u32)))?
        .arg(number_word(alloc, "tables", value_parser!(u32).range(1..=1000)))?
        .arg(number_word(alloc, "rows", value_parser!(u32).range(1..=5000)))?;
    Ok(command)
}

// Returns the command that reads the words after `watch`.
fn watch_command<'a>(alloc: Global) -> Result<Command<'a>, NoMemory>
    ensures { IfOk result (λ command. app_of command ≡ watch_app) }
{
    let command = bare(alloc, "watch")
        .arg(number_word(alloc, "k", value_parser!(u32).range(1..=10_000)))?
        .arg(path_words(alloc))?;
    Ok(command)
}

// Returns the command that reads the words after `check`.
fn check_command<'a>(alloc: Global) -> Result<Command<'a>, NoMemory>
    ensures { IfOk result (λ command. app_of command ≡ check_app) }
{
    let command = bare(alloc, "check")
        .arg(path_word(alloc))?
        .arg(lanes_option(alloc))?
        .arg(flag_option(alloc, "merge"))?
        .arg(profile_option(alloc))?;
    Ok(command)
}

// Returns the value of a flag. This is not `get_flag`, whose contract leaves open how a text other than `true` and
// `false` is read.
fn flag(matches: &ArgMatches<'_>, id: &str) -> bool
    ensures { result ≡ flag_of id.now (rows_of (found_of matches.now)) }
{
    matches.get_one::<bool>(id).unwrap_or(false)
}

// Returns the value of a number argument.
fn number(matches: &ArgMatches<'_>, id: &str) -> Option<u32>
    ensures { result ≡ number_held id.now (rows_of (found_of matches.now)) }
{
    matches.get_one::<u32>(id)
}

// Reads the order that a text states, if there is a text. Returns `Err(WordsRefused::Usage)` if the text breaks the
// rule of orders.
fn order_stated(
    alloc: Global,
    lanes: u32,
    merge: bool,
    text: Option<&str>,
) -> Result<Option<Order>, WordsRefused>
    ensures read { IfOk result (λ order. order_stated lanes merge (option_map (λ t. t.now) text.entry) ≡ Some order) }
    ensures refused { IfErr result (λ e. (e ≡ WordsRefused.NoMemory) ⊎ (order_stated lanes merge (option_map (λ t. t.now) text.entry) ≡ None)) }
{
    let Some(text) = text else {
        return Ok(None);
    };
    let order = read_order(alloc, lanes, merge, text.as_bytes())?;
    let Some(order) = order else {
        return Err(WordsRefused::Usage);
    };
    Ok(Some(order))
}

// Returns the kind of keys of a profile.
fn keys_of_profile(profile: u32) -> Keys
    ensures { result ≡ keys_of_profile profile }
{
    match profile {
        2 => Keys::Compatibility,
        _ => Keys::Canonical,
    }
}

// Returns the kind of keys of the profile in the matches, which is profile 1 if they have none.
fn keys_held(matches: &ArgMatches<'_>) -> Keys
    ensures { result ≡ keys_held (rows_of (found_of matches.now)) }
{
    let profile = number(matches, "profile").unwrap_or(1);
    keys_of_profile(profile)
}

// Returns the options in the matches of `run`.
fn options_held(alloc: Global, matches: &ArgMatches<'_>) -> Result<Options, WordsRefused>
    ensures read { IfOk result (λ options. options_held (rows_of (found_of matches.now)) ≡ Some options) }
    ensures refused { IfErr result (λ e. (e ≡ WordsRefused.NoMemory) ⊎ (options_held (rows_of (found_of matches.now)) ≡ None)) }
{
    let lanes = number(matches, "lanes").unwrap_or(1);
    let merge = flag(matches, "merge");
    let order = order_stated(alloc, lanes, merge, matches.get_str("order"))?;
    Ok(Options {
        lanes,
        order,
        merge,
        trace: flag(matches, "trace"),
        keys: keys_held(matches),
    })
}

// Returns the options that the words after `run` state.
fn run_options(alloc: Global, words: &[String]) -> Result<Options, WordsRefused>
    ensures read { IfOk result (λ options. run_words (map string_bytes words.now) ≡ Some options) }
    ensures in_range { IfOk result AreInRange }
    ensures refused { IfErr result (λ e. (e ≡ WordsRefused.NoMemory) ⊎ (run_words (map string_bytes words.now) ≡ None)) }
{
    let matches = run_command(alloc)?.try_get_matches_from(words)?;
    options_held(alloc, &matches)
}

// Returns the numbers in the matches of `make`, if all are there.
fn make_held(matches: &ArgMatches<'_>) -> Option<Mode>
    ensures { option_map mode_of result ≡ make_held (rows_of (found_of matches.now)) }
{
    let seed = number(matches, "seed")?;
    let tables = number(matches, "tables")?;
    let rows = number(matches, "rows")?;
    Some(Mode::Make { seed, tables, rows })
}

// Returns the mode that the words after `make` state.
fn make_mode(alloc: Global, words: &[String]) -> Result<Mode, WordsRefused>
    ensures read { IfOk result (λ mode. make_words (map string_bytes words.now) ≡ Some (mode_of mode)) }
    ensures in_range { IfOk result (λ mode. IsModeInRange (mode_of mode)) }
    ensures refused { IfErr result (λ e. (e ≡ WordsRefused.NoMemory) ⊎ (make_words (map string_bytes words.now) ≡ None)) }
{
    let matches = make_command(alloc)?.try_get_matches_from(words)?;
    make_held(&matches).ok_or(WordsRefused::Usage)
}

// Returns copies of the texts.
fn copied(alloc: Global, texts: &[&str]) -> Result<Vec<String>, NoMemory>
    ensures { IfOk result (λ copies. map string_bytes copies.items ≡ map (λ text. text.now) texts.now) }
{
    let mut copies = Vec::new(alloc);
    for text in texts {
        copies.push(String::from_str(alloc, text)?)?;
    }
    Ok(copies)
}

// Returns the paths in the matches of `watch`, if there are 1 to 16.
fn paths_held(alloc: Global, matches: &ArgMatches<'_>) -> Result<Vec<String>, WordsRefused>
    ensures read { IfOk result (λ paths. paths_held (rows_of (found_of matches.now)) ≡ Some (map string_bytes paths.items)) }
    ensures refused { IfErr result (λ e. (e ≡ WordsRefused.NoMemory) ⊎ (paths_held (rows_of (found_of matches.now)) ≡ None)) }
{
    let texts = matches.get_strs("path").unwrap_or(&[]);
    if !is_path_count(texts.len()) {
        return Err(WordsRefused::Usage);
    }
    Ok(copied(alloc, texts)?)
}

// Returns whether `count` paths can be watched.
fn is_path_count(count: usize) -> bool
    ensures { result ≡ (nat_le 1 count && nat_le count 16) }
{
    (1..=16).contains(&count)
}

// Returns the number of rows and the paths in the matches of `watch`.
fn watch_held(alloc: Global, matches: &ArgMatches<'_>) -> Result<Mode, WordsRefused>
    ensures read { IfOk result (λ mode. watch_held (rows_of (found_of matches.now)) ≡ Some (mode_of mode)) }
    ensures refused { IfErr result (λ e. (e ≡ WordsRefused.NoMemory) ⊎ (watch_held (rows_of (found_of matches.now)) ≡ None)) }
{
    let Some(k) = number(matches, "k") else {
        return Err(WordsRefused::Usage);
    };
    let paths = paths_held(alloc, matches)?;
    Ok(Mode::Watch { k, paths })
}

// Returns the mode that the words after `watch` state.
fn watch_mode(alloc: Global, words: &[String]) -> Result<Mode, WordsRefused>
    ensures read { IfOk result (λ mode. watch_words (map string_bytes words.now) ≡ Some (mode_of mode)) }
    ensures in_range { IfOk result (λ mode. IsModeInRange (mode_of mode)) }
    ensures refused { IfErr result (λ e. (e ≡ WordsRefused.NoMemory) ⊎ (watch_words (map string_bytes words.now) ≡ None)) }
{
    let matches = watch_command(alloc)?.try_get_matches_from(words)?;
    watch_held(alloc, &matches)
}

// Returns the options of the run whose trace is checked. Such a run wrote a trace and stated no order, so the words
// have no say in either.
fn options_checked(matches: &ArgMatches<'_>) -> Options
    ensures { result ≡ options_checked (rows_of (found_of matches.now)) }
{
    Options {
        lanes: number(matches, "lanes").unwrap_or(1),
        order: None,
        merge: flag(matches, "merge"),
        trace: true,
        keys: keys_held(matches),
    }
}

// Returns the path and the options in the matches of `check`.
fn check_held(alloc: Global, matches: &ArgMatches<'_>) -> Result<Mode, WordsRefused>
    ensures read { IfOk result (λ mode. check_held (rows_of (found_of matches.now)) ≡ Some (mode_of mode)) }
    ensures refused { IfErr result (λ e. (e ≡ WordsRefused.NoMemory) ⊎ (check_held (rows_of (found_of matches.now)) ≡ None)) }
{
    let Some(path) = matches.get_str("path") else {
        return Err(WordsRefused::Usage);
    };
    let Ok(trace) = String::from_str(alloc, path) else {
        return Err(WordsRefused::NoMemory);
    };
    let options = options_checked(matches);
    Ok(Mode::Check { trace, options })
}

// Returns the mode that the words after `check` state.
fn check_mode(alloc: Global, words: &[String]) -> Result<Mode, WordsRefused>
    ensures read { IfOk result (λ mode. check_words (map string_bytes words.now) ≡ Some (mode_of mode)) }
    ensures in_range { IfOk result (λ mode. IsModeInRange (mode_of mode)) }
    ensures refused { IfErr result (λ e. (e ≡ WordsRefused.NoMemory) ⊎ (check_words (map string_bytes words.now) ≡ None)) }
{
    let matches = check_command(alloc)?.try_get_matches_from(words)?;
    check_held(alloc, &matches)
}

/// Reads the mode that the words after the program's name state. The first word is the mode, byte for byte, and clap
/// reads the words after it.
///
/// - `run` takes `--lanes N`, `--order LIST`, `--merge`, `--trace` and `--profile P`, each at most once and in any
///   order. N is 1 to 16, with default 1. LIST is pieces separated by `/`; a piece is empty, or is lane numbers
///   separated by `,`, of which 0 is the merger. P is 1 or 2, with default 1; with profile 2 values are compared by
///   their compatibility forms.
/// - `make` takes a seed below 4,294,967,296, 1 to 1,000 tables, and 1 to 5,000 rows.
/// - `watch` takes a number of rows, 1 to 10,000, and 1 to 16 paths.
/// - `check` takes one path, and before or after it `--lanes N`, `--merge` and `--profile P`, each at most once and in
///   any order, with the same meaning as for `run`.
#[tactic(auto, using(crate::proofs::ModeLemmas::plain_is_read, std::proofs::lemmas::Grind::common_steps))]
pub fn read_words(alloc: Global, words: &[String]) -> Result<Mode, WordsRefused>
    // plain words give what they say, or memory runs out
    ensures plain { (mode : ModeOf) → plain_mode (map string_bytes words.now) ≡ Some mode
        → MatchResult result (λ given. mode_of given ≡ mode) (λ e. e ≡ WordsRefused.NoMemory) }
    // no words, or another first word
    ensures no_mode { names_mode (map string_bytes words.now) ≡ false → result ≡ Err WordsRefused.Usage }
    // all words
    ensures read { IfOk result (λ given. mode_read (map string_bytes words.now) ≡ Some (mode_of given)) }
    ensures in_range { IfOk result (λ given. IsModeInRange (mode_of given)) }
    ensures refused { IfErr result (λ e. (e ≡ WordsRefused.NoMemory) ⊎ (mode_read (map string_bytes words.now) ≡ None)) }
{
    let [mode, arguments @ ..] = words else {
        return Err(WordsRefused::Usage);
    };
    match mode.as_str() {
        "run" => Ok(Mode::Run(run_options(alloc, arguments)?)),
        "make" => make_mode(alloc, arguments),
        "watch" => watch_mode(alloc, arguments),
        "check" => check_mode(alloc, arguments),
        _ => Err(WordsRefused::Usage),
    }
}
