//! The words of the command line.
ghost use Rattle.std.specs.Prelude.{◌≡◌, ◌≢◌, ℕ, ◌<◌, ◌≤◌, ◌∷◌, ◌++◌, List, map, string_bytes};
ghost use Rattle.std.specs.Prelude.{IfSome, MatchOption, ◌^◌, decimal};
ghost use Rattle.std.specs.List.{list_all, list_any};
ghost use Rattle.std.specs.Option.{option_map};
ghost use Rattle.std.specs.Str.{bytes_eq};
ghost use Rattle.gate_files.specs.Words.{command_of, is_word, is_run, is_among, load_of, number_in};
ghost use Rattle.gate_files.specs.Words.{run_of, run_words, check_of, cross_of, is_check};
ghost use Rattle.gate_files.specs.Words.{output_names, are_distinct, session_mark, session_most};
ghost use Rattle.gate_files.specs.CommandOf.{command_value, run_value, check_value, IsForm};
ghost use Rattle.gate_files.specs.CommandOf.{endings_of, file_names, files_of, folder_value};

use crate::names::{OutputFiles, OutputFolder};
use fold_law::SESSIONS;
use itoa::Buffer;
use make_load::{Asked, ORDERS_MOST};

/// The words of a run, or of a filter.
#[derive(Clone, Copy, Debug)]
pub struct Run<'a> {
    /// The name of the limit file.
    pub limits: &'a str,
    /// The folder of the outputs.
    pub out: OutputFolder<'a>,
    /// The names of the sessions' inputs.
    pub sessions: &'a [String],
}

/// The words of a check.
#[derive(Clone, Copy, Debug)]
pub struct Check<'a> {
    /// The name of the limit file.
    pub limits: &'a str,
    /// The name of the journal.
    pub journal: &'a str,
    /// The names of the sessions' inputs.
    pub sessions: &'a [String],
}

/// What the words ask for.
#[derive(Clone, Copy, Debug)]
pub enum Command<'a> {
    /// A run over files.
    Run(Run<'a>),
    /// A load, and a run over it.
    Make(Asked),
    /// A check of a journal against the files of its sessions.
    Check(Check<'a>),
    /// A filter of files against crossing orders.
    Cross(Run<'a>),
}

/// The command that the words ask for. None where they are no form.
pub fn command_from<'a>(words: &'a [String]) -> Option<Command<'a>>
    ensures command { option_map command_value result ≡ command_of (map string_bytes words.now) }
    ensures form { IfSome result IsForm }
{
    let [command, first, second, others @ ..] = words else {
        return None;
    };
    if command.as_str() == "run" {
        run_from(first.as_str(), second.as_str(), others)
    } else if command.as_str() == "make" {
        load_from(first.as_str(), second.as_str(), others)
    } else if command.as_str() == "check" {
        check_from(first.as_str(), second.as_str(), others)
    } else if command.as_str() == "cross" {
        cross_from(first.as_str(), second.as_str(), others)
    } else {
        None
    }
}

/// The run that the words after `run` ask for.
fn run_from<'a>(limits: &'a str, out: &'a str, sessions: &'a [String]) -> Option<Command<'a>>
    ensures command { option_map command_value result
        ≡ run_of limits.now out.now (map string_bytes sessions.now) }
    ensures form { IfSome result IsForm }
{
    let run = run_with(OutputFiles::Run, limits, out, sessions);
    if is_run(&run) {
        Some(Command::Run(run))
    } else {
        None
    }
}

/// The filter that the words after `cross` ask for.
fn cross_from<'a>(limits: &'a str, out: &'a str, sessions: &'a [String]) -> Option<Command<'a>>
    ensures command { option_map command_value result
        ≡ cross_of limits.now out.now (map string_bytes sessions.now) }
    ensures form { IfSome result IsForm }
{
    let run = run_with(OutputFiles::Cross, limits, out, sessions);
    if is_run(&run) {
        Some(Command::Cross(run))
    } else {
        None
    }
}

/// The words of a run that writes these files.
fn run_with<'a>(
    files: OutputFiles,
    limits: &'a str,
    out: &'a str,
    sessions: &'a [String],
) -> Run<'a>
    ensures { run_value result
        ≡ run_words files limits.now out.now (map string_bytes sessions.now) }
{
    Run {
        limits,
        out: OutputFolder { name: out, files },
        sessions,
    }
}

/// The check that the words after `check` ask for.
fn check_from<'a>(limits: &'a str, journal: &'a str, sessions: &'a [String]) -> Option<Command<'a>>
    ensures command { option_map command_value result
        ≡ check_of limits.now journal.now (map string_bytes sessions.now) }
    ensures form { IfSome result IsForm }
{
    let check = Check {
        limits,
        journal,
        sessions,
    };
    if is_check(&check) {
        Some(Command::Check(check))
    } else {
        None
    }
}

/// The load that the words after `make` ask for.
fn load_from<'a>(number: &str, sessions: &str, others: &[String]) -> Option<Command<'a>>
    ensures command { option_map command_value result
        ≡ load_of number.now sessions.now (map string_bytes others.now) }
    ensures form { IfSome result IsForm }
{
    let [orders] = others else {
        return None;
    };
    let Some(number) = number_in(0, u32::MAX, number) else {
        return None;
    };
    let Some(sessions) = number_in(1, SESSIONS, sessions) else {
        return None;
    };
    let Some(orders) = number_in(1, ORDERS_MOST, orders.as_str()) else {
        return None;
    };
    Some(Command::Make(Asked {
        number,
        sessions,
        orders,
    }))
}

/// The number that a word spells in digits without a leading zero, where it does.
fn number_of(word: &str) -> Option<u32>
    ensures { MatchOption result ((number : ℕ) → number < 2 ^ 32 → decimal number ≢ word.now)
        (λ number. decimal number ≡ word.now) }
{
    let Ok(number) = word.parse::<u32>() else {
        return None;
    };
    let mut digits = Buffer::new();
    if digits.format(number).as_bytes() == word.as_bytes() {
        Some(number)
    } else {
        None
    }
}

/// The same, where it is in this range.
fn number_in(least: u32, most: u32, word: &str) -> Option<u32>
    ensures number { result ≡ number_in least most word.now }
    ensures range { IfSome result (λ number. (least ≤ number) × (number ≤ most)) }
{
    let Some(number) = number_of(word) else {
        return None;
    };
    if number < least {
        return None;
    }
    if number > most {
        return None;
    }
    Some(number)
}

/// Whether the words are those of a run.
fn is_run(run: &Run) -> bool
    ensures { result ≡ is_run (run_value run.now) }
{
    let count = run.sessions.len();
    if !has_words(run.limits, run.out.name, run.sessions) {
        return false;
    }
    if count < 1 || count > SESSIONS as usize {
        return false;
    }
    if !are_distinct(run.sessions) {
        return false;
    }
    !reads_outputs(run, count)
}

/// Whether the words are those of a check.
fn is_check(check: &Check) -> bool
    ensures { result ≡ is_check (check_value check.now) }
{
    let count = check.sessions.len();
    if !has_words(check.limits, check.journal, check.sessions) {
        return false;
    }
    if count < 1 || count > SESSIONS as usize {
        return false;
    }
    are_distinct(check.sessions)
}

/// Whether two names and those of the sessions are words.
fn has_words(first: &str, second: &str, sessions: &[String]) -> bool
    ensures { result ≡ list_all is_word (first.now ∷ second.now ∷ map string_bytes sessions.now) }
{
    if !is_word(first) {
        return false;
    }
    if !is_word(second) {
        return false;
    }
    are_words(sessions)
}

/// Whether the limit file or a session is an output of a run of so many sessions.
fn reads_outputs(run: &Run, count: usize) -> bool
    requires { count ≤ session_most }
    ensures { let words = run_value run.now in
        result ≡ list_any (λ name. is_among name (output_names words.out count))
        (words.limits ∷ words.sessions) }
{
    if is_output(run.out, count, run.limits) {
        return true;
    }
    has_output(run.out, count, run.sessions)
}

/// Not empty, and without a leading dash.
fn is_word(word: &str) -> bool
    ensures { result ≡ is_word word.now }
{
    match word.as_bytes() {
        [] => false,
        [first, ..] => *first != b'-',
    }
}

/// Whether each is a word.
fn are_words(words: &[String]) -> bool
    ensures { result ≡ list_all (λ word. is_word (string_bytes word)) words.now }
{
    words.iter().all(|word| is_word(word.as_str()))
}

/// Whether the name is one of these.
fn is_among(name: &str, names: &[String]) -> bool
    ensures { result ≡ list_any (λ other. bytes_eq name.now (string_bytes other)) names.now }
{
    names.iter().any(|other| name == other.as_str())
}

/// Whether no two are equal.
fn are_distinct(names: &[String]) -> bool
    ensures { result ≡ are_distinct (map string_bytes names.now) }
{
    for place in 0..names.len() {
        if is_among(names[place].as_str(), &names[place + 1..]) {
            return false;
        }
    }
    true
}

/// Whether a run of so many sessions with these outputs writes one of the names.
fn has_output(out: OutputFolder, count: usize, names: &[String]) -> bool
    requires { count ≤ session_most }
    ensures { result ≡ list_any (λ name. is_among (string_bytes name)
        (output_names (folder_value out.entry) count)) names.now }
{
    for name in names {
        if is_output(out, count, name.as_str()) {
            return true;
        }
    }
    false
}

/// Whether a run of so many sessions with these outputs writes the name.
fn is_output(out: OutputFolder, count: usize, name: &str) -> bool
    requires { count ≤ session_most }
    ensures { result ≡ is_among name.now (output_names (folder_value out.entry) count) }
{
    match name_within(out.name, name) {
        None => false,
        Some(rest) => is_file(out.files, count, rest),
    }
}

/// Whether a run of so many sessions that writes these files writes this name in its folder.
fn is_file(files: OutputFiles, count: usize, rest: &[u8]) -> bool
    requires { count ≤ session_most }
    ensures { result ≡ is_among rest.now (file_names files count) }
{
    for session in 0..count {
        if is_file_of(files, session, rest) {
            return true;
        }
    }
    rest == files.journal_file().as_bytes()
}

/// Whether this is the name of one of a session's outputs in the folder of outputs.
fn is_file_of(files: OutputFiles, session: usize, rest: &[u8]) -> bool
    requires { session < 100 }
    ensures { result ≡ is_among rest.now (files_of files session) }
{
    match ending_of(session, rest) {
        None => false,
        Some(ending) => is_ending(files, ending),
    }
}

/// Whether the name of one of a session's outputs ends so.
fn is_ending(files: OutputFiles, ending: &[u8]) -> bool
    ensures { result ≡ is_among ending.now (endings_of files) }
{
    ending == files.venue_ending().as_bytes() || ending == b".client".as_slice()
}

/// What of the name comes after the session's number.
fn ending_of(session: usize, rest: &[u8]) -> Option<&[u8]>
    requires { session < 100 }
    ensures { MatchOption result ((ending : List ℕ) → rest.now ≢ session_mark session ++ ending)
        (λ ending. rest.now ≡ session_mark session ++ ending.now) }
{
    let tens = b'0' + (session / 10) as u8;
    let units = b'0' + (session % 10) as u8;
    let mark = [b'/', b's', tens, units];
    rest.strip_prefix(mark.as_slice())
}

/// What of the name comes after the folder.
fn name_within<'a>(out: &str, name: &'a str) -> Option<&'a [u8]>
    ensures { MatchOption result ((rest : List ℕ) → name.now ≢ out.now ++ rest)
        (λ rest. name.now ≡ out.now ++ rest.now) }
{
    name.as_bytes().strip_prefix(out.as_bytes())
}
