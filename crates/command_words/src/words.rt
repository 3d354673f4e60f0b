// The words after the program's name.

ghost use Rattle.std.specs.Prelude.{IfNone, Bool, ◌≡◌, ◌<◌, ◌^◌, [], ◌∷◌, ◌++◌, false, List, ℕ, if◌then◌else◌, Some, None, codes, drop};
ghost use Rattle.std.specs.Prelude.{IfOk, IfSome, OnOk, OnErr, IsTrue, nat_le, length, option_map, option_and_then};
ghost use Rattle.std.specs.Option.{SomeIff};
ghost use Rattle.std.specs.Str.{IsUtf8};
ghost use Rattle.std.specs.Str.Parse.{digits_value};
ghost use Rattle.std.specs.List.{All, list_all, list_any};
ghost use Rattle.std.specs.Char.{is_ascii_digit};
ghost use Rattle.tsl_value.specs.Literal.{are_digits};
ghost use Rattle.clap.specs.Words.{app_of, found_of, rule_of};
ghost use Rattle.command_words.specs.inner.Reader.{Holds, IsRefused, Matches, files_found, flag_rule, limits_found, option_rule, run_app};
ghost use Rattle.command_words.specs.inner.Reader.{run_found, says, subject_found, why_found};
ghost use Rattle.command_words.specs.Words.{IsLimited, Piece, asked_by, command_of, counted_of, first_verb, fits, is_empty};
ghost use Rattle.command_words.specs.Words.{kind_of, number, number_or, one_room, origin_of, pair_room, plains, run_of, run_room, spec_of};
ghost use Rattle.command_words.specs.Words.{texts_of, two_of, verb_of, why_of, why_room};

use crate::command::{Command, Form, Origin, Run, Why, Workload};
use crate::limits::{MOST_LINES, MOST_TIME};
use crate::room::{fits, may_run, one_room, pair_room, why_room};
use clap::error::ErrorKind;
use clap::{Arg, ArgAction, ArgMatches};
use std::alloc::{AllocError, Global};
use std::convert::AsStr;
use std::marker::Model;
use tsl_value::limits::{MOST_INSTANTS, MOST_TRACE_BYTES};
use tsl_value::memory::NoMemory;
use tsl_value::text::Text;
use tsl_value::time::Time;

/// A word, as `clap` reads it.
#[derive(Drop)]
pub struct Word {
    text: Text,
}

impl AsStr for Word {
    ghost text = { λ word. word.text };

    fn as_str(&self) -> &str {
        self.text.as_str()
    }
}

/// The words after the program's name, in order.
#[derive(Drop)]
pub struct Words {
    words: Vec<Word>,
}

impl Model for Words {
    ghost use Rattle.std.specs.Prelude.{List, ℕ};
    ghost use Rattle.command_words.specs.Words.{texts_of};

    ghost Value = { List (List ℕ) };

    ghost view = { λ w. texts_of w.words.items };
}

impl Words {
    /// No words.
    pub fn new(alloc: Global) -> Words
        ensures { result ≡ [] }
    {
        Words {
            words: Vec::new(alloc),
        }
    }

    /// Appends a word.
    pub fn push(&mut self, word: Text) -> Result<(), NoMemory>
        ensures ok { OnOk result (self.new ≡ self.old ++ word ∷ []) }
        ensures err { OnErr result (self.new ≡ self.old) }
    {
        self.words.push(Word { text: word })?;
        Ok(())
    }
}

/// The names of the commands.
#[derive(Clone, Copy)]
enum Verb {
    Check,
    Flat,
    Show,
    Code,
    Slice,
    Compile,
    Run,
    Exec,
    Why,
    Generate,
    Bench,
}

/// What kind of file runs.
#[derive(Clone, Copy)]
enum Source {
    Spec,
    Code,
}

impl Source {
    /// The file of this kind that has this name.
    fn origin(self, name: Text) -> Origin
        ensures { result ≡ origin_of self name }
    {
        match self {
            Source::Spec => Origin::Spec(name),
            Source::Code => Origin::Code(name),
        }
    }
}

fn are_digits(word: &str) -> bool
    ensures { result ≡ are_digits word.now }
{
    !word.is_empty() && all_are_digits(word.as_bytes())
}

fn all_are_digits(bytes: &[u8]) -> bool
    ensures { result ≡ list_all is_ascii_digit bytes.now }
{
    bytes.iter().all(|byte| byte.is_ascii_digit())
}

/// The number that digits spell, where 64 bits hold it.
fn number_of(digits: &str) -> Option<u64>
    requires { IsTrue (are_digits digits.now) }
    ensures { SomeIff result (digits_value 10 digits.now < 2 ^ 64) (digits_value 10 digits.now) }
{
    match digits.parse::<u64>() {
        Ok(number) => Some(number),
        Err(_) => None,
    }
}

/// One digit or more that spell a number from the least to the most.
fn number(word: &str, least: u64, most: u64) -> Option<u64>
    ensures { result ≡ number least most word.now }
{
    if !are_digits(word) {
        return None;
    }
    match number_of(word) {
        Some(number) if least <= number && number <= most => Some(number),
        _ => None,
    }
}

/// Whether a word is empty. Where none is, each was seen to be text, and of such words alone `clap`'s contract says what it
/// makes of `-` and what follows it.
fn has_empty(words: &[Word]) -> bool
    ensures any { result ≡ list_any is_empty (texts_of words.now) }
    ensures texts { result ≡ false → All IsUtf8 (texts_of words.now) }
{
    for word in words {
        if word.as_str().is_empty() {
            return true;
        }
    }
    false
}

/// The number that an option's value spells, or another where the option doesn't stand.
fn number_or(word: Option<&str>, other: u64, least: u64, most: u64) -> Option<u64>
    ensures { result ≡ number_or other least most (option_map (λ w. w.now) word.entry) }
{
    match word {
        Some(word) => number(word, least, most),
        None => Some(other),
    }
}

/// The files of a run.
#[derive(Drop)]
struct Files {
    /// What runs.
    file: Text,
    trace: Text,
    save: Option<Text>,
    resume: Option<Text>,
}

/// The limits of a run or a question.
#[derive(Clone, Copy)]
struct Limits {
    until: u64,
    instants: u64,
    bytes: u64,
}

/// A copy of a word, if there is one.
fn copied(alloc: Global, word: Option<&str>) -> Result<Option<Text>, NoMemory>
    ensures { IfOk result (λ copy. copy ≡ option_map (λ w. w.now) word.entry) }
{
    match word {
        Some(word) => Ok(Some(Text::from_str(alloc, word)?)),
        None => Ok(None),
    }
}

/// The files of a run that the values in the matches name.
fn files_found(alloc: Global, matches: &ArgMatches<'_>) -> Result<Option<Files>, NoMemory>
    ensures { IfOk result (λ files. files ≡ files_found (found_of matches.now)) }
{
    let Some(file) = matches.get_str("first") else {
        return Ok(None);
    };
    let trace = matches.get_str("second").unwrap_or("-");
    Ok(Some(Files {
        file: Text::from_str(alloc, file)?,
        trace: Text::from_str(alloc, trace)?,
        save: copied(alloc, matches.get_str("save"))?,
        resume: copied(alloc, matches.get_str("resume"))?,
    }))
}

/// The limits of a run or a question that the values in the matches spell.
fn limits_found(matches: &ArgMatches<'_>) -> Option<Limits>
    ensures { result ≡ limits_found (found_of matches.now) }
{
    let until = number_or(matches.get_str("until"), 0, 0, MOST_TIME)?;
    let instants = number_or(matches.get_str("instants"), MOST_INSTANTS, 1, MOST_INSTANTS)?;
    let bytes = number_or(
        matches.get_str("bytes"),
        MOST_TRACE_BYTES,
        1,
        MOST_TRACE_BYTES,
    )?;
    Some(Limits {
        until,
        instants,
        bytes,
    })
}

/// The run of a file of this kind that the values in the matches ask for.
fn run_found(alloc: Global, from: Source, matches: &ArgMatches<'_>) -> Result<Option<Run>, NoMemory>
    ensures { IfOk result (λ run. (strict stats : Bool)
        → says (found_of matches.now) (codes "strict") strict
        → says (found_of matches.now) (codes "stats") stats
        → run ≡ run_found from (found_of matches.now) strict stats) }
{
    let Some(limits) = limits_found(matches) else {
        return Ok(None);
    };
    let Some(files) = files_found(alloc, matches)? else {
        return Ok(None);
    };
    Ok(Some(Run {
        origin: from.origin(files.file),
        trace: files.trace,
        until: limits.until,
        instants: limits.instants,
        bytes: limits.bytes,
        strict: matches.get_flag("strict"),
        stats: matches.get_flag("stats"),
        save: files.save,
        resume: files.resume,
    }))
}

/// The run of a file of this kind that the matches ask for.
#[tactic(auto, using(crate::proofs::Commands::run_refused))]
fn run_by(alloc: Global, from: Source, matches: &ArgMatches<'_>) -> Result<Option<Run>, NoMemory>
    ensures { IfOk result (λ run. (ps : List Piece) → Holds ps (found_of matches.now)
        → run ≡ option_and_then (run_of from) (if fits run_room ps then Some ps else None)) }
{
    if !may_run(matches) {
        return Ok(None);
    }
    run_found(alloc, from, matches)
}

/// What a question is about.
#[derive(Drop)]
struct Subject {
    spec: Text,
    trace: Text,
    /// The name of the output.
    output: Text,
    /// The time of its event.
    time: Time,
}

/// The time that a word spells.
fn time_of(word: &str) -> Option<Time>
    ensures { result ≡ number 0 MOST_TIME word.now }
{
    match number(word, 0, MOST_TIME) {
        Some(number) => Time::new(number),
        None => None,
    }
}

/// What a question is about, by the plain words in the matches.
fn subject_found(alloc: Global, matches: &ArgMatches<'_>) -> Result<Option<Subject>, NoMemory>
    ensures { IfOk result (λ subject. subject ≡ subject_found (found_of matches.now)) }
{
    let Some(spec) = matches.get_str("first") else {
        return Ok(None);
    };
    let Some(trace) = matches.get_str("second") else {
        return Ok(None);
    };
    let Some(output) = matches.get_str("third") else {
        return Ok(None);
    };
    let Some(time) = matches.get_str("fourth") else {
        return Ok(None);
    };
    let Some(time) = time_of(time) else {
        return Ok(None);
    };
    Ok(Some(Subject {
        spec: Text::from_str(alloc, spec)?,
        trace: Text::from_str(alloc, trace)?,
        output: Text::from_str(alloc, output)?,
        time,
    }))
}

/// The question that the values in the matches ask.
fn why_found(alloc: Global, matches: &ArgMatches<'_>) -> Result<Option<Why>, NoMemory>
    ensures { IfOk result (λ why. (strict : Bool) → says (found_of matches.now) (codes "strict") strict
        → why ≡ why_found (found_of matches.now) strict) }
{
    let Some(limits) = limits_found(matches) else {
        return Ok(None);
    };
    let Some(subject) = subject_found(alloc, matches)? else {
        return Ok(None);
    };
    Ok(Some(Why {
        spec: subject.spec,
        trace: subject.trace,
        output: subject.output,
        time: subject.time,
        instants: limits.instants,
        bytes: limits.bytes,
        strict: matches.get_flag("strict"),
    }))
}

/// The question that the matches ask.
fn why_by(alloc: Global, matches: &ArgMatches<'_>) -> Result<Option<Why>, NoMemory>
    ensures { IfOk result (λ why. (ps : List Piece) → Holds ps (found_of matches.now)
        → why ≡ option_and_then why_of (if fits why_room ps then Some ps else None)) }
{
    if !fits(why_room(), matches) {
        return Ok(None);
    }
    why_found(alloc, matches)
}

/// The specification that the matches name, where nothing else stands.
fn spec_by<'a>(matches: &ArgMatches<'a>) -> Option<&'a str>
    ensures { (ps : List Piece) → Holds ps (found_of matches.now)
        → option_map (λ s. s.now) result ≡ option_and_then spec_of (if fits one_room ps then Some ps else None) }
{
    if !fits(one_room(), matches) {
        return None;
    }
    matches.get_str("first")
}

fn kind_of(word: &str) -> Option<Workload>
    ensures { result ≡ kind_of word.now }
{
    match word {
        "seen" => Some(Workload::Seen),
        "copy" => Some(Workload::Copy),
        _ => None,
    }
}

/// The kind and the number of lines that the matches ask for, where nothing else stands.
fn counted_by(matches: &ArgMatches<'_>) -> Option<(Workload, u64)>
    ensures { (ps : List Piece) → Holds ps (found_of matches.now)
        → result ≡ option_and_then counted_of (if fits pair_room ps then Some ps else None) }
{
    if !fits(pair_room(), matches) {
        return None;
    }
    let kind = kind_of(matches.get_str("first")?)?;
    let count = number(matches.get_str("second")?, 1, MOST_LINES)?;
    Some((kind, count))
}

/// An option of this name, whose value is a text.
fn option_arg<'a>(alloc: Global, name: &'a str) -> Arg<'a>
    ensures rule { rule_of result ≡ option_rule name.now }
    ensures own { result.global ≡ false }
{
    Arg::new(alloc, name).long(name)
}

/// A flag of this name.
fn flag_arg<'a>(alloc: Global, name: &'a str) -> Arg<'a>
    ensures rule { rule_of result ≡ flag_rule name.now }
    ensures own { result.global ≡ false }
{
    option_arg(alloc, name).action(ArgAction::SetTrue)
}

/// What reads the words of all commands: at most four plain words, of which the first is needed, and the options and flags of
/// `run` and `exec`, without help. Which of them a command takes its room says.
fn reader<'a>(alloc: Global) -> Result<clap::Command<'a>, AllocError>
    ensures { IfOk result (λ command. app_of command ≡ run_app) }
{
    let first = Arg::new(alloc, "first").required(true);
    clap::Command::new(alloc, "run")
        .disable_help_flag(true)
        .arg(first)?
        .arg(Arg::new(alloc, "second"))?
        .arg(Arg::new(alloc, "third"))?
        .arg(Arg::new(alloc, "fourth"))?
        .arg(option_arg(alloc, "until"))?
        .arg(option_arg(alloc, "instants"))?
        .arg(option_arg(alloc, "bytes"))?
        .arg(option_arg(alloc, "save"))?
        .arg(option_arg(alloc, "resume"))?
        .arg(flag_arg(alloc, "strict"))?
        .arg(flag_arg(alloc, "stats"))
}

/// What `clap` matches in the words, of which the first is the command's name. `None` where it refuses them.
fn matched<'a>(alloc: Global, words: &'a [Word]) -> Result<Option<ArgMatches<'a>>, NoMemory>
    requires texts { All IsUtf8 (texts_of words.now) }
    ensures some { IfOk result (λ found. IfSome found (Matches (drop 1 (texts_of words.now)))) }
    ensures none { IfOk result (λ found. IfNone found (IsRefused (drop 1 (texts_of words.now)))) }
{
    match reader(alloc)?.try_get_matches_from(words) {
        Ok(matches) => Ok(Some(matches)),
        Err(error) => match error.kind() {
            ErrorKind::OutOfMemory => Err(NoMemory),
            _ => Ok(None),
        },
    }
}

/// The command of a name.
fn verb_of(word: &str) -> Option<Verb>
    ensures { result ≡ verb_of word.now }
{
    match word {
        "run" => Some(Verb::Run),
        "exec" => Some(Verb::Exec),
        "why" => Some(Verb::Why),
        "check" => Some(Verb::Check),
        "flat" => Some(Verb::Flat),
        "show" => Some(Verb::Show),
        "code" => Some(Verb::Code),
        "slice" => Some(Verb::Slice),
        "compile" => Some(Verb::Compile),
        "gen" => Some(Verb::Generate),
        "bench" => Some(Verb::Bench),
        _ => None,
    }
}

/// The text of a form that the matches ask for.
fn written_by(
    alloc: Global,
    matches: &ArgMatches<'_>,
    form: Form,
) -> Result<Option<Command>, NoMemory>
    ensures { IfOk result (λ asked. (ps : List Piece) → Holds ps (found_of matches.now)
        → asked ≡ option_map (λ spec. Command.Write spec form) (option_and_then spec_of (if fits one_room ps then Some ps else None))) }
{
    match spec_by(matches) {
        Some(spec) => Ok(Some(Command::Write {
            spec: Text::from_str(alloc, spec)?,
            form,
        })),
        None => Ok(None),
    }
}

/// The two plain words in the matches, where nothing else stands.
fn two_by(alloc: Global, matches: &ArgMatches<'_>) -> Result<Option<(Text, Text)>, NoMemory>
    ensures { IfOk result (λ two. (ps : List Piece) → Holds ps (found_of matches.now)
        → two ≡ option_and_then two_of (if fits pair_room ps then Some ps else None)) }
{
    if !fits(pair_room(), matches) {
        return Ok(None);
    }
    match (matches.get_str("first"), matches.get_str("second")) {
        (Some(first), Some(second)) => Ok(Some((
            Text::from_str(alloc, first)?,
            Text::from_str(alloc, second)?,
        ))),
        _ => Ok(None),
    }
}

/// What the matches after the name of a command ask for.
fn command_by(
    alloc: Global,
    verb: Verb,
    matches: &ArgMatches<'_>,
) -> Result<Option<Command>, NoMemory>
    ensures { IfOk result (λ asked. (words : List (List ℕ)) → Matches words matches.now → asked ≡ asked_by verb words) }
{
    match verb {
        Verb::Run => Ok(run_by(alloc, Source::Spec, matches)?.map(Command::Run)),
        Verb::Exec => Ok(run_by(alloc, Source::Code, matches)?.map(Command::Run)),
        Verb::Why => Ok(why_by(alloc, matches)?.map(Command::Why)),
        Verb::Check => written_by(alloc, matches, Form::Check),
        Verb::Flat => written_by(alloc, matches, Form::Flat),
        Verb::Show => written_by(alloc, matches, Form::Show),
        Verb::Code => written_by(alloc, matches, Form::Code),
        Verb::Slice => match two_by(alloc, matches)? {
            Some((spec, name)) => Ok(Some(Command::Write {
                spec,
                form: Form::Slice(name),
            })),
            None => Ok(None),
        },
        Verb::Compile => match two_by(alloc, matches)? {
            Some((spec, file)) => Ok(Some(Command::Write {
                spec,
                form: Form::File(file),
            })),
            None => Ok(None),
        },
        Verb::Generate => match counted_by(matches) {
            Some((_, lines)) => Ok(Some(Command::Generate { lines })),
            None => Ok(None),
        },
        Verb::Bench => match counted_by(matches) {
            Some((kind, lines)) => Ok(Some(Command::Bench { kind, lines })),
            None => Ok(None),
        },
    }
}

/// The command that the first word names.
fn first_verb(words: &[Word]) -> Option<Verb>
    ensures { result ≡ first_verb (texts_of words.now) }
{
    match words.first() {
        Some(word) => verb_of(word.as_str()),
        None => None,
    }
}

/// What the words after the first one ask for.
#[tactic(auto, using(crate::proofs::Commands::refused_by, crate::proofs::Commands::are_limited))]
fn asked_after(alloc: Global, verb: Verb, words: &[Word]) -> Result<Option<Command>, NoMemory>
    requires texts { All IsUtf8 (texts_of words.now) }
    ensures command { IfOk result (λ asked. asked ≡ asked_by verb (drop 1 (texts_of words.now))) }
    ensures limits { IfOk result (λ asked. IfSome asked IsLimited) }
{
    match matched(alloc, words)? {
        Some(matches) => command_by(alloc, verb, &matches),
        None => Ok(None),
    }
}

impl Words {
    /// What the words ask for; `None` exactly where they are not accepted.
    ///
    /// The first word is the name of a command. After it stand `SPEC` for `check`, `flat`, `show` and `code`, `SPEC NAME` for
    /// `slice`, `SPEC FILE` for `compile`, `SPEC` and at most one `TRACE` for `run`, `FILE` and at most one `TRACE` for `exec`,
    /// `SPEC TRACE NAME TIME` for `why`, and `KIND N` for `gen` and `bench`, where `KIND` is `seen` or `copy`, none of them empty.
    /// For `run` and `exec` the options `--until T`, `--instants N`, `--bytes B`, `--save FILE` and `--resume FILE`, also written
    /// `--name=V`, and the flags `--strict` and `--stats` may stand anywhere before a word `--`, each at most once, but not `--save`
    /// with `--until`, nor `--resume` with `--instants`, `--bytes` or `--strict`, and no FILE is empty. Of these `why` takes
    /// `--instants N`, `--bytes B` and `--strict`. Other words than `-` that begin with `-` are refused there, and all words after it
    /// are plain. Numbers are one digit or more: T and TIME at most `MOST_TIME`, N of `run`, `exec` and `why` from 1 to
    /// `MOST_INSTANTS`, B from 1 to `MOST_TRACE_BYTES`, N of `gen` and `bench` from 1 to `MOST_LINES`.
    #[tactic(auto, using(crate::proofs::Commands::told_when, crate::proofs::Commands::told_never))]
    pub fn command(&self, alloc: Global) -> Result<Option<Command>, NoMemory>
        ensures command { IfOk result (λ asked. asked ≡ command_of self.now) }
        ensures limits { IfOk result (λ asked. IfSome asked IsLimited) }
    {
        let words = self.words.as_slice();
        if has_empty(words) {
            return Ok(None);
        }
        match first_verb(words) {
            Some(verb) => asked_after(alloc, verb, words),
            None => Ok(None),
        }
    }
}
