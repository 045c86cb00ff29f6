ghost use Rattle.std.specs.Prelude.{◌≡◌, IfOk, filter};
ghost use Rattle.std.specs.Option.{option_copied};
ghost use Rattle.std.specs.List.{list_any, list_all};
ghost use Rattle.std.specs.Char.{is_ascii_digit};
ghost use Rattle.mypyc_top_words.specs.Words.{texts, value_in, values, emit_name, stage_name, turns_name, is_file, is_left, listed_emit, listed_stage, listed_turns, setting, only, words_of};
ghost use Rattle.mypyc_top_words.specs.WordsStep.{Are, meant};

use std::alloc::Global;
use value_core::{Memory, Text};

/// What the words of the command mean.
#[derive(Drop)]
pub enum Words {
    /// They are no command.
    Usage,
    Go(Request),
}

/// What the command is to do.
#[derive(Drop)]
pub struct Request {
    pub emit: Emit,
    pub stage: Stage,
    /// How many turns a program may spend.
    pub turns: u64,
    /// The file's name as it was written; `-` is the standard input.
    pub file: Text,
}

/// What is written.
#[derive(Clone, Copy, Debug, PartialEq, Eq)]
pub enum Emit {
    /// The diagnostics, or that there are none.
    Check,
    /// The C text.
    C,
    /// What the module prints.
    Run,
    /// What the C text prints, and what is left at its end.
    Runc,
}

/// How far the intermediate code is taken.
#[derive(Clone, Copy, Debug, PartialEq, Eq)]
pub enum Stage {
    Build,
    Errors,
    Owned,
}

/// How many turns a program has where the words do not say.
const TURNS: u64 = 100_000_000;

/// The greatest number of turns, 2^63 - 1, and how many digits a number of turns may have.
const MOST_TURNS: u64 = 9_223_372_036_854_775_807;

const MOST_DIGITS: usize = 19;

/// Reads the words of the command, without the program's own name: `--emit=`, `--stage=` and `--turns=` each with a
/// value that is listed, at most once, and exactly one FILE, in any order. FILE is not empty, and does not begin with
/// `-` unless it is `-`. Anything else is `Usage`.
#[tactic(auto, unfolding(crate::specs::Words::words_of))]
pub fn read_words(alloc: Global, words: &[String]) -> Result<Words, Memory>
    ensures { IfOk result (λ meaning. meaning ≡ words_of (texts words.now)) }
{
    let Some(settings) = settings_of(words) else {
        return Ok(Words::Usage);
    };
    Ok(Words::Go(Request {
        emit: settings.emit,
        stage: settings.stage,
        turns: settings.turns,
        file: Text::from_str(alloc, settings.file)?,
    }))
}

/// A request, with the file's name among the words.
#[derive(Clone, Copy)]
struct Settings<'a> {
    emit: Emit,
    stage: Stage,
    turns: u64,
    file: &'a str,
}

/// What words have of one kind.
#[derive(Clone, Copy)]
enum Found<'a> {
    Nothing,
    One(&'a str),
    More,
}

/// The settings and the file of the command, where the words are one.
#[tactic(auto, unfolding(crate::specs::Words::words_of))]
fn settings_of(words: &[String]) -> Option<Settings<'_>>
    ensures { words_of (texts words.now) ≡ meant result }
{
    if has_left(words) {
        return None;
    }
    Some(Settings {
        emit: emit_of(words)?,
        stage: stage_of(words)?,
        turns: turns_of(words)?,
        file: file_among(words)?,
    })
}

fn emit_of(words: &[String]) -> Option<Emit>
    ensures { result ≡ setting Emit.Run listed_emit (values emit_name (texts words.now)) }
{
    match value_of(words, "--emit=") {
        Found::Nothing => Some(Emit::Run),
        Found::One(value) => emit_named(value),
        Found::More => None,
    }
}

fn emit_named(value: &str) -> Option<Emit>
    ensures { result ≡ listed_emit value.now }
{
    match value {
        "check" => Some(Emit::Check),
        "c" => Some(Emit::C),
        "run" => Some(Emit::Run),
        "runc" => Some(Emit::Runc),
        _ => None,
    }
}

fn stage_of(words: &[String]) -> Option<Stage>
    ensures { result ≡ setting Stage.Owned listed_stage (values stage_name (texts words.now)) }
{
    match value_of(words, "--stage=") {
        Found::Nothing => Some(Stage::Owned),
        Found::One(value) => stage_named(value),
        Found::More => None,
    }
}

fn stage_named(value: &str) -> Option<Stage>
    ensures { result ≡ listed_stage value.now }
{
    match value {
        "build" => Some(Stage::Build),
        "errors" => Some(Stage::Errors),
        "owned" => Some(Stage::Owned),
        _ => None,
    }
}

fn turns_of(words: &[String]) -> Option<u64>
    ensures { result ≡ setting 100000000 listed_turns (values turns_name (texts words.now)) }
{
    match value_of(words, "--turns=") {
        Found::Nothing => Some(TURNS),
        Found::One(value) => turns_named(value),
        Found::More => None,
    }
}

fn turns_named(value: &str) -> Option<u64>
    ensures { result ≡ listed_turns value.now }
{
    if value.len() > MOST_DIGITS || !has_only_digits(value) {
        return None;
    }
    let turns: u64 = value.parse().ok()?;
    if turns <= MOST_TURNS {
        Some(turns)
    } else {
        None
    }
}

fn has_only_digits(value: &str) -> bool
    ensures { result ≡ list_all is_ascii_digit value.now }
{
    value.bytes().all(|b| b.is_ascii_digit())
}

/// The values that the words give to an option, which is named with its `=`.
fn value_of<'a>(words: &'a [String], name: &str) -> Found<'a>
    ensures { Are result (values name.now (texts words.now)) }
{
    let mut found = None;
    for word in words {
        if let Some(value) = value_among(word.as_str(), name) {
            if found.is_some() {
                return Found::More;
            }
            found = Some(value);
        }
    }
    match found {
        None => Found::Nothing,
        Some(value) => Found::One(value),
    }
}

/// The value that a word gives to an option.
fn value_among<'a>(word: &'a str, name: &str) -> Option<&'a str>
    ensures { option_copied result ≡ value_in name.now word.now }
{
    word.strip_prefix(name)
}

/// The file, where there is exactly one.
fn file_among(words: &[String]) -> Option<&str>
    ensures { option_copied result ≡ only (filter is_file (texts words.now)) }
{
    let mut file = None;
    for word in words {
        if names_file(word.as_str()) {
            if file.is_some() {
                return None;
            }
            file = Some(word.as_str());
        }
    }
    file
}

fn names_file(word: &str) -> bool
    ensures { result ≡ is_file word.now }
{
    !matches!(word.as_bytes(), [] | [b'-', _, ..])
}

/// Whether a word is neither an option nor a file.
fn has_left(words: &[String]) -> bool
    ensures { result ≡ list_any is_left (texts words.now) }
{
    for word in words {
        if names_nothing(word.as_str()) {
            return true;
        }
    }
    false
}

fn names_nothing(word: &str) -> bool
    ensures { result ≡ is_left word.now }
{
    value_among(word, "--emit=").is_none()
        && value_among(word, "--stage=").is_none()
        && value_among(word, "--turns=").is_none()
        && !names_file(word)
}
