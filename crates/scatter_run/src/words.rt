//! Reads the words after the program's name, as a command line of one word and numbers.
ghost use Rattle.std.specs.Prelude.{◌≡◌, ◌≤◌, ◌<◌, ◌^◌, ℕ, [], ◌∷◌, map, IfOk, IfSome, IfNone, IsTrue, ◌↔◌, decimal, string_bytes};
ghost use Rattle.std.specs.List.{list_any};
ghost use Rattle.clap.specs.Words.{app_of, found_of, rows_of};
ghost use Rattle.scatter_run.specs.CommandLine.{command_line, words_read, begins_with_hyphen};
ghost use Rattle.scatter_run.specs.Form.{form_word};
ghost use Rattle.scatter_run.specs.declared.form.Form.{Form as FormOfLines};
ghost use Rattle.scatter_run.specs.Words.{AreWordsOf, NameNoJob, word_bytes};

use crate::form::Form;
use clap::error::ErrorKind;
use clap::{Arg, ArgAction, ArgMatches, Command};
use itoa::Buffer;
use limits::{HIGHEST_ORDER, MOST_READERS, MOST_WORKERS};
use std::alloc::{AllocError, Global};

/// The largest number that `generate` takes.
const LARGEST_NUMBER: u32 = 1_000_000;

/// The jobs that words can name.
#[derive(Clone, Copy, Debug, PartialEq, Eq)]
pub(crate) enum Job {
    /// `complete ORDER WORKERS`, `complete-json ORDER WORKERS` and `theta ORDER WORKERS`, by the form.
    Complete {
        form: Form,
        order: u32,
        workers: u32,
    },
    /// `session ORDER WORKERS READERS`.
    Session {
        order: u32,
        workers: u32,
        readers: u32,
    },
    /// `generate N`.
    Generate {
        number: u32,
    },
}

/// The job that the words name, or None where they aren't in the table.
///
/// # Errors
/// `AllocError` where memory runs out before the words are read.
pub(crate) fn read_words(alloc: Global, words: &[String]) -> Result<Option<Job>, AllocError>
    ensures job { IfOk result (λ r. IfSome r (λ job. AreWordsOf (word_bytes words.now) job)) }
    ensures none { IfOk result (λ r. IfNone r (NameNoJob (word_bytes words.now))) }
{
    // `clap` would take such a word for a flag.
    if has_hyphen(words) {
        return Ok(None);
    }
    match command_line(alloc)?.try_get_matches_from(words) {
        Ok(matches) => Ok(job_in(&matches)),
        Err(error) => match error.kind() {
            ErrorKind::OutOfMemory => Err(AllocError),
            _ => Ok(None),
        },
    }
}

/// Whether a word begins with a hyphen.
fn has_hyphen(words: &[String]) -> bool
    ensures { result ≡ list_any (λ w. begins_with_hyphen (string_bytes w)) words.now }
{
    words.iter().any(begins_with_hyphen)
}

fn begins_with_hyphen(word: &String) -> bool
    ensures { result ≡ begins_with_hyphen (string_bytes word.now) }
{
    word.as_str().strip_prefix('-').is_some()
}

/// A word for the job, and numbers.
fn command_line<'a>(alloc: Global) -> Result<Command<'a>, AllocError>
    ensures { IfOk result (λ c. app_of c ≡ command_line) }
{
    let job = Arg::new(alloc, "job").required(true);
    let numbers = Arg::new(alloc, "numbers")
        .num_args(0..)
        .action(ArgAction::Append);
    Command::new(alloc, "scatter")
        .no_binary_name(true)
        .arg(job)?
        .arg(numbers)
}

/// The job that a command line names.
fn job_in(matches: &ArgMatches) -> Option<Job>
    ensures job { IfSome result
        (λ job. AreWordsOf (words_read (rows_of (found_of matches.now))) job) }
    ensures none { IfNone result (NameNoJob (words_read (rows_of (found_of matches.now)))) }
{
    let job = matches.get_str("job")?;
    let numbers = matches.get_strs("numbers")?;
    job_of(job, numbers)
}

/// The job with this word and these numbers.
fn job_of(job: &str, numbers: &[&str]) -> Option<Job>
    ensures job { IfSome result (λ j. AreWordsOf (job.now ∷ map (λ n. n.now) numbers.now) j) }
    ensures none { IfNone result (NameNoJob (job.now ∷ map (λ n. n.now) numbers.now)) }
{
    match numbers {
        [order, workers, readers] => session_of(job, order, workers, readers),
        [order, workers] => complete_of(job, order, workers),
        [number] => generate_of(job, number),
        _ => None,
    }
}

/// `complete`, `complete-json` or `theta` with these numbers, if they are in range.
fn complete_of(job: &str, order: &str, workers: &str) -> Option<Job>
    ensures job { IfSome result (AreWordsOf (job.now ∷ order.now ∷ workers.now ∷ [])) }
    ensures none { IfNone result (NameNoJob (job.now ∷ order.now ∷ workers.now ∷ [])) }
{
    let form = form_of(job)?;
    let order = read_number(order, 0, HIGHEST_ORDER + 1)?;
    let workers = read_number(workers, 1, MOST_WORKERS + 1)?;
    Some(Job::Complete {
        form,
        order,
        workers,
    })
}

/// The form of the job with this word, if that completes the lines of an input.
fn form_of(job: &str) -> Option<Form>
    ensures some { IfSome result (λ form. job.now ≡ form_word form) }
    ensures none { IfNone result ((form : FormOfLines) → job.now ≡ form_word form → ⊥) }
{
    if is_same(job, "complete") {
        Some(Form::Text)
    } else if is_same(job, "complete-json") {
        Some(Form::Json)
    } else if is_same(job, "theta") {
        Some(Form::Asks)
    } else {
        None
    }
}

/// `session` with these numbers, if they are in range.
fn session_of(job: &str, order: &str, workers: &str, readers: &str) -> Option<Job>
    ensures job { IfSome result
        (AreWordsOf (job.now ∷ order.now ∷ workers.now ∷ readers.now ∷ [])) }
    ensures none { IfNone result
        (NameNoJob (job.now ∷ order.now ∷ workers.now ∷ readers.now ∷ [])) }
{
    if !is_same(job, "session") {
        return None;
    }
    let order = read_number(order, 0, HIGHEST_ORDER + 1)?;
    let workers = read_number(workers, 1, MOST_WORKERS + 1)?;
    let readers = read_number(readers, 1, MOST_READERS + 1)?;
    Some(Job::Session {
        order,
        workers,
        readers,
    })
}

/// `generate` with this number, if it is in range.
fn generate_of(job: &str, number: &str) -> Option<Job>
    ensures job { IfSome result (AreWordsOf (job.now ∷ number.now ∷ [])) }
    ensures none { IfNone result (NameNoJob (job.now ∷ number.now ∷ [])) }
{
    if !is_same(job, "generate") {
        return None;
    }
    let number = read_number(number, 1, LARGEST_NUMBER + 1)?;
    Some(Job::Generate { number })
}

/// Whether the words are the same.
fn is_same(word: &str, other: &str) -> bool
    ensures { IsTrue result ↔ (word.now ≡ other.now) }
{
    word == other
}

/// The number from `least` to below `end` that prints as the word, if there is one.
fn read_number(word: &str, least: u32, end: u32) -> Option<u32>
    ensures some { IfSome result (λ n. (least ≤ n) × (n < end) × (word.now ≡ decimal n)) }
    ensures none { IfNone result ((n : ℕ) → least ≤ n → n < end → word.now ≡ decimal n → ⊥) }
{
    let n = printed_number(word)?;
    if least <= n && n < end { Some(n) } else { None }
}

/// The number of 32 bits that prints as the word, if there is one. A sign or a zero in front is another
/// spelling.
fn printed_number(word: &str) -> Option<u32>
    ensures some { IfSome result (λ n. (n < 2 ^ 32) × (word.now ≡ decimal n)) }
    ensures none { IfNone result ((n : ℕ) → n < 2 ^ 32 → word.now ≡ decimal n → ⊥) }
{
    let n = word.parse::<u32>().ok()?;
    let mut buffer = Buffer::new();
    if buffer.format(n) == word {
        Some(n)
    } else {
        None
    }
}
