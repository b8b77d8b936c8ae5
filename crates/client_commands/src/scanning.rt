//! The arguments of a `SCAN`.
ghost use Rattle.std.specs.Prelude.{◌≡◌};
ghost use Rattle.client_commands.specs.Scanning.{
  checked_pattern,
  count_from,
  cursor_from,
  default_options,
  option_from,
  options_from,
  scan_from,
};

use crate::arguments::take_first;
use crate::command::{Command, CommandName};
use crate::fault::CommandFault;
use crate::patterns::has_set;
use crate::vocabulary::is_word;
use bytes::Bytes;
use node_strings::read_number;
use tag::LONGEST_NAME;

/// At how many names a `SCAN` without a `COUNT` looks.
pub const DEFAULT_COUNT: u64 = 10;

/// At how many names a `SCAN` looks at most. A greater `COUNT` counts as this one.
pub const MOST_SCANNED: u64 = 1_000;

// The greatest number that Redis takes as a `COUNT`.
const MOST_COUNT: u64 = 9_223_372_036_854_775_807;

/// What the options of a `SCAN` ask.
#[derive(Debug, PartialEq, Eq, Drop)]
pub struct ScanOptions {
    /// The pattern that names are to match, if not all names are to be told.
    pub pattern: Option<Bytes>,
    /// At how many names the node is to look: from 1 to `MOST_SCANNED`.
    pub count: u64,
}

/// Returns the `SCAN` with these arguments: a cursor, and then options, the last of each kind being the one that
/// counts.
#[tactic(auto, unfolding(crate::specs::Scanning::scan_from))]
pub(crate) fn read_scan(mut arguments: Vec<Bytes>) -> Result<Command, CommandFault>
    ensures { result ≡ scan_from arguments.items }
{
    if arguments.is_empty() {
        return Err(CommandFault::WrongCount(CommandName::Scan));
    }
    let cursor = take_first(&mut arguments);
    let cursor = read_cursor(&cursor)?;
    let options = read_options(default_options(), arguments)?;
    Ok(Command::Scan { cursor, options })
}

// What a `SCAN` without options asks.
fn default_options() -> ScanOptions
    ensures { result ≡ default_options }
{
    ScanOptions {
        pattern: None,
        count: DEFAULT_COUNT,
    }
}

// The number of 64 bits that the string writes.
fn read_cursor(string: &[u8]) -> Result<u64, CommandFault>
    ensures { result ≡ cursor_from string.now }
{
    read_number(
        string,
        u64::MAX,
        CommandFault::BadCursor,
        CommandFault::BadCursor,
    )
}

// These options, with what these words ask.
fn read_options(options: ScanOptions, mut words: Vec<Bytes>) -> Result<ScanOptions, CommandFault>
    ensures { result ≡ options_from options words.items }
{
    if words.is_empty() {
        return Ok(options);
    }
    let word = take_first(&mut words);
    if words.is_empty() {
        return Err(CommandFault::SyntaxError);
    }
    let value = take_first(&mut words);
    let options = read_option(options, &word, value)?;
    read_options(options, words)
}

// These options, with what this word and this value ask.
#[tactic(auto, unfolding(crate::specs::Scanning::option_from))]
fn read_option(options: ScanOptions, word: &[u8], value: Bytes) -> Result<ScanOptions, CommandFault>
    ensures { result ≡ option_from options word.now value }
{
    if is_word(word, b"count") {
        let count = read_count(&value)?;
        return Ok(ScanOptions {
            pattern: options.pattern,
            count,
        });
    }
    if is_word(word, b"match") {
        let pattern = checked_pattern(value)?;
        return Ok(ScanOptions {
            pattern: Some(pattern),
            count: options.count,
        });
    }
    Err(CommandFault::SyntaxError)
}

// This pattern, unless it is too long or has a set.
fn checked_pattern(pattern: Bytes) -> Result<Bytes, CommandFault>
    ensures { result ≡ checked_pattern pattern }
{
    if pattern.len() > LONGEST_NAME {
        return Err(CommandFault::PatternTooLong);
    }
    if has_set(false, &pattern) {
        return Err(CommandFault::NoSets);
    }
    Ok(pattern)
}

// The count that the string writes, or `MOST_SCANNED` if that is less.
#[tactic(auto, unfolding(crate::specs::Scanning::count_from))]
fn read_count(string: &[u8]) -> Result<u64, CommandFault>
    ensures { result ≡ count_from string.now }
{
    let count = read_number(
        string,
        MOST_COUNT,
        CommandFault::NotInteger,
        CommandFault::NotInteger,
    )?;
    if count == 0 {
        return Err(CommandFault::SyntaxError);
    }
    Ok(count.min(MOST_SCANNED))
}
