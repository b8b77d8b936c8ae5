//! The names of commands.
ghost use Rattle.std.specs.Prelude.{◌≡◌};
ghost use Rattle.std.specs.List.{find};
ghost use Rattle.client_commands.specs.Words.{command_text, is_word, later_names, name_of_word};
ghost use Rattle.client_commands.specs.Words.{is_conditional, is_conditional_option, is_expiring, is_expiring_option};
ghost use Rattle.client_commands.specs.Words.{is_on_several, option_fault, word_fault};

use crate::command::CommandName;
use crate::fault::CommandFault;

/// Returns whether the word is this text, where capital and small letters of ASCII count as the same.
pub(crate) fn is_word(word: &[u8], text: &[u8]) -> bool
    ensures { result ≡ is_word word.now text.now }
{
    word.eq_ignore_ascii_case(text)
}

/// Returns the command that a word names.
#[tactic(auto, unfolding(crate::specs::Words::name_of_word))]
pub(crate) fn name_of(word: &[u8]) -> Option<CommandName>
    ensures { result ≡ name_of_word word.now }
{
    if is_word(word, b"get") {
        Some(CommandName::Get)
    } else if is_word(word, b"set") {
        Some(CommandName::Set)
    } else if is_word(word, b"move") {
        Some(CommandName::Move)
    } else if is_word(word, b"info") {
        Some(CommandName::Info)
    } else if is_word(word, b"ping") {
        Some(CommandName::Ping)
    } else if is_word(word, b"echo") {
        Some(CommandName::Echo)
    } else if is_word(word, b"command") {
        Some(CommandName::Command)
    } else if is_word(word, b"client") {
        Some(CommandName::Client)
    } else if is_word(word, b"quit") {
        Some(CommandName::Quit)
    } else {
        later_name_of(word)
    }
}

// The command that a word names, if it is one of those that `name_of` does not try itself.
fn later_name_of(word: &[u8]) -> Option<CommandName>
    ensures { result ≡ find (λ name. is_word word.now (command_text name)) later_names }
{
    if is_word(word, b"hello") {
        Some(CommandName::Hello)
    } else if is_word(word, b"select") {
        Some(CommandName::Select)
    } else if is_word(word, b"auth") {
        Some(CommandName::Auth)
    } else if is_word(word, b"exists") {
        Some(CommandName::Exists)
    } else if is_word(word, b"strlen") {
        Some(CommandName::Strlen)
    } else if is_word(word, b"dbsize") {
        Some(CommandName::Dbsize)
    } else if is_word(word, b"layout") {
        Some(CommandName::Layout)
    } else if is_word(word, b"scan") {
        Some(CommandName::Scan)
    } else if is_word(word, b"del") {
        Some(CommandName::Del)
    } else {
        None
    }
}

/// Returns why a word names no command.
pub(crate) fn fault_of(word: &[u8]) -> CommandFault
    ensures { result ≡ word_fault word.now }
{
    if is_expiring(word) {
        CommandFault::NoExpiry
    } else if is_conditional(word) {
        CommandFault::NoCondition
    } else if is_on_several(word) {
        CommandFault::SeveralNames
    } else {
        CommandFault::UnknownCommand
    }
}

// Whether a word names a command of Redis that gives a value a time to live.
#[tactic(auto, unfolding(crate::specs::Words::is_expiring))]
fn is_expiring(word: &[u8]) -> bool
    ensures { result ≡ is_expiring word.now }
{
    is_word(word, b"setex")
        || is_word(word, b"psetex")
        || is_word(word, b"expire")
        || is_word(word, b"pexpire")
        || is_word(word, b"expireat")
        || is_word(word, b"pexpireat")
        || is_word(word, b"getex")
}

// Whether a word names a command of Redis whose write depends on the value before it.
#[tactic(auto, unfolding(crate::specs::Words::is_conditional))]
fn is_conditional(word: &[u8]) -> bool
    ensures { result ≡ is_conditional word.now }
{
    is_word(word, b"setnx")
        || is_word(word, b"getset")
        || is_word(word, b"getdel")
        || is_word(word, b"append")
        || is_word(word, b"incr")
        || is_word(word, b"decr")
        || is_word(word, b"incrby")
        || is_word(word, b"decrby")
        || is_word(word, b"setrange")
}

// Whether a word names a command of Redis on several names.
#[tactic(auto, unfolding(crate::specs::Words::is_on_several))]
fn is_on_several(word: &[u8]) -> bool
    ensures { result ≡ is_on_several word.now }
{
    is_word(word, b"mget") || is_word(word, b"mset") || is_word(word, b"msetnx")
}

/// Returns why this is no option of a `SET`.
pub(crate) fn option_fault(word: &[u8]) -> CommandFault
    ensures { result ≡ option_fault word.now }
{
    if is_expiring_option(word) {
        CommandFault::NoExpiry
    } else if is_conditional_option(word) {
        CommandFault::NoCondition
    } else {
        CommandFault::SyntaxError
    }
}

// Whether an option of Redis's `SET` gives the value a time to live.
#[tactic(auto, unfolding(crate::specs::Words::is_expiring_option))]
fn is_expiring_option(word: &[u8]) -> bool
    ensures { result ≡ is_expiring_option word.now }
{
    is_word(word, b"ex")
        || is_word(word, b"px")
        || is_word(word, b"exat")
        || is_word(word, b"pxat")
        || is_word(word, b"keepttl")
}

// Whether an option of Redis's `SET` makes the write depend on the value before it.
#[tactic(auto, unfolding(crate::specs::Words::is_conditional_option))]
fn is_conditional_option(word: &[u8]) -> bool
    ensures { result ≡ is_conditional_option word.now }
{
    is_word(word, b"nx") || is_word(word, b"xx") || is_word(word, b"get")
}
