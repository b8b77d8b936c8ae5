//! The arguments of a command: the strings after its name.
ghost use Rattle.std.specs.Prelude.{◌≡◌, ◌<◌, ◌∷◌, length};
ghost use Rattle.std.specs.Str.{bytes_eq};
ghost use Rattle.client_commands.specs.Arguments.{
  checked_name,
  checked_value,
  only_argument,
  name_and_value,
  is_default,
  name_fault,
  greeting_fault,
  hello_fault,
  login_fault,
};

use crate::command::CommandName;
use crate::fault::CommandFault;
use crate::vocabulary::{is_word, option_fault};
use bytes::Bytes;
use tag::{LONGEST_NAME, LONGEST_VALUE};

/// Takes the first string away.
pub(crate) fn take_first(strings: &mut Vec<Bytes>) -> Bytes
    requires { 0 < length strings.old.items }
    ensures { strings.old.items ≡ result ∷ strings.new.items }
{
    strings.remove(0)
}

/// Returns the only argument.
pub(crate) fn only_argument(
    name: CommandName,
    mut arguments: Vec<Bytes>,
) -> Result<Bytes, CommandFault>
    ensures { result ≡ only_argument name arguments.items }
{
    if arguments.len() != 1 {
        return Err(CommandFault::WrongCount(name));
    }
    Ok(take_first(&mut arguments))
}

/// Returns the two arguments of a `SET`.
pub(crate) fn name_and_value(mut arguments: Vec<Bytes>) -> Result<(Bytes, Bytes), CommandFault>
    ensures { result ≡ name_and_value arguments.items }
{
    if arguments.len() < 2 {
        return Err(CommandFault::WrongCount(CommandName::Set));
    }
    if let Some(option) = arguments.get(2) {
        return Err(option_fault(option));
    }
    let name = take_first(&mut arguments);
    let value = take_first(&mut arguments);
    Ok((name, value))
}

// Whether this is the user `default`, which is the only user that a node knows.
fn is_default(user: &[u8]) -> bool
    ensures { result ≡ is_default user.now }
{
    is_text(user, b"default")
}

/// Returns whether the string is this text.
pub(crate) fn is_text(string: &[u8], text: &[u8]) -> bool
    ensures { result ≡ bytes_eq string.now text.now }
{
    string == text
}

// Why the words after the user and the password of a `HELLO` are no options of it, if they are none.
fn name_fault(words: &[Bytes]) -> Option<CommandFault>
    ensures { result ≡ name_fault words.now }
{
    match words {
        [] => None,
        [word, _] => {
            if is_word(word, b"setname") {
                None
            } else {
                Some(CommandFault::SyntaxError)
            }
        }
        _ => Some(CommandFault::SyntaxError),
    }
}

// Why the words after the version of a `HELLO` are no options of it, if they are none.
fn greeting_fault(words: &[Bytes]) -> Option<CommandFault>
    ensures { result ≡ greeting_fault words.now }
{
    match words {
        [word, user, _, more @ ..] => {
            if !is_word(word, b"auth") {
                return Some(CommandFault::SyntaxError);
            }
            if !is_default(user) {
                return Some(CommandFault::WrongUser);
            }
            name_fault(more)
        }
        words => name_fault(words),
    }
}

/// Returns why these words after `HELLO` are no version and no options, if they are none.
pub(crate) fn hello_fault(words: &[Bytes]) -> Option<CommandFault>
    ensures { result ≡ hello_fault words.now }
{
    match words {
        [] => None,
        [version, options @ ..] => {
            if !is_text(version, b"2") {
                return Some(CommandFault::NoProtocol);
            }
            greeting_fault(options)
        }
    }
}

/// Returns why these words after `AUTH` are not the user `default` and a password, if they are not. A node has no
/// password, so each one is right.
pub(crate) fn login_fault(words: &[Bytes]) -> Option<CommandFault>
    ensures { result ≡ login_fault words.now }
{
    match words {
        [] => Some(CommandFault::WrongCount(CommandName::Auth)),
        [_] => Some(CommandFault::NoPassword),
        [user, _] => {
            if is_default(user) {
                None
            } else {
                Some(CommandFault::WrongUser)
            }
        }
        _ => Some(CommandFault::SyntaxError),
    }
}

/// Returns this name, unless it is too long.
pub(crate) fn checked_name(name: Bytes) -> Result<Bytes, CommandFault>
    ensures { result ≡ checked_name name }
{
    if name.len() > LONGEST_NAME {
        return Err(CommandFault::NameTooLong);
    }
    Ok(name)
}

/// Returns this value, unless it is too long.
pub(crate) fn checked_value(value: Bytes) -> Result<Bytes, CommandFault>
    ensures { result ≡ checked_value value }
{
    if value.len() > LONGEST_VALUE {
        return Err(CommandFault::ValueTooLong);
    }
    Ok(value)
}
