//! Commands from frames.
ghost use Rattle.std.specs.Prelude.{◌≡◌, Ok, IfOk};
ghost use Rattle.client_commands.specs.declared.command.Command.{Command as Asked};
ghost use Rattle.client_commands.specs.Command.{AskFor};
ghost use Rattle.client_commands.specs.Reading.{
  command_at,
  command_from,
  read_from,
  exists_from,
  select_from,
  list_from,
  size_from,
  show_from,
  unless,
  set_from,
  move_from,
  ping_from,
  echo_from,
  client_from,
  subcommand_from,
  counted,
};

use crate::arguments::{
    checked_name, checked_value, hello_fault, is_text, login_fault, name_and_value, only_argument,
    take_first,
};
use crate::command::{Command, CommandName, Wanted};
use crate::deletion::read_delete;
use crate::fault::CommandFault;
use crate::layouts::read_layout;
use crate::scanning::read_scan;
use crate::sections::read_sections;
use crate::vocabulary::{fault_of, is_word, name_of};
use bytes::Bytes;
use frames::Frame;

/// The command for which a frame asks. Capital and small letters of ASCII count as the same in names of commands.
///
/// A fault is the first one in the order of `CommandFault`. The function allocates no memory.
pub fn read_command(frame: Frame) -> Result<Command, CommandFault>
    // The frame asks for what is read.
    ensures found { IfOk result (λ command. AskFor frame command) }
    // A frame that asks for a command is read as that command.
    ensures only { (command : Asked) → AskFor frame command → result ≡ Ok command }
    // Which fault it is.
    ensures exact { result ≡ command_at frame }
{
    read_strings(frame.into_strings())
}

// What these strings ask.
#[tactic(auto, unfolding(crate::specs::Reading::command_at))]
fn read_strings(mut strings: Vec<Bytes>) -> Result<Command, CommandFault>
    ensures { result ≡ command_at strings.items }
{
    if strings.is_empty() {
        return Err(CommandFault::UnknownCommand);
    }
    let word = take_first(&mut strings);
    match name_of(&word) {
        Some(name) => read_arguments(name, strings),
        None => Err(fault_of(&word)),
    }
}

// What the command of this name asks with these arguments.
fn read_arguments(name: CommandName, arguments: Vec<Bytes>) -> Result<Command, CommandFault>
    ensures { result ≡ command_from name arguments.items }
{
    match name {
        CommandName::Get => read_name(name, Wanted::Value, arguments),
        CommandName::Set => read_set(arguments),
        CommandName::Move => read_move(arguments),
        CommandName::Info => Ok(Command::Info(read_sections(&arguments))),
        CommandName::Ping => read_ping(arguments),
        CommandName::Echo => read_echo(arguments),
        CommandName::Command => read_list(&arguments),
        CommandName::Client => read_client(&arguments),
        CommandName::Quit => Ok(Command::Quit),
        CommandName::Hello => unless(hello_fault(&arguments), Command::Hello),
        CommandName::Select => read_select(arguments),
        CommandName::Auth => unless(login_fault(&arguments), Command::Login),
        CommandName::Exists => read_exists(arguments),
        CommandName::Strlen => read_name(name, Wanted::Length, arguments),
        CommandName::Dbsize => read_size(&arguments),
        CommandName::Layout => read_show(arguments),
        CommandName::Scan => read_scan(arguments),
        CommandName::Del => read_delete(arguments),
    }
}

// A command of this word, with which a name is read.
#[tactic(auto, unfolding(crate::specs::Reading::read_from))]
fn read_name(
    word: CommandName,
    wanted: Wanted,
    arguments: Vec<Bytes>,
) -> Result<Command, CommandFault>
    ensures { result ≡ read_from word wanted arguments.items }
{
    let name = only_argument(word, arguments)?;
    let name = checked_name(name)?;
    Ok(Command::Read { wanted, name })
}

#[tactic(auto, unfolding(crate::specs::Reading::exists_from))]
fn read_exists(arguments: Vec<Bytes>) -> Result<Command, CommandFault>
    ensures { result ≡ exists_from arguments.items }
{
    if arguments.len() > 1 {
        return Err(CommandFault::SeveralNames);
    }
    read_name(CommandName::Exists, Wanted::Existence, arguments)
}

#[tactic(auto, unfolding(crate::specs::Reading::select_from))]
fn read_select(arguments: Vec<Bytes>) -> Result<Command, CommandFault>
    ensures { result ≡ select_from arguments.items }
{
    let index = only_argument(CommandName::Select, arguments)?;
    if !is_text(&index, b"0") {
        return Err(CommandFault::NoDatabase);
    }
    Ok(Command::Select)
}

#[tactic(auto, unfolding(crate::specs::Reading::show_from))]
fn read_show(arguments: Vec<Bytes>) -> Result<Command, CommandFault>
    ensures { result ≡ show_from arguments.items }
{
    let name = only_argument(CommandName::Layout, arguments)?;
    let name = checked_name(name)?;
    Ok(Command::ShowLayout(name))
}

#[tactic(auto, unfolding(crate::specs::Reading::size_from))]
fn read_size(arguments: &[Bytes]) -> Result<Command, CommandFault>
    ensures { result ≡ size_from arguments.now }
{
    if !arguments.is_empty() {
        return Err(CommandFault::WrongCount(CommandName::Dbsize));
    }
    Ok(Command::CountWritten)
}

#[tactic(auto, unfolding(crate::specs::Reading::list_from))]
fn read_list(arguments: &[Bytes]) -> Result<Command, CommandFault>
    ensures { result ≡ list_from arguments.now }
{
    match arguments {
        [] => Ok(Command::ListCommands),
        [word, more @ ..] => {
            if !is_word(word, b"count") {
                return Ok(Command::ListCommands);
            }
            if !more.is_empty() {
                return Err(CommandFault::WrongCount(CommandName::Command));
            }
            Ok(Command::CountCommands)
        }
    }
}

// This command, unless there is a fault.
fn unless(fault: Option<CommandFault>, command: Command) -> Result<Command, CommandFault>
    ensures { result ≡ unless fault command }
{
    match fault {
        Some(fault) => Err(fault),
        None => Ok(command),
    }
}

#[tactic(auto, unfolding(crate::specs::Reading::set_from))]
fn read_set(arguments: Vec<Bytes>) -> Result<Command, CommandFault>
    ensures { result ≡ set_from arguments.items }
{
    let (name, value) = name_and_value(arguments)?;
    let name = checked_name(name)?;
    let value = checked_value(value)?;
    Ok(Command::Set { name, value })
}

#[tactic(auto, unfolding(crate::specs::Reading::move_from))]
fn read_move(mut arguments: Vec<Bytes>) -> Result<Command, CommandFault>
    ensures { result ≡ move_from arguments.items }
{
    let layout = read_layout(&arguments)?;
    let name = take_first(&mut arguments);
    Ok(Command::Move { name, layout })
}

#[tactic(auto, unfolding(crate::specs::Reading::ping_from))]
fn read_ping(arguments: Vec<Bytes>) -> Result<Command, CommandFault>
    ensures { result ≡ ping_from arguments.items }
{
    if arguments.is_empty() {
        return Ok(Command::Ping(None));
    }
    let text = only_argument(CommandName::Ping, arguments)?;
    Ok(Command::Ping(Some(text)))
}

#[tactic(auto, unfolding(crate::specs::Reading::echo_from))]
fn read_echo(arguments: Vec<Bytes>) -> Result<Command, CommandFault>
    ensures { result ≡ echo_from arguments.items }
{
    let text = only_argument(CommandName::Echo, arguments)?;
    Ok(Command::Echo(text))
}

#[tactic(auto, unfolding(crate::specs::Reading::client_from))]
fn read_client(arguments: &[Bytes]) -> Result<Command, CommandFault>
    ensures { result ≡ client_from arguments.now }
{
    match arguments {
        [word, rest @ ..] => read_subcommand(word, rest.len()),
        [] => Err(CommandFault::WrongCount(CommandName::Client)),
    }
}

// What a `CLIENT` asks with this word and so many strings behind it.
#[tactic(auto, unfolding(crate::specs::Reading::subcommand_from))]
fn read_subcommand(word: &[u8], count: usize) -> Result<Command, CommandFault>
    ensures { result ≡ subcommand_from word.now count }
{
    if is_word(word, b"id") {
        counted(count, 0, Command::ClientId)
    } else if is_word(word, b"setname") {
        counted(count, 1, Command::DescribeClient)
    } else if is_word(word, b"setinfo") {
        counted(count, 2, Command::DescribeClient)
    } else if is_word(word, b"getname") {
        counted(count, 0, Command::ClientName)
    } else {
        Err(CommandFault::UnknownSubcommand)
    }
}

// This command, unless the number of strings is another than it has.
fn counted(count: usize, wanted: usize, command: Command) -> Result<Command, CommandFault>
    ensures { result ≡ counted count wanted command }
{
    if count != wanted {
        return Err(CommandFault::WrongCount(CommandName::Client));
    }
    Ok(command)
}
