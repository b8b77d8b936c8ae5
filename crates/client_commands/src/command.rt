ghost use Rattle.std.specs.Prelude.{◌≡◌, Some};
ghost use Rattle.client_commands.specs.Words.{command_text, count_of_names};

use crate::deletion::Deletion;
use crate::scanning::ScanOptions;
use crate::sections::Sections;
use bytes::Bytes;
use layout::Layout;
use std::fmt;

/// A client's command. The names, the values and the texts are strings of the frame, and no byte of them is copied.
#[derive(Debug, Drop)]
pub enum Command {
    /// `GET name`, `STRLEN name` or `EXISTS name`: reads a name, and tells this of its value.
    Read { wanted: Wanted, name: Bytes },
    /// `SET name value`: gives a name a value.
    Set { name: Bytes, value: Bytes },
    /// `MOVE name k node ..`: moves a name to the layout of this k and these nodes.
    Move { name: Bytes, layout: Layout },
    /// `INFO section ..`: what the node tells about itself, in these sections.
    Info(Sections),
    /// `DBSIZE`: of how many names the node keeps a written version.
    CountWritten,
    /// `LAYOUT name`: the last layout of a name that the node knows.
    ShowLayout(Bytes),
    /// `SCAN cursor MATCH pattern COUNT count`: the next names of which the node keeps a written version.
    Scan { cursor: u64, options: ScanOptions },
    /// `DEL name ..`: writes the empty value to each of these names, and so frees what it keeps of older values.
    Delete(Deletion),
    /// `PING` or `PING text`: whether the node answers.
    Ping(Option<Bytes>),
    /// `ECHO text`: the text.
    Echo(Bytes),
    /// `COMMAND`: the list of commands, which is empty.
    ListCommands,
    /// `COMMAND COUNT`: how many commands a node has.
    CountCommands,
    /// `CLIENT ID`: the number of the connection.
    ClientId,
    /// `CLIENT SETNAME text` or `CLIENT SETINFO text text`: what the client tells about itself. A node does not keep
    /// it.
    DescribeClient,
    /// `CLIENT GETNAME`: the name of the connection, which a node does not keep.
    ClientName,
    /// `HELLO` or `HELLO 2 ..`: what the node is, and that it speaks RESP2.
    Hello,
    /// `SELECT 0`: the only database.
    Select,
    /// `AUTH default password`: a node has no password, so any one is right.
    Login,
    /// `QUIT`: the end of the connection.
    Quit,
}

/// What a client wants to know of a value that it reads.
#[derive(Clone, Copy, Debug, PartialEq, Eq)]
pub enum Wanted {
    /// The value itself.
    Value,
    /// The number of its bytes.
    Length,
    /// Whether there is one: 1 if the name was ever written, and 0 otherwise.
    Existence,
    /// Nothing: it is told `OK`. No command of a client asks for this; a node reads so when it has moved an object.
    Nothing,
}

/// The first word of a command.
#[derive(Clone, Copy, Debug, PartialEq, Eq)]
pub enum CommandName {
    Get,
    Set,
    Move,
    Info,
    Ping,
    Echo,
    Command,
    Client,
    Quit,
    Hello,
    Select,
    Auth,
    Exists,
    Strlen,
    Dbsize,
    Layout,
    Scan,
    Del,
}

impl CommandName {
    /// Returns the name in small letters.
    pub fn text(self) -> &'static str
        ensures { result.now ≡ command_text self }
    {
        match self {
            CommandName::Get => "get",
            CommandName::Set => "set",
            CommandName::Move => "move",
            CommandName::Info => "info",
            CommandName::Ping => "ping",
            CommandName::Echo => "echo",
            CommandName::Command => "command",
            CommandName::Client => "client",
            CommandName::Quit => "quit",
            CommandName::Hello => "hello",
            CommandName::Select => "select",
            CommandName::Auth => "auth",
            CommandName::Exists => "exists",
            CommandName::Strlen => "strlen",
            CommandName::Dbsize => "dbsize",
            CommandName::Layout => "layout",
            CommandName::Scan => "scan",
            CommandName::Del => "del",
        }
    }
}

/// Returns how many names of commands there are.
pub fn count_names() -> u64
    ensures { result ≡ count_of_names }
{
    18
}

/// The name in small letters.
impl fmt::Display for CommandName {
    ghost output = { λ name. Some (command_text name) };

    fn fmt<W: fmt::Write>(&self, f: &mut fmt::Formatter<W>) -> fmt::Result {
        f.write_str(self.text())
    }
}
