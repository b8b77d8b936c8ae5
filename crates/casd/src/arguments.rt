//! The words of the command line.
ghost use Rattle.std.specs.Prelude.{◌∷◌, [], map, string_bytes};
ghost use Rattle.casd.specs.Request.{ParsesTo};

use crate::fault::Fault;
use words::parse_number;

/// What the words ask for.
pub enum Request<'a> {
    /// The text on how to use the program.
    Help,
    /// The program's name and version.
    Version,
    /// To run the node with this number, with this cluster file and this folder.
    Run {
        file: &'a str,
        number: u8,
        folder: &'a str,
    },
}

/// Returns what the words after the program's name ask for. Fails with `BadNode` if there are three words, the second
/// of which writes no number from 0 to 255, and with `Usage` for any other words that ask for nothing.
pub fn read_request(words: &[String]) -> Result<Request<'_>, Fault>
    ensures { ParsesTo (map string_bytes words.entry.now) result }
{
    match words {
        [word] => read_option(word.as_str()),
        [file, number, folder] => read_run(file.as_str(), number.as_str(), folder.as_str()),
        _ => Err(Fault::Usage),
    }
}

// One word.
fn read_option(word: &str) -> Result<Request<'_>, Fault>
    ensures { ParsesTo (word.entry.now ∷ []) result }
{
    match word {
        "--help" => Ok(Request::Help),
        "--version" => Ok(Request::Version),
        _ => Err(Fault::Usage),
    }
}

// The words FILE, NODE and FOLDER.
fn read_run<'a>(file: &'a str, number: &str, folder: &'a str) -> Result<Request<'a>, Fault>
    ensures { ParsesTo (file.entry.now ∷ number.now ∷ folder.entry.now ∷ []) result }
{
    let Some(number) = parse_number(number) else {
        return Err(Fault::BadNode);
    };
    match u8::try_from(number) {
        Ok(number) => Ok(Request::Run {
            file,
            number,
            folder,
        }),
        Err(_) => Err(Fault::BadNode),
    }
}
