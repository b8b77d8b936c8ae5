//! The program, generic over its input and its writers.
ghost use Rattle.std.specs.Prelude.{◌≡◌, ℕ, List, IsTrue, map, string_bytes};
ghost use Rattle.cluster_file.specs.File.{IsLawfulFile};
ghost use Rattle.deeds.specs.Kept.{FileOfNames};
ghost use Rattle.processes.specs.Programs.{IsNewAndIdle};
ghost use Rattle.words.specs.Word.{Word};
ghost use Rattle.casd.specs.Ending.{EndsBy, EndsForLog, HasRunNode, Prints, RunsNode};
ghost use Rattle.casd.specs.Fault.{TellsFailedLog, status_of};
ghost use Rattle.casd.specs.Program.{HasRun};
ghost use Rattle.casd.specs.Request.{Spells};

use crate::arguments::{Request, read_request};
use crate::fault::Fault;
use crate::files::{GivenFiles, open_log, read_file};
use crate::opening::start_with;
use crate::serving::serve;
use cluster_file::ClusterFile;
use node::Node;
use node_store::StoredLog;
use std::alloc::Global;
use std::io::{BufReader, Read, Write};

// The size of the buffer of the input, in bytes: that of a pipe.
const INPUT_BUFFER: usize = 65_536;

const HELP: &str = "usage: casd FILE NODE FOLDER

One node of a cluster. FILE is the cluster file, NODE the number of the node, and FOLDER
its folder, which must exist. The node keeps its log there, in the file `log`. Frames come
in on standard input and go out on standard output; a host moves them.

The status is 0 at the end of the input, 2 for wrong arguments or a bad cluster file, 3
if the log could not be written, and 1 for anything else, such as a folder in which
another process runs, or a log that is damaged.";

const VERSION: &str = "casd 1";

/// Carries out the words after the program's name, and returns the exit status. It is 0 at the end of the input, and
/// otherwise that of the fault, whose text goes to `err`.
pub fn run_words<G: GivenFiles, I: Read + Drop, O: Write, E: Write>(
    alloc: Global,
    files: &mut G,
    words: &[String],
    input: I,
    output: &mut O,
    err: &mut E,
) -> u8
    ensures ends { EndsBy (G.given files.old) (G.found files.old) (G.kept files.old) (I.remaining input)
        (map string_bytes words.now) (O.contents output.old) (G.kept files.new) (O.contents output.new) result }
    ensures failure { EndsForLog (G.failed files.new) (map string_bytes words.now) result }
{
    match read_request(words) {
        Ok(request) => carry_out(alloc, files, request, input, output, err),
        Err(fault) => fault.report(err),
    }
}

// Carries out what the words ask for, and returns the exit status.
fn carry_out<G: GivenFiles, I: Read + Drop, O: Write, E: Write>(
    alloc: Global,
    files: &mut G,
    request: Request<'_>,
    input: I,
    output: &mut O,
    err: &mut E,
) -> u8
    ensures ends { (words : List Word) → Spells words request.entry
        → EndsBy (G.given files.old) (G.found files.old) (G.kept files.old) (I.remaining input) words
        (O.contents output.old) (G.kept files.new) (O.contents output.new) result }
    ensures failure { (words : List Word) → Spells words request.entry
        → EndsForLog (G.failed files.new) words result }
{
    match request {
        Request::Help => print_line(output, err, HELP),
        Request::Version => print_line(output, err, VERSION),
        Request::Run {
            file,
            number,
            folder,
        } => {
            let done = run_node(alloc, files, file, number, folder, input, output, err);
            end(done, err)
        }
    }
}

// Prints a text and a line feed, and returns the exit status.
fn print_line<O: Write, E: Write>(output: &mut O, err: &mut E, text: &str) -> u8
    ensures { Prints text.now (O.contents output.old) (O.contents output.new) result }
{
    match output.writeln(text) {
        Ok(()) => 0,
        Err(error) => Fault::OutputLost(error).report(err),
    }
}

// Returns the exit status, and says on `err` why the run failed, if it did.
fn end<E: Write>(done: Result<(), Fault>, err: &mut E) -> u8
    ensures { result ≡ status_of done }
{
    match done {
        Ok(()) => 0,
        Err(why) => why.report(err),
    }
}

// The node of this number runs until its input ends.
fn run_node<G: GivenFiles, I: Read + Drop, O: Write, E: Write>(
    alloc: Global,
    files: &mut G,
    file: &str,
    number: u8,
    folder: &str,
    input: I,
    output: &mut O,
    err: &mut E,
) -> Result<(), Fault>
    ensures runs { RunsNode number (G.given files.old file.now) (G.found files.old folder.now)
        (G.kept files.old folder.now) (I.remaining input) (O.contents output.old) (G.kept files.new folder.now)
        (O.contents output.new) result }
    ensures failure { status_of result ≡ 3 → IsTrue (G.failed files.new folder.now) }
{
    let file = match read_file(alloc, &*files, file, number) {
        Ok(file) => file,
        Err(fault) => return Err(fault),
    };
    let mut log = match open_log(&*files, folder) {
        Ok(log) => log,
        Err(fault) => return Err(fault),
    };
    let done = run_log(alloc, file, number, &mut log, input, output, err);
    files.close_log(folder, log);
    done
}

// A new node of this number runs with this log until its input ends.
fn run_log<L: StoredLog, I: Read + Drop, O: Write, E: Write>(
    alloc: Global,
    file: ClusterFile,
    number: u8,
    log: &mut L,
    input: I,
    output: &mut O,
    err: &mut E,
) -> Result<(), Fault>
    requires { IsTrue (L.sound log.old) }
    ensures runs { IsLawfulFile file → HasRunNode file number (L.written log.old) (L.kept log.old) (I.remaining input)
        (O.contents output.old) (L.kept log.new) (O.contents output.new) result }
    ensures failure { TellsFailedLog (L.failed log.old) (L.failed log.new) (status_of result) }
{
    let mut node = Node::new(alloc, file, number);
    start_and_serve(alloc, &mut node, log, input, output, err)
}

/// Starts the node with its log, of which no sync has failed, and serves until the input ends.
pub fn start_and_serve<L: StoredLog, I: Read + Drop, O: Write, E: Write>(
    alloc: Global,
    node: &mut Node,
    log: &mut L,
    input: I,
    output: &mut O,
    err: &mut E,
) -> Result<(), Fault>
    requires { IsTrue (L.sound log.old) }
    ensures runs { (names : FileOfNames) (number : ℕ) → IsNewAndIdle names number node.old
        → HasRun names number (L.written log.old) (L.kept log.old) (I.remaining input) (O.contents output.old)
        node.new (L.kept log.new) (O.contents output.new) result }
    ensures failure { TellsFailedLog (L.failed log.old) (L.failed log.new) (status_of result) }
{
    let end = match start_with(alloc, log, node, err) {
        Ok(end) => end,
        Err(fault) => return Err(fault),
    };
    match BufReader::with_capacity(alloc, INPUT_BUFFER, input) {
        Ok(mut input) => serve(alloc, node, &mut input, output, log, end, err),
        Err(_) => Err(Fault::NoMemory),
    }
}
