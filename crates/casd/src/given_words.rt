//! The words that the program is given, and what it does with them.
ghost use Rattle.std.specs.Prelude.{◌≡◌, drop};
ghost use Rattle.casd.specs.Ending.{EndsAsCalled, EndsForLogAsCalled};

use crate::fault::Fault;
use crate::files::GivenFiles;
use crate::program::run_words;
use std::alloc::Global;
use std::io::{Read, Write};

/// The command line with which the program was called.
pub trait GivenWords {
    ghost use Rattle.std.specs.Prelude.{◌≡◌, ℕ, List, Option, None, IfErr, IfOk, IfSome, map, string_bytes};
    ghost use Rattle.casd.specs.Fault.{IsWordsFault};

    // The words, where they are known. The first one is the name of the program.
    ghost words: { Self → Option (List (List ℕ)) } = { λ _. None };

    /// Returns the words. Fails with `NotText` if one of them is not UTF-8, and with `NoMemory`.
    fn all_words(&self) -> Result<Vec<String>, Fault>
        ensures given { IfOk result (λ all. IfSome (words self.now) (λ known. map string_bytes all.items ≡ known)) }
        ensures fault { IfErr result IsWordsFault };
}

/// Carries out the words behind the name of the program, and returns the exit status.
pub fn run_given<W: GivenWords, G: GivenFiles, I: Read + Drop, O: Write, E: Write>(
    alloc: Global,
    given: &W,
    files: &mut G,
    input: I,
    output: &mut O,
    err: &mut E,
) -> u8
    ensures ends { EndsAsCalled (W.words given.now) (G.given files.old) (G.found files.old) (G.kept files.old)
        (I.remaining input) (O.contents output.old) (G.kept files.new) (O.contents output.new) result }
    ensures failure { EndsForLogAsCalled (W.words given.now) (G.failed files.new) result }
{
    match given.all_words() {
        Ok(words) => run_words(alloc, files, behind_first(&words), input, output, err),
        Err(fault) => fault.report(err),
    }
}

// The words behind the first one, or none if there is no word.
fn behind_first(words: &[String]) -> &[String]
    ensures { result.now ≡ drop 1 words.now }
{
    match words {
        [_, rest @ ..] => rest,
        [] => words,
    }
}
