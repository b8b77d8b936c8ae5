//! The commands of a word, the name of an object and a number.
ghost use Rattle.std.specs.Prelude.{◌≡◌, ◌∷◌, List, MatchOption, map};
ghost use Rattle.script.specs.Arguments.{AreNameAndNumber};
ghost use Rattle.script.specs.Command.{ParsesToCommand, SpellsCommand};
ghost use Rattle.script.specs.FirstWord.{IsNoneOf, number_word, number_words};
ghost use Rattle.words.specs.Word.{Word};

use crate::arguments::name_and_number;
use crate::change::Change;
use crate::command::Command;
use crate::error::LineError;

/// Which of these commands. One function that reads the words of all of them takes far less long to prove than one for
/// each.
#[derive(Clone, Copy)]
pub(crate) enum NumberCommand {
    Retire,
    Advance,
    Supply,
    Settle,
    Post,
    Again,
    Answer,
    Show,
    Serve,
    Take,
    Lose,
    Repeat,
}

/// Returns which of these commands begins with the word, if one does.
pub(crate) fn number_command(word: &str) -> Option<NumberCommand>
    ensures { MatchOption result (IsNoneOf number_words word.now) (λ kind. word.now ≡ number_word kind) }
{
    match word {
        "retire" => Some(NumberCommand::Retire),
        "advance" => Some(NumberCommand::Advance),
        "supply" => Some(NumberCommand::Supply),
        "settle" => Some(NumberCommand::Settle),
        "post" => Some(NumberCommand::Post),
        "again" => Some(NumberCommand::Again),
        "answer" => Some(NumberCommand::Answer),
        "show" => Some(NumberCommand::Show),
        "serve" => Some(NumberCommand::Serve),
        "take" => Some(NumberCommand::Take),
        "lose" => Some(NumberCommand::Lose),
        "repeat" => Some(NumberCommand::Repeat),
        _ => None,
    }
}

/// Reads the words after the first one.
pub(crate) fn parse_number_command<'a>(
    kind: NumberCommand,
    words: &[&'a str],
) -> Result<Command<'a>, LineError>
    ensures { ParsesToCommand (number_word kind ∷ map (λ w. w.now) words.now) result }
{
    let (name, number) = name_and_number(words)?;
    Ok(command(kind, name, number))
}

fn command<'a>(kind: NumberCommand, name: &'a str, n: u64) -> Command<'a>
    ensures { (words : List Word) → AreNameAndNumber name.now n words
        → SpellsCommand (number_word kind ∷ words) result }
{
    match kind {
        NumberCommand::Retire => Command::Change(Change::Retire { name, position: n }),
        NumberCommand::Advance => Command::Change(Change::Advance { name, call: n }),
        NumberCommand::Supply => Command::Change(Change::Supply { name, call: n }),
        NumberCommand::Settle => Command::Change(Change::Settle { name, call: n }),
        NumberCommand::Post => Command::Change(Change::Post { name, call: n }),
        NumberCommand::Again => Command::Change(Change::Again { name, call: n }),
        NumberCommand::Answer => Command::Change(Change::Answer { name, call: n }),
        NumberCommand::Show => Command::Show { name, call: n },
        NumberCommand::Serve => Command::Change(Change::Serve { name, place: n }),
        NumberCommand::Take => Command::Change(Change::Take { name, place: n }),
        NumberCommand::Lose => Command::Change(Change::Lose { name, place: n }),
        NumberCommand::Repeat => Command::Change(Change::Repeat { name, place: n }),
    }
}
