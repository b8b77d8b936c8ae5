//! The texts of answers.
ghost use Rattle.std.specs.Prelude.{◌≡◌, [], ◌∷◌, ◌++◌};
ghost use Rattle.node_exports.specs.Texts.{answer_name};

/// Sets `text` to the text of an answer, which ends with a zero byte and lasts as long as the program. The text is the
/// number and a name.
#[unsafe(no_mangle)]
pub extern "C" fn casnode_text(answer: u8, text: &mut &'static [u8])
    ensures { text.new.now ≡ answer_name answer ++ 0 ∷ [] }
{
    *text = answer_text(answer);
}

// The text of the answer, a literal, since it has to last as long as the program.
fn answer_text(answer: u8) -> &'static [u8]
    ensures { result.now ≡ answer_name answer ++ 0 ∷ [] }
{
    match answer {
        0 => b"0 Done\0",
        1 => b"1 NoMemory\0",
        2 => b"2 BadFile\0",
        3 => b"3 NoNode\0",
        4 => b"4 OldForm\0",
        5 => b"5 BadLog\0",
        6 => b"6 NoMoreIds\0",
        7 => b"7 NoFrame\0",
        8 => b"8 Stopped\0",
        9 => b"9 Failed\0",
        10 => b"10 NotOpen\0",
        11 => b"11 IsOpen\0",
        12 => b"12 BadBuffer\0",
        13 => b"13 NoTask\0",
        _ => b"Unknown\0",
    }
}
