ghost use Rattle.std.specs.Prelude.{◌≡◌, ◌<◌, [], ◌∷◌, ◌++◌, codes};
ghost use Rattle.tag.specs.Refusal.{number_of, refusal_text};
ghost use Rattle.tag.specs.declared.refusal.Refusal.{Refusal};
ghost use Rattle.coding_exports.specs.declared.answer.TheConstants.{BAD_BUFFER};

/// Sets `text` to the text of an answer, which ends with a zero byte and lasts as long as the program. The text of a
/// refusal is its number and its name.
#[unsafe(no_mangle)]
pub extern "C" fn coding_text(answer: u8, text: &mut &'static [u8])
    ensures done { answer ≡ 0 → text.new.now ≡ codes "0 Done" ++ 0 ∷ [] }
    ensures refusal { (r : Refusal) → answer ≡ number_of r → text.new.now ≡ refusal_text r ++ 0 ∷ [] }
    ensures bad_buffer { answer ≡ BAD_BUFFER → text.new.now ≡ codes "18 BadBuffer" ++ 0 ∷ [] }
    ensures unknown { BAD_BUFFER < answer → text.new.now ≡ codes "Unknown" ++ 0 ∷ [] }
{
    *text = answer_text(answer);
}

// The text of the answer. The texts of refusals are literals, since each has to end with a zero byte and to last as
// long as the program.
fn answer_text(answer: u8) -> &'static [u8]
    ensures done { answer ≡ 0 → result.now ≡ codes "0 Done" ++ 0 ∷ [] }
    ensures refusal { (r : Refusal) → answer ≡ number_of r → result.now ≡ refusal_text r ++ 0 ∷ [] }
    ensures bad_buffer { answer ≡ BAD_BUFFER → result.now ≡ codes "18 BadBuffer" ++ 0 ∷ [] }
    ensures unknown { BAD_BUFFER < answer → result.now ≡ codes "Unknown" ++ 0 ∷ [] }
{
    match answer {
        0 => b"0 Done\0",
        1 => b"1 NoMemory\0",
        2 => b"2 BadLayout\0",
        3 => b"3 NoObject\0",
        4 => b"4 ObjectExists\0",
        5 => b"5 TooLong\0",
        6 => b"6 NoCall\0",
        7 => b"7 NotNow\0",
        8 => b"8 NoMessage\0",
        9 => b"9 Down\0",
        10 => b"10 WrongCode\0",
        11 => b"11 MovePending\0",
        12 => b"12 Full\0",
        13 => b"13 Stuck\0",
        14 => b"14 GaveUp\0",
        15 => b"15 BadPieces\0",
        16 => b"16 Collected\0",
        17 => b"17 Stranger\0",
        18 => b"18 BadBuffer\0",
        _ => b"Unknown\0",
    }
}
