ghost use Rattle.client_commands.specs.Laws.{ErrorTextsArePrintable, AnswersHaveFrames};

/// A law: the code and the text of an error consist of printable ASCII characters, so neither CR nor LF is in them.
pub fn error_texts_are_printable()
    ensures { ErrorTextsArePrintable }
{}

/// A law: an address and the strings of an answer are a frame, unless the address or a value is longer than a string of
/// a frame.
pub fn answers_have_frames()
    ensures { AnswersHaveFrames }
{}
