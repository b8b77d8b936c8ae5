ghost use Rattle.node_messages.specs.Laws.{
  WrittenMessageIsRead,
  ReadMessageWasWritten,
  StringsNameOneMessage,
  ShortPiecesHaveFrames,
};

/// A law: the strings of a message are read as that message; what is read as a message is one, and the strings are
/// those of that message; and two messages with the same strings are the same message.
pub fn messages_are_read_back()
    ensures written { WrittenMessageIsRead }
    ensures read { ReadMessageWasWritten }
    ensures one { StringsNameOneMessage }
{}

/// A law: a message has a frame if neither its piece nor the piece that is told is longer than a string of a frame. So
/// `PieceTooLong` is returned only for a piece.
pub fn short_pieces_have_frames()
    ensures { ShortPiecesHaveFrames }
{}
