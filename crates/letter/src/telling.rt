use bank::Status;
use piece::Piece;
use tag::Tag;

/// What a reply tells of its member besides its answer: what the member's bank was just after it served the request.
#[derive(Debug, Drop)]
pub struct Telling {
    /// The status of the bank's pointer.
    pub status: Status,
    /// The bank's greatest finalized tag.
    pub greatest: Tag,
    /// The piece of this tag that the bank keeps, if it keeps one and the request asked for it.
    pub piece: Option<Piece>,
}
