/// The answer if a buffer has another length than what is to be written to it: the number above those of refusals.
pub(crate) const BAD_BUFFER: u8 = 18;
