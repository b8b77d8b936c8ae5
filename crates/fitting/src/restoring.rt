//! Letters that a node writes to its log for a fit object, though none of them came to it.
ghost use Rattle.fitting.specs.Restoring.{RaisingLettersAreFit, RestoringLettersAreFit};

/// A law: the letter with which a node asks itself to raise a pointer is fit.
pub fn raising_letters_are_fit()
    ensures { RaisingLettersAreFit }
{}

/// A law: so are the letters of a rewritten log that lead to the banks of an object.
pub fn restoring_letters_are_fit()
    ensures { RestoringLettersAreFit }
{}
