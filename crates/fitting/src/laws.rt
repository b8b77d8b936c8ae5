//! What is true of fit objects, and of their letters.
ghost use Rattle.fitting.specs.Laws.{AllStayFit, FitLettersAreMessages, NewIsFit, StaysFit};
ghost use Rattle.fitting.specs.Reading.{ReadLettersAreFit};

/// A law: a fit letter with a short name is a message, and its strings are a frame.
pub fn fit_letters_are_messages()
    ensures { FitLettersAreMessages }
{}

/// A law: an object of which a node has not heard is fit.
pub fn new_is_fit()
    ensures { NewIsFit }
{}

/// A law: what a node does with a fit object, if there is room for it, leaves it fit, and all letters sent are fit.
pub fn stays_fit()
    ensures { StaysFit }
{}

/// A law: so do several such events, one after another.
pub fn all_stay_fit()
    ensures { AllStayFit }
{}

/// A law: what is read from the strings of a frame is a fit letter with a short name.
pub fn read_letters_are_fit()
    ensures { ReadLettersAreFit }
{}
