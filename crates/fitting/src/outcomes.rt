//! What exactly the functions of a node's object do leaves a fit object fit.
ghost use Rattle.fitting.specs.Outcomes.{BeginningStaysFit, ClosingStaysFit, EndingStaysFit, FirstLettersAreFit};
ghost use Rattle.fitting.specs.Outcomes.{HearingStaysFit, ReadingOnStaysFit, ResentIsFit, ServingStaysFit};
ghost use Rattle.fitting.specs.Outcomes.{TakingStaysFit};

/// A law: an object to which a request comes with a fit letter stays fit, and so is what it sends: its reply, or the
/// letter that it sends back.
pub fn serving_stays_fit()
    ensures { ServingStaysFit }
{}

/// A law: so does one that takes a reply with a fit letter, and what clients are told is not too long.
pub fn taking_stays_fit()
    ensures { TakingStaysFit }
{}

/// A law: so does one at which a call begins that it does not refuse.
pub fn beginning_stays_fit()
    ensures { BeginningStaysFit }
{}

/// A law: the first letters of a call that begins are fit, even if the object refuses the call.
pub fn first_letters_are_fit()
    ensures { FirstLettersAreFit }
{}

/// A law: so does one whose call is given up.
pub fn ending_stays_fit()
    ensures { EndingStaysFit }
{}

/// A law: so does one whose call goes on at the object's start, and its requests are fit.
pub fn reading_on_stays_fit()
    ensures { ReadingOnStaysFit }
{}

/// A law: so does one that raises the pointer of a bank before its start, or closes a bank.
pub fn closing_stays_fit()
    ensures { ClosingStaysFit }
{}

/// A law: so does one of which the node hears a position.
pub fn hearing_stays_fit()
    ensures { HearingStaysFit }
{}

/// A law: the letters that a call of a fit object sends again are fit.
pub fn resent_is_fit()
    ensures { ResentIsFit }
{}
