//! That a fit keeper stays fit, and that the letters of its node to itself are fit.
ghost use Rattle.writable.specs.Staying.{AskedKeepersAreFit, BegunKeepersAreFit, DeliveredKeepersAreFit};
ghost use Rattle.writable.specs.Staying.{GivenUpKeepersAreFit};

/// A law: a keeper stays fit as a call begins, or is refused.
pub fn begun_keepers_are_fit()
    ensures { BegunKeepersAreFit }
{}

/// A law: a keeper stays fit as a fit letter is delivered, and a value that the letter has a client told is short.
pub fn delivered_keepers_are_fit()
    ensures { DeliveredKeepersAreFit }
{}

/// A law: a keeper stays fit as a call asks again.
pub fn asked_keepers_are_fit()
    ensures { AskedKeepersAreFit }
{}

/// A law: a keeper stays fit as a call is given up.
pub fn given_up_keepers_are_fit()
    ensures { GivenUpKeepersAreFit }
{}
