//! What a node can write whose keeper is fit.
ghost use Rattle.writable.specs.Laws.{FitKeepersCanBegin, FitKeepersCanDeliver, FitKeepersCanResend};
ghost use Rattle.writable.specs.Laws.{FitKeepersCanRewrite};

/// A law: everything that has to be written when a call begins can be written.
pub fn fit_keepers_can_begin()
    ensures { FitKeepersCanBegin }
{}

/// A law: so can everything for a fit letter that has come, also what the log gets as the node then closes banks.
pub fn fit_keepers_can_deliver()
    ensures { FitKeepersCanDeliver }
{}

/// A law: so can each request of a call that asks again.
pub fn fit_keepers_can_resend()
    ensures { FitKeepersCanResend }
{}

/// A law: so can each record of a rewritten log, if the names of the objects are short.
pub fn fit_keepers_can_rewrite()
    ensures { FitKeepersCanRewrite }
{}
