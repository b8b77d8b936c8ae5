//! What a node can write whose keeper is fit, and at whose desk all names are short.
ghost use Rattle.writable_nodes.specs.Commands.{ReadCommandsAreFit};
ghost use Rattle.writable_nodes.specs.Desks.{DesksStayFit};
ghost use Rattle.writable_nodes.specs.Laws.{FitNodesCanDoWhatComes, FitNodesCanGoOn, FitNodesStopAtAnswers};
ghost use Rattle.writable_nodes.specs.Starts.{StartsAreFit};

/// A law: what is read from the strings of a client's frame is a fault, or a command whose names are short.
pub fn read_commands_are_fit()
    ensures { ReadCommandsAreFit }
{}

/// A law: the names at a desk stay short, whatever is done for clients.
pub fn desks_stay_fit()
    ensures { DesksStayFit }
{}

/// A law: with what has come, a fit node fails because something does not fit only at a plain answer.
pub fn fit_nodes_can_do_what_comes()
    ensures { FitNodesCanDoWhatComes }
{}

/// A law: so it does with its next letter to itself, or with the next command of a client.
pub fn fit_nodes_can_go_on()
    ensures { FitNodesCanGoOn }
{}

/// A law: so it does at a frame of bytes, with what has come or later.
pub fn fit_nodes_stop_at_answers()
    ensures { FitNodesStopAtAnswers }
{}

/// A law: a node that has carried out a log of bytes again and has started is fit.
pub fn starts_are_fit()
    ensures { StartsAreFit }
{}
