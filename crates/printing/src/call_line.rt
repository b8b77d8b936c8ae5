//! The line that says how far a call has come.
ghost use Rattle.std.specs.Prelude.{Some};
ghost use Rattle.printing.specs.CallLine.{call_text};

use crate::dash::TagOrDash;
use crate::vocabulary::{kind_word, operation_word, want_word};
use call::CallView;
use std::fmt;
use tag::CallId;

/// The line of a call: `call C KIND phase J PHASE P replies R of Q tag T want W`.
#[derive(Clone, Copy)]
pub struct CallLine<'a> {
    /// The call's number in its object, from 1.
    pub call: CallId,
    /// How far the call has come.
    pub view: &'a CallView,
}

impl fmt::Display for CallLine<'_> {
    ghost output = { λ line. Some (call_text line.call line.view.now) };

    fn fmt<W: fmt::Write>(&self, f: &mut fmt::Formatter<W>) -> fmt::Result {
        let view = self.view;
        write!(
            f,
            "call {} {} phase {} {} {} replies {} of {} tag {} want {}",
            self.call,
            operation_word(view.kind),
            view.number,
            kind_word(view.phase),
            view.position,
            view.replies,
            view.quorum,
            TagOrDash(view.tag),
            want_word(view.want)
        )
    }
}
