ghost use Rattle.std.specs.Prelude.{◌≡◌, ◌≢◌, ◌↔◌, IsTrue};

use super::ClosedBank;
use bank::{Answer, Reply, Request, Status};
use tag::Stamp;

impl ClosedBank {
    ghost use Rattle.closed_bank.specs.Serve.{changes_closed, closed_after, closed_reply};

    /// Serves a request at step `now`. Returns none if it is a fetch: then it declines the request, and nothing
    /// changes. Otherwise the reply is the one that the whole bank would make. It keeps no piece that comes.
    pub fn serve(&mut self, request: &Request, now: Stamp) -> Option<Reply>
        ensures bank { self.new ≡ closed_after self.old request.now }
        ensures reply { result ≡ closed_reply self.old request.now now }
    {
        let answer = match request {
            Request::Next => Answer::Pointer(Status::Final),
            Request::Spread(_) | Request::PreWrite(_, _) => Answer::Done,
            Request::Query => Answer::Greatest(self.greatest),
            Request::Finalize(tag) => {
                self.greatest = self.greatest.later(*tag);
                Answer::Done
            }
            Request::Fetch(_) => return None,
        };
        Some(Reply { step: now, answer })
    }

    /// Returns whether a request changes the closed bank: whether it finalizes a greater tag than any before.
    pub fn is_changed_by(&self, request: &Request) -> bool
        ensures value { result ≡ changes_closed self.now request.now }
        ensures changed { IsTrue result ↔ (closed_after self.now request.now ≢ self.now) }
    {
        match request {
            Request::Finalize(tag) => self.greatest.is_below(*tag),
            _ => false,
        }
    }
}
