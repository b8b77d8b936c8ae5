//! The line of the accounts.
ghost use Rattle.std.specs.Prelude.{Some};
ghost use Rattle.player.specs.AccountLine.{account_text};

use cluster::Cluster;
use std::fmt;

/// The line of a cluster's accounts, in bytes of pieces: `stored S mailed M`, and then ` SERVER:BYTES` for each server
/// in rising order. S is what all servers store, and M what waits in messages.
#[derive(Clone, Copy)]
pub(crate) struct AccountLine<'a>(pub(crate) &'a Cluster);

impl fmt::Display for AccountLine<'_> {
    ghost output = { λ line. Some (account_text line.0.now) };

    fn fmt<W: fmt::Write>(&self, f: &mut fmt::Formatter<W>) -> fmt::Result {
        let cluster = self.0;
        write!(
            f,
            "stored {} mailed {}",
            cluster.stored_all(),
            cluster.mailed()
        )?;
        for server in 0..cluster.servers() {
            write!(f, " {server}:{}", cluster.stored(server))?;
        }
        Ok(())
    }
}
