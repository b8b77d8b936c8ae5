//! How a node answers commands that begin no call.
ghost use Rattle.std.specs.Prelude.{◌≡◌, false, IfErr, IfOk};
ghost use Rattle.indexmap.specs.IndexMap.{index_map_len};
ghost use Rattle.client_commands.specs.Patterns.{names_told};
ghost use Rattle.node_effects.specs.declared.error.NodeError.TheVariants.{NoMemory};
ghost use Rattle.node.specs.AtOnce.{IsPlainHere};
ghost use Rattle.node.specs.GivenIds.{is_refusal};
ghost use Rattle.node.specs.Replies.{IsPlainReply};
ghost use Rattle.node.specs.Shown.{IsPageHere};

use super::Node;
use bytes::Bytes;
use client_commands::{Answer, Command, ScanOptions, count_names, matching_names};
use node_effects::NodeError;
use node_strings::ConnectionId;

impl Node {
    /// Returns the answer to a command that begins no call, and is no `QUIT`.
    pub(super) fn plain_answer(
        &self,
        client: ConnectionId,
        command: Command,
    ) -> Result<Answer, NodeError>
        ensures plain { IfOk result (IsPlainReply client command) }
        ensures unrefused { IfOk result (λ answer. is_refusal answer ≡ false) }
        ensures here { IfOk result
            (IsPlainHere self.now.keeper self.now.peers (index_map_len self.now.desk.calls) self.now.desk.counts
            command) }
        ensures refused { IfErr result (λ e. e ≡ NoMemory) }
    {
        match command {
            Command::Info(asked) => Ok(Answer::Value(self.info(asked)?)),
            Command::CountWritten => Ok(Answer::Number(self.keeper.objects.count_written())),
            Command::ShowLayout(name) => Ok(Answer::Value(self.layout_line(&name)?)),
            Command::Scan { cursor, options } => self.page(cursor, options),
            Command::Ping(None) => Ok(Answer::Pong),
            Command::Ping(Some(text)) => Ok(Answer::Value(text)),
            Command::Echo(text) => Ok(Answer::Value(text)),
            Command::ListCommands => Ok(Answer::NoCommands),
            Command::CountCommands => Ok(Answer::Number(count_names())),
            Command::ClientId => Ok(Answer::Number(client)),
            Command::ClientName => Ok(Answer::Nil),
            Command::Hello => Ok(Answer::Greeting(client)),
            _ => Ok(Answer::Ok),
        }
    }

    // The answer to a `SCAN`.
    fn page(&self, cursor: u64, options: ScanOptions) -> Result<Answer, NodeError>
        ensures page { IfOk result (IsPageHere self.now.keeper.objects cursor options) }
        ensures unrefused { IfOk result (λ answer. is_refusal answer ≡ false) }
        ensures refused { IfErr result (λ e. e ≡ NoMemory) }
    {
        let page = self.keeper.objects.scan(cursor, options.count)?;
        Ok(Answer::Page {
            next: page.next,
            names: self.told(options.pattern, page.names)?,
        })
    }

    // Those of these names that match a pattern, if there is one.
    fn told(&self, pattern: Option<Bytes>, names: Vec<Bytes>) -> Result<Vec<Bytes>, NodeError>
        ensures told { IfOk result (λ told. told.items ≡ names_told pattern names.items) }
        ensures refused { IfErr result (λ e. e ≡ NoMemory) }
    {
        match pattern {
            Some(pattern) => Ok(matching_names(self.alloc, &pattern, &names)?),
            None => Ok(names),
        }
    }
}
