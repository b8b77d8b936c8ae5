//! Runs of separate nodes, proved as theorems.
ghost use Rattle.std.specs.Prelude.{◌≡◌, Some};
ghost use Rattle.bank.specs.Bank.{piece_of};
ghost use Rattle.network.specs.Events.{world_after};
ghost use Rattle.network.specs.Premises.{MayHappenInTurn};
ghost use Rattle.network.specs.Worlds.{member_bank};
ghost use Rattle.example_tests.specs.NodeExamples.{crash, crash_entries, taken_twice, taken_twice_entries};
ghost use Rattle.example_tests.specs.NodeExamples.{taken_again, until_taken, write_and_read, write_and_read_entries};
ghost use Rattle.example_tests.specs.Moving.{at_first, move_while_writing, move_while_writing_entries};
ghost use Rattle.example_tests.specs.RecordExamples.{whole};
ghost use Rattle.example_tests.specs.Scripts.{letter_piece, start, write_tag};

/// Example: a whole write and a whole read over three nodes. The write has the replies of the nodes 0 and 1, and the
/// read those of the nodes 1 and 2.
pub fn a_write_and_a_read_at_nodes()
    ensures may { MayHappenInTurn whole write_and_read start }
    ensures gives { (world_after whole write_and_read start).history ≡ write_and_read_entries }
{}

/// Example: a node serves the request to finalize a write's tag, stops before any call takes its reply, and starts
/// again from its log. It serves the request once more. A read from it and from a node that the write did not reach
/// returns the value.
pub fn a_crash_before_the_reply()
    ensures may { MayHappenInTurn whole crash start }
    ensures gives { (world_after whole crash start).history ≡ crash_entries }
{}

/// Example: a call that takes a reply a second time does not change, and goes on to its answer as if nothing had
/// happened.
pub fn a_reply_taken_twice()
    ensures may { MayHappenInTurn whole taken_twice start }
    ensures unchanged { (world_after whole taken_again start).calls ≡ (world_after whole until_taken start).calls }
    ensures gives { (world_after whole taken_twice start).history ≡ taken_twice_entries }
{}

/// Example: a move begins and ends while a write is under way. The write learns of the new position, and its value is
/// kept there too.
pub fn a_move_while_a_write_is_under_way()
    ensures may { MayHappenInTurn whole move_while_writing at_first }
    ensures gives { (world_after whole move_while_writing at_first).history ≡ move_while_writing_entries }
    ensures kept { piece_of (member_bank (world_after whole move_while_writing at_first) 1 0) write_tag
        ≡ Some (letter_piece 0) }
{}
