//! Runs of two nodes that act by what they keep, event by event.
ghost use Rattle.example_tests.specs.RefinedExamples.{AReadOfANewObject, AWriteAndARestart};

/// A law: node 1 writes a value, which node 0 keeps, and node 0 stops and starts again. Each event may happen, and the
/// write is answered.
pub fn a_write_and_a_restart()
    ensures { AWriteAndARestart }
{}

/// A law: node 1 reads an object that was never written, from node 0. Each event may happen, and the read returns the
/// empty value.
pub fn a_read_of_a_new_object()
    ensures { AReadOfANewObject }
{}
