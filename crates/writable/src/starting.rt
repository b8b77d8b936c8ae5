//! That the keepers of new nodes are fit, and the objects of nodes that carry out their logs again.
ghost use Rattle.writable.specs.Starting.{NewKeepersAreFit, ReadRecordsAreFit, RecoveredObjectsAreFit};

/// A law: what a new node keeps is fit.
pub fn new_keepers_are_fit()
    ensures { NewKeepersAreFit }
{}

/// A law: the letter or the layout of a record that is read from an entry of bytes is fit.
pub fn read_records_are_fit()
    ensures { ReadRecordsAreFit }
{}

/// A law: the objects of a node stay fit as it carries out such a record of its log again, if it is no move that is
/// refused.
pub fn recovered_objects_are_fit()
    ensures { RecoveredObjectsAreFit }
{}
