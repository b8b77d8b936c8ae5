//! What is written is read back.
ghost use Rattle.node_strings.specs.Laws.{WrittenRecordIsRead, RecordsDiffer, AddressesDiffer};

/// A law: the strings of a record are read as that record, two records with the same strings are the same, and so are
/// two addresses.
pub fn strings_are_read_back()
    ensures written { WrittenRecordIsRead }
    ensures records { RecordsDiffer }
    ensures addresses { AddressesDiffer }
{}
