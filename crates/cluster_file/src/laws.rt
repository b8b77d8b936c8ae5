ghost use Rattle.cluster_file.specs.Laws.{HashedBytesDiffer, PlacedLayoutsAreLawful};
ghost use Rattle.cluster_file.specs.Written.{ReadFilesAreWritten, WrittenFilesAreRead};

/// A law: if a text is read as a file, its lines are the seven settings in their order, and each of their words writes
/// what the file has in its place.
pub fn read_files_are_written()
    ensures { ReadFilesAreWritten }
{}

/// A law: a text whose lines are the seven settings in their order, and whose words write a lawful file with numbers in
/// range, is read as that file.
pub fn written_files_are_read()
    ensures { WrittenFilesAreRead }
{}

/// A law: if the same bytes are hashed for two files, their fixed settings are the same.
pub fn hashed_bytes_differ()
    ensures { HashedBytesDiffer }
{}

/// A law: the nodes of a file give each name a lawful layout.
pub fn placed_layouts_are_lawful()
    ensures { PlacedLayoutsAreLawful }
{}
