//! Laws: what is read has one meaning.

ghost use Rattle.spool_files.specs.Batches.{HasOneList};
ghost use Rattle.spool_files.specs.Entries.{AreOfOneList};

/// Octets are those of one list of entries at most, and a file has one list of batches at most.
pub fn what_is_read_is_one()
    ensures entries { AreOfOneList }
    ensures batches { HasOneList }
{}
