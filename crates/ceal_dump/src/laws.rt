// The laws of dump texts, each the contract of a function that does nothing.

ghost use Rattle.ceal_dump.specs.Answers.{OneRecordLaw, DumpOrNoneLaw, ReadBackLaw};

/// Bytes are the dump text of one record at most.
pub fn one_record_law()
    ensures law { OneRecordLaw }
{}

/// Bytes are the dump text of a record, or of none.
pub fn dump_or_none()
    ensures law { DumpOrNoneLaw }
{}

/// What is written of a record is read as that record: `dump_text` writes its dump (`dump`), and of a dump `read_dump`
/// gives the record, if there is memory.
pub fn read_back_law()
    ensures law { ReadBackLaw }
{}
