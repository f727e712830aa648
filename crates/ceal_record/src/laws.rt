// The laws of records, each the contract of a function that does nothing but call the laws on which it rests.

ghost use Rattle.ceal_record.specs.Certificates.{OneRunLaw, SomeCertificateLaw};
ghost use Rattle.ceal_record.specs.Laws.{OneRecordLaw, RenamedLaw, SomeRecordLaw};

/// A trace of a call has one record.
pub fn one_record_law()
    ensures law { OneRecordLaw }
{}

/// A trace whose core blocks are renamed one to one has the same record.
pub fn renamed_law()
    ensures law { RenamedLaw }
{}

/// A trace has a record: each block that it allocates is in the memory after it.
pub fn some_record_law()
    ensures law { SomeRecordLaw }
{}

/// Two records of one call to which the checker says yes are of one run: their traces are one up to the numbers of core
/// blocks, and so are their memories. Nothing is asked of who made them.
pub fn one_run_law()
    ensures law { OneRunLaw }
{
    ceal_theory::laws::unique_law();
    ceal_traceck::laws::sound_law();
}

/// Where the run from scratch of a call ends, there is a record of it to which the checker says yes. So a yes is a
/// certificate in both directions.
pub fn some_certificate_law()
    ensures law { SomeCertificateLaw }
{
    ceal_theory::laws::first_law();
    ceal_theory::names::renaming_law();
    some_record_law();
}
