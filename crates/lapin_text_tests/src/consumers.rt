//! Consumers: the lines of items and jobs that hold no message. Their events and calls stand in the program's tables.
use lapin_text::print_records;
use lapin_types::{Error, Job, JobKind, Record};
use std::test::Fail;

// Records that hold a message stand in the program's own tables.
#[test]
fn records_without_messages_are_printed(rt: HostRuntime) -> Result<(), Fail> {
    let records = [
        Record::Item(Ok(None)),
        Record::Item(Err(Error::ProtocolError(505))),
        Record::No,
        Record::Delegated,
        Record::Dropped(false),
        Record::Dropped(true),
        Record::NoJob,
        job(2, JobKind::Deliver(Ok(None))),
        job(3, JobKind::Deliver(Err(Error::ConnectionLost))),
        job(18446744073709551615, JobKind::Discard),
    ];
    let printed = print_records(rt.alloc(), &records)?;
    let wanted = b"end\nfailed ProtocolError 505\nno\ndelegated\ndropped 0\ndropped 1\nnojob\n\
        job 2 end\njob 3 failed ConnectionLost\njob 18446744073709551615 discard\n";
    assert_eq!(rt; printed.as_slice(), wanted.as_slice());
    Ok(())
}

fn job(consumer: u64, kind: JobKind) -> Record {
    Record::Job(Job { consumer, kind })
}
