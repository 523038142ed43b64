// What is true of every event file.
ghost use Rattle.events.specs.Encoded.{WrittenInBytes, RecordReadBack, FileReadBack, EventsEncodeFile, EventsReachFault};
ghost use Rattle.events.specs.Worked.{WorkedFile, WorkedFaults};

// What is encoded is made of bytes.
pub fn encoded_in_bytes()
    ensures { WrittenInBytes }
{}

// An encoded record is read as its event.
pub fn record_reads_back()
    ensures { RecordReadBack }
{}

// An encoded file is read as its events.
pub fn file_reads_back()
    ensures { FileReadBack }
{}

// A file with no fault is the encoding of its events.
pub fn events_encode_file()
    ensures { EventsEncodeFile }
{}

// The bytes before a fault are the encoding of the events before it.
pub fn events_reach_fault()
    ensures { EventsReachFault }
{}

// Files that were worked by hand.
pub fn worked_files()
    ensures file { WorkedFile }
    ensures faults { WorkedFaults }
{}
