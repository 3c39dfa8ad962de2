//! The names of statuses.
use hl_base::OutOfMemory;
use hlasm_server::Status;
use std::alloc::Global;

/// The statuses; the place of a bad frame is told.
fn statuses(at: u64) -> [Status; 9] {
    [
        Status::Done,
        Status::NoShutdown,
        Status::InputEnded,
        Status::OutOfMemory,
        Status::BadFrame { at },
        Status::ReadFault,
        Status::WriteFault,
        Status::BadWords,
        Status::InputTooLong,
    ]
}

/// The name of the status with which a process ends so; that of a bad frame has its place.
pub fn name(alloc: Global, number: usize, at: u64) -> Result<String, OutOfMemory> {
    for status in statuses(at) {
        if status.number() as usize == number {
            return Ok(format!(in alloc; "{status}")?);
        }
    }
    Ok(String::from_str(alloc, "no status")?)
}
