//! The language server as a program, over standard input and output and the files of this machine.
//!
//! It hands the words after its name, standard input, standard output and the file system to `hlasm_server::run`, and ends
//! with the number of the status. If the status is not `Done`, its name is printed on standard error, and after words that are not a
//! command two lines that say how the program is started, or the help or the version if they ask for that; standard output has
//! nothing but the session's frames, or the lines of `bulk`. What a run writes is the contract of `run`; here is only what it runs on.
#![tactic(auto)]

ghost use Rattle.std.specs.Prelude.{◌≡◌, None, map, string_bytes, ◌⊎◌};
ghost use Rattle.command_words.specs.Commands.{command_of};

use command_words::advice;
use hl_base::{Ledger, OutOfMemory, Steps};
use hlasm_server::{Status, run};
use io_edge::{FolderLibrary, Library, StdSink, StdSource};
use std::alloc::Global;
use std::env;
use std::io::{ErrorKind, Read, Write};
use std::marker::Brand;
use std::process::ExitCode;
use std::sync::ledger::Blank;

/// The words after the program's name. Words that are no UTF-8 are no command.
fn words_after_name(rt: &HostRuntime) -> Result<Vec<String>, Status> {
    let mut words = match env::args(rt) {
        Ok(words) => words,
        Err(error) if error.kind() == ErrorKind::OutOfMemory => return Err(Status::OutOfMemory),
        Err(_) => return Err(Status::BadWords),
    };
    let _name = words.next();
    let mut after = Vec::new(rt.alloc());
    for word in words {
        if after.push(word).is_err() {
            return Err(Status::OutOfMemory);
        }
    }
    Ok(after)
}

/// Runs the command over an input, an output and a library, in a ledger that nothing else uses.
fn run_on_streams<I: Read + Drop, O: Write + Drop, B: Library + Drop, L: Ledger>(
    alloc: Global,
    words: &[String],
    input: I,
    output: O,
    mut library: B,
    blank: Blank,
) -> Status
    requires name { blank.name ≡ L.name }
    requires parts { blank.parts ≡ L.parts }
    requires one { blank.parts ≡ 1 }
    ensures no_command { command_of (map string_bytes words.now) ≡ None
        → (result ≡ Status.BadWords) ⊎ (result ≡ Status.OutOfMemory) }
    ensures bad_words { result ≡ Status.BadWords → command_of (map string_bytes words.now) ≡ None }
{
    let mut source = match StdSource::new(alloc, input) {
        Ok(source) => source,
        Err(OutOfMemory) => return Status::OutOfMemory,
    };
    let mut sink = StdSink::new(output);
    let mut steps = Steps::<L>::open(blank);
    run(
        alloc,
        words,
        &mut source,
        &mut sink,
        &mut library,
        &mut steps,
    )
}

/// Ends with a status. Its name is printed, unless it is `Done`, and after words that are not a command lines for whoever wrote
/// them. What standard error does not take is lost.
fn end(rt: &HostRuntime, words: &[String], status: Status) -> ExitCode {
    if status != Status::Done {
        let _ = rt.eprintln(status);
    }
    if status == Status::BadWords {
        if let Ok(lines) = advice(rt.alloc(), words) {
            let _ = rt.eprintln(lines.as_str());
        }
    }
    ExitCode::from(status.number())
}

fn main(rt: HostRuntime) -> ExitCode {
    let words = match words_after_name(&rt) {
        Ok(words) => words,
        Err(status) => return end(&rt, &[], status),
    };
    let status = run_on_streams::<_, _, _, Brand>(
        rt.alloc(),
        &words,
        rt.stdin(),
        rt.stdout(),
        FolderLibrary::new(&rt),
        Blank::new(1),
    );
    end(&rt, &words, status)
}
