//! Members that are read.
ghost use Rattle.std.specs.Prelude.{◌≡◌, ◌≤◌, IfOk, IfSome, OnOk, Some};
ghost use Rattle.std.specs.Str.{chars};
ghost use Rattle.std.specs.String.{string_len};
ghost use Rattle.document_store.specs.Members.{file_given};
ghost use Rattle.library_reading.specs.Asked.{AsksOver};
ghost use Rattle.library_reading.specs.Inside.{file_answer};
ghost use Rattle.library_reading.specs.Log.{said_full};
ghost use Rattle.library_reading.specs.Taking.{file_of_bytes, file_taken, file_told, member_read, path_dropped};

use crate::answers::FileAnswer;
use crate::asking::ask_file;
use crate::logs::Logs;
use document_store::{DocumentStore, StoreFault};
use hl_base::OutOfMemory;
use io_edge::Library;
use std::alloc::Global;
use text_pool::LONGEST_TEXT;

/// Forgets what was read of the file of a path. An open document of that path stays.
pub fn drop_path(store: &mut DocumentStore, path: &str)
    ensures { store.new.store ≡ path_dropped store.old.store (chars path.now) }
{
    if let Some(number) = store.path_id(path) {
        store.drop_member(number);
    }
}

/// The text of a file, of which no copy is made; none where its bytes are not UTF-8, or more than 4 MiB.
fn text_of(bytes: Vec<u8>) -> Option<String>
    ensures text { file_given result ≡ file_of_bytes bytes.items }
    ensures short { IfSome result (λ text. string_len text ≤ LONGEST_TEXT) }
{
    if bytes.len() > LONGEST_TEXT {
        return None;
    }
    match String::from_utf8(bytes) {
        Ok(text) => Some(text),
        Err(_) => None,
    }
}

/// Forgets a file for which there is no room, and says so.
fn refuse(
    alloc: Global,
    path: &str,
    store: &mut DocumentStore,
    logs: &mut Logs,
) -> Result<(), OutOfMemory>
    ensures store { store.new.store ≡ path_dropped store.old.store (chars path.now) }
    ensures said { OnOk result (logs.new ≡ said_full logs.old) }
{
    drop_path(store, path);
    logs.say_full(alloc)
}

/// Keeps what was read of a file, and answers whether there was room.
fn keep(
    alloc: Global,
    path: &str,
    text: Option<String>,
    store: &mut DocumentStore,
    logs: &mut Logs,
) -> Result<bool, OutOfMemory>
    requires short { IfSome text (λ text. string_len text ≤ LONGEST_TEXT) }
    ensures { IfOk result (λ room.
        file_taken (record { store = store.old.store; log = logs.old }) (chars path.now) (Some (file_given text))
        ≡ record { taking = record { store = store.new.store; log = logs.new }; room = room }) }
{
    match store.keep_member(alloc, path, text) {
        Ok(_) => Ok(true),
        Err(StoreFault::OutOfMemory) => Err(OutOfMemory),
        Err(_) => {
            refuse(alloc, path, store, logs)?;
            Ok(false)
        }
    }
}

/// Takes an answer of the library for what is known of a file, and answers whether there was room.
fn take(
    alloc: Global,
    path: &str,
    answer: FileAnswer,
    store: &mut DocumentStore,
    logs: &mut Logs,
) -> Result<bool, OutOfMemory>
    ensures { IfOk result (λ room.
        file_taken (record { store = store.old.store; log = logs.old }) (chars path.now) (file_told (file_answer answer))
        ≡ record { taking = record { store = store.new.store; log = logs.new }; room = room }) }
{
    match answer {
        FileAnswer::Absent => {
            drop_path(store, path);
            Ok(true)
        }
        FileAnswer::Found(bytes) => keep(alloc, path, text_of(bytes), store, logs),
        FileAnswer::Refused => keep(alloc, path, None, store, logs),
    }
}

/// Reads a member, for the first time or again, and answers whether there was room for it. After an `Err` nothing is known of
/// the store and the log.
pub fn read_member<B: Library>(
    alloc: Global,
    path: &str,
    library: &mut B,
    store: &mut DocumentStore,
    logs: &mut Logs,
) -> Result<bool, OutOfMemory>
    ensures { AsksOver (member_read (chars path.now) (record { store = store.old.store; log = logs.old }))
        (λ room. record { taking = record { store = store.new.store; log = logs.new }; room = room }) result
        (B.calls library.old) (B.calls library.new) (B.faults library.old) (B.faults library.new) }
{
    let answer = ask_file(alloc, path, library)?;
    take(alloc, path, answer, store, logs)
}
