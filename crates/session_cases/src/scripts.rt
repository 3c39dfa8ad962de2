//! Scripts: texts that are opened, and messages to debug sessions.
use crate::assembling::launched;
use crate::messages::{cut, text};
use crate::texts::named;
use crate::worded::worded;
use dap_messages::read_dap;
use debug_sessions::DebugSessions;
use document_store::{DocumentStore, StoreFault};
use hl_base::OutOfMemory;
use json_view::parse;
use std::alloc::Global;
use text_pool::LONGEST_TEXT;

/// The texts that are open, and the sessions.
#[derive(Drop)]
struct Stage {
    store: DocumentStore,
    sessions: DebugSessions,
    // How many messages there were.
    messages: u32,
}

/// What is wrong with a step that says nothing otherwise.
fn refused(alloc: Global, fault: StoreFault) -> Result<String, OutOfMemory> {
    match fault {
        StoreFault::OutOfMemory => Err(OutOfMemory),
        _ => Ok(String::from_str(alloc, "refused")?),
    }
}

impl Stage {
    fn new(alloc: Global) -> Stage {
        Stage {
            store: DocumentStore::new(alloc),
            sessions: DebugSessions::new(alloc),
            messages: 0,
        }
    }

    /// `open PATH NAME`: the text of a name at a path, in place of one that is open there.
    fn open(&mut self, alloc: Global, words: &str) -> Result<String, OutOfMemory> {
        let (path, name) = cut(words);
        let uri = format!(in alloc; "file://{path}")?;
        let _ = self.store.close(alloc, uri.as_str());
        match self
            .store
            .open_text(alloc, uri.as_str(), "hlasm", 1, named(name))
        {
            Ok(()) => Ok(String::new(alloc)),
            Err(fault) => refused(alloc, fault),
        }
    }

    /// `close PATH`.
    fn close(&mut self, alloc: Global, path: &str) -> Result<String, OutOfMemory> {
        let uri = format!(in alloc; "file://{path}")?;
        match self.store.close(alloc, uri.as_str()) {
            Ok(()) => Ok(String::new(alloc)),
            Err(fault) => refused(alloc, fault),
        }
    }

    /// `member PATH NAME`: the text of a name as the file of a member.
    fn member(&mut self, alloc: Global, words: &str) -> Result<String, OutOfMemory> {
        let (path, name) = cut(words);
        let text = named(name);
        if text.len() > LONGEST_TEXT {
            return Ok(String::from_str(alloc, "too long")?);
        }
        match self.store.set_member(alloc, path, Some(text)) {
            Ok(_) => Ok(String::new(alloc)),
            Err(fault) => refused(alloc, fault),
        }
    }

    /// `NUMBER COMMAND..`: a message to the session of a number.
    fn send(&mut self, alloc: Global, number: u32, words: &str) -> Result<String, OutOfMemory> {
        self.messages = self.messages.saturating_add(1);
        let text = text(alloc, self.messages, words)?;
        let Ok(value) = parse(alloc, text.as_bytes()) else {
            return Ok(String::from_str(alloc, "no JSON")?);
        };
        let read = read_dap(alloc, &value);
        let program = match self.sessions.wants_launch(number, &read) {
            Some(path) => launched(alloc, &self.store, path.as_str())?,
            None => None,
        };
        let answer = self
            .sessions
            .answer(alloc, number, read, &self.store, program)?;
        worded(alloc, &answer)
    }

    /// One step.
    fn step(&mut self, alloc: Global, words: &str) -> Result<String, OutOfMemory> {
        let (first, others) = cut(words);
        match first {
            "open" => self.open(alloc, others),
            "close" => self.close(alloc, others),
            "member" => self.member(alloc, others),
            _ => self.send(alloc, first.parse::<u32>().unwrap_or(0), others),
        }
    }
}

/// What is written for the steps of a script, with bars between what is written for each.
pub fn said(alloc: Global, steps: &[String]) -> Result<String, OutOfMemory> {
    let mut stage = Stage::new(alloc);
    let mut said = String::new(alloc);
    for step in steps {
        let written = stage.step(alloc, step.as_str())?;
        if !said.is_empty() && !written.is_empty() {
            said.push_str(" | ")?;
        }
        said.push_str(written.as_str())?;
    }
    Ok(said)
}
