//! What a request that is not refused comes to.
ghost use Rattle.std.specs.Prelude.{◌≡◌, true, Some, None};

use crate::event::Event;
use dap_messages::DapOut;
use serde_json::Value;

/// What is written for a request that is done, and whether its session stays in use.
#[derive(Drop)]
pub(crate) struct Replies {
    pub(crate) stays: bool,
    pub(crate) messages: Vec<DapOut>,
}

/// A request is done: whether its session stays in use, what the response carries, and what happens then.
#[derive(Drop)]
pub(crate) struct Done {
    pub(crate) stays: bool,
    pub(crate) body: Option<Value>,
    pub(crate) event: Option<Event>,
}

impl Done {
    /// The response carries nothing.
    pub(crate) fn quiet() -> Done
        ensures { result ≡ record { stays = true; body = None; event = None } }
    {
        Done {
            stays: true,
            body: None,
            event: None,
        }
    }

    /// The response carries this.
    pub(crate) fn telling(body: Value) -> Done
        ensures { result ≡ record { stays = true; body = Some body; event = None } }
    {
        Done {
            stays: true,
            body: Some(body),
            event: None,
        }
    }
}
