//! What is true of all requests that wait.
ghost use Rattle.std.specs.Prelude.{◌≡◌, List, [], ◌∷◌, ◌++◌, Some, None, true, false};
ghost use Rattle.document_store.specs.Store.{Store};
ghost use Rattle.lsp_messages.specs.declared.incoming.Id.{Id};
ghost use Rattle.waiting_requests.specs.declared.request.Request.{Request};
ghost use Rattle.waiting_requests.specs.Bodies.{replies_to, cancel_reply};
ghost use Rattle.waiting_requests.specs.Names.{Names};
ghost use Rattle.waiting_requests.specs.Requests.{waits, without, AreDistinct};

/// No two requests of one id wait, where one is added only if its id does not wait yet: it stays so behind a request that is
/// added, and behind one that is cancelled. It does nothing; its contract is the claim.
pub fn ids_stay_distinct()
    ensures at_first { AreDistinct [] }
    ensures added { (waiting : List Request) (request : Request) → AreDistinct waiting → waits waiting request.id ≡ false → AreDistinct (waiting ++ request ∷ []) }
    ensures cancelled { (waiting : List Request) (id : Id) → AreDistinct waiting → AreDistinct (without waiting id) }
{}

/// What is cancelled waits no more, and cancelling it once more does nothing; nor does cancelling what does not wait. It does
/// nothing; its contract is the claim.
pub fn cancelling_is_final()
    ensures gone { (waiting : List Request) (id : Id) → waits (without waiting id) id ≡ false }
    ensures silent { (waiting : List Request) (id : Id) → waits waiting id ≡ false → cancel_reply waiting id ≡ None }
    ensures same { (waiting : List Request) (id : Id) → waits waiting id ≡ false → without waiting id ≡ waiting }
{}

/// Requests are answered in the order of arrival: one that came later changes no earlier answer. It does nothing; its contract
/// is the claim.
pub fn answers_come_in_order()
    ensures { (store : Store) (programs : List Names) (some others : List Request)
        → replies_to store programs (some ++ others) ≡ replies_to store programs some ++ replies_to store programs others }
{}
