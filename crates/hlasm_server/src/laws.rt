//! Laws of the definitions, each the contract of a function with no body.
ghost use Rattle.std.specs.Prelude.{◌≡◌, ◌≤◌, ◌⊎◌, ℕ, List, [], Option};
ghost use Rattle.hlasm_server.specs.declared.status.Status.{Status};
ghost use Rattle.hlasm_server.specs.Hearing.{Running};
ghost use Rattle.hlasm_server.specs.Output.{End, Course, Out, Strays, most_input};

/// For each input there is one course, whatever calls of the library are to come: one end, and by then these bodies written
/// and so many bytes taken.
pub fn one_course()
    ensures some { (from : Running) (before : ℕ) (bytes : List ℕ) → before ≤ most_input
        → (replies : List (List ℕ)) × (end : End) × (taken : ℕ) × Course from before bytes replies end taken }
    ensures one { (from : Running) (before : ℕ) (bytes : List ℕ)
        (replies others : List (List ℕ)) (end other : End) (taken count : ℕ)
        → Course from before bytes replies end taken
        → Course from before bytes others other count
        → (replies ≡ others) × (end ≡ other) × (taken ≡ count) }
{}

/// For each input there is at most one output, with one status or with none, and one number of bytes taken.
pub fn one_output()
    ensures { (from : Running) (before : ℕ) (bytes : List ℕ)
        (replies others : List (List ℕ)) (status other : Option Status) (taken count : ℕ)
        → Out from before bytes replies status taken
        → Out from before bytes others other count
        → (replies ≡ others) × (status ≡ other) × (taken ≡ count) }
{}

/// Each input has an output, wherever the session stands in it, unless the calls of the library to come stray: some next one
/// is another than the one that is made, or some are left over. Then it has none. Where no call is to come, it has one.
pub fn some_output()
    ensures either { (from : Running) (before : ℕ) (bytes : List ℕ) → before ≤ most_input
        → ((replies : List (List ℕ)) × (status : Option Status) × (taken : ℕ) × Out from before bytes replies status taken)
        ⊎ Strays from before bytes }
    ensures never_both { (from : Running) (before : ℕ) (bytes : List ℕ)
        (replies : List (List ℕ)) (status : Option Status) (taken : ℕ)
        → Out from before bytes replies status taken → Strays from before bytes → ⊥ }
    ensures none_to_come { (from : Running) (before : ℕ) (bytes : List ℕ) → from.calls ≡ [] → before ≤ most_input
        → (replies : List (List ℕ)) × (status : Option Status) × (taken : ℕ)
        × Out from before bytes replies status taken }
{}
