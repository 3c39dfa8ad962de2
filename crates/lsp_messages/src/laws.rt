//! Laws of the definitions, each the contract of a function with no body.
ghost use Rattle.std.specs.Prelude.{◌≡◌, List};
ghost use Rattle.std.specs.Bool.{Decides};
ghost use Rattle.lsp_messages.specs.Same.{is_same_list};
ghost use Rattle.lsp_messages.specs.declared.outgoing.Diagnostic.{Diagnostic};

/// Two lists of reports are the same exactly if each is what the other is: `==` passes over nothing that is shown.
pub fn same_lists_are_equal()
    ensures { (a b : List Diagnostic) → Decides (is_same_list a b) (a ≡ b) }
{}
