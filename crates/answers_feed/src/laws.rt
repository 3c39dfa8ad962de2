//! Laws of the definitions, each the contract of a function with no body.
ghost use Rattle.std.specs.Prelude.{◌≡◌, ℕ, ℤ, List, false};
ghost use Rattle.document_store.specs.Changes.{with_document, with_text, without};
ghost use Rattle.document_store.specs.Store.{Store, OpenDocument};
ghost use Rattle.library_folders.specs.declared.folders.Folder.{Folder};
ghost use Rattle.library_folders.specs.Folders.{is_member};
ghost use Rattle.answers_feed.specs.Laws.{IsSameLibrary};
ghost use Rattle.answers_feed.specs.Sites.{sites_of};

/// Frames of a program stand where they stood, in a store that has the same members.
pub fn the_library_decides_sites()
    ensures { (folders : List Folder) (old new : Store) (program : ℕ) (document : OpenDocument) → IsSameLibrary folders old new
        → sites_of folders new program document ≡ sites_of folders old program document }
{}

/// To open, change or close a document that stands in no library folder leaves the members as they are.
pub fn programs_leave_the_library()
    ensures opened { (folders : List Folder) (store : Store) (document : OpenDocument) → is_member folders document.path ≡ false
        → IsSameLibrary folders store (with_document store document) }
    ensures changed { (folders : List Folder) (store : Store) (path text : List ℕ) (version : ℤ) → is_member folders path ≡ false
        → IsSameLibrary folders store (with_text store path version text) }
    ensures closed { (folders : List Folder) (store : Store) (path : List ℕ) → is_member folders path ≡ false
        → IsSameLibrary folders store (without store path) }
{}
