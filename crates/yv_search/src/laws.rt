//! Laws about the definitions only. These functions do nothing: the contract of each is the law.
ghost use Rattle.std.specs.Prelude.{◌≡◌, ◌++◌, ℕ, List, Bool, false, Option, Some};
ghost use Rattle.yv_base_streams.specs.Files.{File};
ghost use Rattle.yv_search.specs.{Listing.{ListedFile}, Search.{State, Shelf, Step}, FoundFiles.{AreGathered}, SearchLaws.{SeeksOne, FindsOne}, Roles.{FileSet, is_there, IsRequired}, RoleLaws.{AreClosed, HoldRoles, IsOfNamed}};

/// Listing, shelf and named files determine the files.
pub fn files_are_gathered_once()
    ensures { (listing : List ListedFile) (shelf : List ℕ → Option (List ℕ)) (named : List File)
        (files others : List File) → AreGathered listing (Some shelf) named files
        → AreGathered listing (Some shelf) named others → files ≡ others }
{}

/// No name is looked for twice, and only files of the listing are added.
pub fn names_are_sought_once()
    // A step looks for one name, which wasn't looked for before and which no root has.
    ensures once { (listing : List ListedFile) (shelf : Shelf) (s t : State)
        → Step listing shelf s t → SeeksOne s t }
    // It adds no file, or one that has the name of a file of the listing.
    ensures listed { (listing : List ListedFile) (shelf : Shelf) (s t : State)
        → Step listing shelf s t → FindsOne listing s t }
{}

/// The first files are the named ones, in order.
pub fn named_files_come_first()
    ensures { (listing : List ListedFile) (shelf : Shelf) (named files : List File)
        → AreGathered listing shelf named files
        → (found : List File) × (files ≡ named ++ found) }
{}

/// Which modules are required, and which are lenders, are the least sets that the rules allow.
pub fn required_is_least()
    // Each pair of sets that is closed under the rules holds all required modules and all lenders.
    ensures least { (f : FileSet) (required lenders : List ℕ → Bool)
        → AreClosed f required lenders → HoldRoles f required lenders }
    // A module that no file has as its root is required only as the module of a named file.
    ensures outside { (f : FileSet) (m : List ℕ)
        → is_there f.roots m ≡ false → IsRequired f m → IsOfNamed f m }
{}
