//! Which modules are implemented, and which features are supported.
ghost use Rattle.std.specs.{Prelude.{◌≡◌, [], string_bytes}, List.{list_any}, Str.{bytes_eq}};
ghost use Rattle.yv_text_statement.specs.Selection.{selected_of, entry_of, is_implemented, is_listed, is_of, is_supported};

use std::alloc::Global;

/// The selection: what is chosen of the modules that are given. An entry that names nothing that is
/// given has no effect.
#[derive(Debug, Drop)]
pub struct Selection {
    /// Modules, each with the features of it that are supported. Of a module that isn't named, all
    /// features are. Entries of one module are joined.
    pub support: Vec<(String, Vec<String>)>,
    /// The modules that are imported but not implemented: they give no data nodes and no values
    /// of identityrefs, and their augments aren't applied.
    pub import_only: Vec<String>,
}

impl Selection {
    /// The selection of everything: each module is implemented, and each feature is supported.
    pub fn everything(alloc: Global) -> Selection
        // No module is named with features.
        ensures support { (selected_of result).support ≡ [] }
        // No module is imported only.
        ensures imports { (selected_of result).imports ≡ [] }
    {
        Selection {
            support: Vec::new(alloc),
            import_only: Vec::new(alloc),
        }
    }

    /// Whether the module of this name is implemented, where it is given (RFC 7950, section 5.6.5).
    #[tactic(auto, using(crate::proofs::MappedLists::any_mapped))]
    pub fn is_implemented(&self, module: &str) -> bool
        ensures { result ≡ is_implemented (selected_of self.now) «module».now }
    {
        !is_among(&self.import_only, module)
    }

    /// Whether the feature of this name of a module is supported, its own conditions apart (RFC
    /// 7950, section 5.6.1).
    #[tactic(auto, using(crate::proofs::MappedLists::any_mapped))]
    pub fn is_supported(&self, module: &str, feature: &str) -> bool
        ensures { result ≡ is_supported (selected_of self.now) «module».now feature.now }
    {
        !self.names(module)
            || self.lists(&Feature {
                module_name: module,
                name: feature,
            })
    }

    // Whether an entry is of this module.
    fn names(&self, module: &str) -> bool
        ensures { result ≡ list_any (λ e. is_of «module».now (entry_of e)) self.now.support.items }
    {
        self.support.iter().any(|entry| is_of(entry, module))
    }

    // Whether an entry lists this feature.
    fn lists(&self, feature: &Feature<'_>) -> bool
        ensures { result
            ≡ list_any
            (λ e. is_listed feature.now.module_name.now feature.now.name.now (entry_of e))
            self.now.support.items }
    {
        self.support.iter().any(|entry| feature.is_listed(entry))
    }
}

// A feature, by its module's name and its own.
#[derive(Clone, Copy)]
struct Feature<'a> {
    module_name: &'a str,
    name: &'a str,
}

impl Feature<'_> {
    // Whether an entry is of the feature's module and lists it.
    #[tactic(auto, using(crate::proofs::MappedLists::any_mapped), unfolding(crate::specs::Selection::is_listed))]
    fn is_listed(&self, entry: &(String, Vec<String>)) -> bool
        ensures { result
            ≡ is_listed self.now.module_name.now self.now.name.now (entry_of entry.now) }
    {
        is_of(entry, self.module_name) && is_among(&entry.1, self.name)
    }
}

// Whether an entry is of this module.
fn is_of(entry: &(String, Vec<String>), module: &str) -> bool
    ensures { result ≡ is_of «module».now (entry_of entry.now) }
{
    entry.0.as_str() == module
}

// Whether the text is one of the names.
fn is_among(names: &[String], text: &str) -> bool
    ensures { result ≡ list_any (λ name. bytes_eq (string_bytes name) text.now) names.now }
{
    names.iter().any(|name| name.as_str() == text)
}
