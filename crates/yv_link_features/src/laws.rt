//! Laws about the definitions only.
ghost use Rattle.std.specs.Prelude.{◌≡◌, ℕ, Bool, List, None};
ghost use Rattle.yv_text_statement.specs.{Order.{IsLeast}, Selection.{ModuleChoice}};
ghost use Rattle.yv_link_scopes.specs.Files.{Files};
ghost use Rattle.yv_link_features.specs.{Refusals.{BadFeatures}, Features.{AreFeatures, Tell, truth_of}, On.{Holds}, declared.features.Features.{Features}};

/// What the features that were found answer for an expression in a file is its value by them, and
/// no other.
pub fn features_tell_the_value()
    // What that function gives is the expression's value, under the features that were found.
    ensures tells { (features : Features) (files : Files) (file : ℕ) (text : List ℕ)
        → Tell features files file text (truth_of features files file text) }
    // No other value is.
    ensures alone { (features : Features) (files : Files) (file : ℕ) (text : List ℕ) (value : Bool)
        → Tell features files file text value → value ≡ truth_of features files file text }
{
    yv_text_if_feature::laws::a_text_spells_one_if_feature();
}

/// What the features of files answer for an expression is its truth, whatever the file and the
/// text.
pub fn features_tell_what_holds()
    ensures { (files : Files) (choice : ModuleChoice) (features : Features)
        → AreFeatures files choice features
        → (file : ℕ) (text : List ℕ)
        → Holds files choice file text (truth_of features files file text) }
{}

/// Where nothing is refused of the features, an expression in a file has one truth.
pub fn an_expression_has_one_truth()
    ensures { (files : Files) (choice : ModuleChoice) (file : ℕ) (text : List ℕ) (a b : Bool)
        → IsLeast (BadFeatures files) None
        → Holds files choice file text a → Holds files choice file text b → a ≡ b }
{
    yv_text_if_feature::laws::a_text_spells_one_if_feature();
    yv_text_if_feature::laws::names_stand_in_order();
}
