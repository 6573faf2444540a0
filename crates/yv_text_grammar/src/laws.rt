//! Laws about the definitions only.
ghost use Rattle.yv_text_statement.specs.{Tree.{Tree}, declared.refusal.Refusal.{Refusal}};
ghost use Rattle.yv_text_grammar.specs.{Refusals.{Bad}, declared.xpath.Xpath.{Xpath}, declared.xpath.Xpath.TheVariants.{Skip}};

/// What is refused of a file where conditions are skipped is refused of it in any case.
pub fn skipping_refuses_no_more()
    ensures { (x : Xpath) (t : Tree) (r : Refusal) → Bad Skip t r → Bad x t r }
{}
