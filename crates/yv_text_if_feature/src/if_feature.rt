//! Whether a text is an expression of features.
ghost use Rattle.std.specs.Prelude.{IsTrue, ◌↔◌};
ghost use Rattle.yv_text_if_feature.specs.IfFeature.{IfFeature, Spells};

use crate::evaluator::Evaluator;
use crate::word::Words;

/// Whether a text is an expression of features with `or`, `and`, `not` and parentheses, which nest
/// at most 64 deep (RFC 7950, section 7.20.2). A parenthesis needs no blank beside it.
pub fn is_if_feature(text: &str) -> bool
    ensures { IsTrue result ↔ ((c : IfFeature) × Spells text.now c) }
{
    let mut evaluator = Evaluator::new();
    for word in Words::new(text) {
        evaluator.take(word, false);
    }
    evaluator.truth().is_some()
}
