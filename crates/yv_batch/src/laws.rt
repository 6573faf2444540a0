//! Laws about the definitions only. These functions do nothing: the contract of each is the law.
ghost use Rattle.std.specs.List.{All};
ghost use Rattle.yv_batch.specs.{AskedDocument.{AskedDocument}, Label.{HasBytes, IsVisible, label_text}};

/// A label has visible ASCII characters only, so that the first blank of a line is the one after
/// its label and colon, and no name can forge a line.
pub fn labels_are_visible()
    ensures { (asked : AskedDocument) → HasBytes asked → All IsVisible (label_text asked) }
{}
