//! What each refusal means, in one sentence.
use yv_text_statement::Code;

/// A sentence: the words before and after the word that a refusal is about.
#[derive(Clone, Copy)]
pub struct Sentence {
    pub before: &'static str,
    pub after: &'static str,
}

struct Row {
    code: Code,
    sentence: Sentence,
}

macro_rules! sentences {
    ($($code:ident: $before:literal, $after:literal;)*) => {
        &[$(Row { code: Code::$code, sentence: Sentence { before: $before, after: $after } }),*]
    };
}

// One for each code. Those of the text, and of the number of nodes, are about no word. The others
// are said if no cause is known that says more.
static SENTENCES: &[Row] = sentences![
    NotUtf8: "The file is not UTF-8 from this byte on.", "";
    BadCharacter: "YANG does not allow this character.", "";
    BadToken: "A quoted text or a comment is not closed, or a quote or `*/` is in the wrong place.", "";
    BadEscape: "In double quotes, a backslash comes only before n, t, a double quote or a backslash.", "";
    BadSyntax: "A statement is a keyword, an argument if it has one, and then `;` or a block in braces.", "";
    TooDeep: "This statement is at depth 65; statements nest at most 64 deep.", "";
    TooLarge: "The file has more than 4,194,304 bytes.", "";
    TooManyNodes: "The modules expand to more nodes and uses than the limit.", "";
    Unsupported: "", " is not supported.";
    UnknownStatement: "YANG 1.1 has no statement ", "; the name of an extension's statement has a prefix.";
    Cardinality: "", " is not allowed here.";
    BadArgument: "", " is not an argument of the form that this statement needs.";
    DuplicateModule: "Another file defines ", " already.";
    MissingModule: "None of the given files defines ", "; add its file to the command line.";
    Revision: "The module has another revision than ", ".";
    ImportCycle: "The module ", " imports this one, directly or through others.";
    UnknownPrefix: "The prefix of ", " is not declared in this file.";
    Submodule: "", " is not a submodule of this module.";
    UnknownFeature: "A feature that ", " names is not defined.";
    FeatureCycle: "The feature ", " depends on itself.";
    UnknownIdentity: "The identity ", " is not defined.";
    IdentityCycle: "The identity ", " is derived from itself.";
    DuplicateName: "The name ", " is defined twice in its scope.";
    UnknownType: "The type ", " is not defined here.";
    TypeCycle: "The typedef ", " is derived from itself.";
    UnknownGrouping: "The grouping ", " is not defined here.";
    GroupingCycle: "The grouping ", " uses itself.";
    RefineTarget: "The path ", " does not lead to a node of the grouping.";
    BadRefine: "The node ", " does not have such a property.";
    AugmentTarget: "The path ", " does not lead to a node that can be augmented.";
    BadAugment: "What the augment of ", " adds can't be added to its target.";
    TreeTooDeep: "The node ", " would be at depth 129; the nodes of a schema nest at most 128 deep.";
    BadRestriction: "The parts of ", " do not ascend, or are not within those of the type that is restricted.";
    BadPattern: "The pattern ", " is not a regular expression that yangcheck supports.";
    BadNumbering: "", " can't be an item of this type.";
    BadType: "The type ", " has a substatement that it can't have, or lacks one that it needs.";
    TooManyMembers: "The type ", " has more than 64 member types.";
    DuplicateNode: "Another child node of the same parent has the name ", " already.";
    BadKey: "A leaf that the key of list ", " names can't be a key.";
    BadUnique: "A path of a `unique` of list ", " does not lead to a leaf that can be unique.";
    BadConfig: "The node ", " is configuration, and a node above it is `config false`.";
    BadDefault: "The default of ", " is not one of its values.";
    BadMandatory: "The node ", " is mandatory, and so can't have this default.";
    BadPath: "The path of ", " does not lead to a leaf that it may refer to.";
    PathCycle: "The leafref ", " refers to itself.";
    BadOperation: "The action or notification ", " is not allowed here.";
];

const NONE: Sentence = Sentence {
    before: "",
    after: " is refused here.",
};

/// The sentence on a code.
pub fn sentence_of(code: Code) -> Sentence {
    for row in SENTENCES {
        if row.code == code {
            return row.sentence;
        }
    }
    NONE
}
