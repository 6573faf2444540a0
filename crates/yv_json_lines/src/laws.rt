//! Laws about the definitions only. These functions do nothing: the contract of each is the law.
ghost use Rattle.std.specs.Prelude.{ℕ, List, Option};
ghost use Rattle.yv_schema_tables.specs.declared.measures.Measures.{Measures};
ghost use Rattle.yv_data_faults.specs.Flaw.{Flaw};
ghost use Rattle.yv_json_lines.specs.{OneLine.{Fits, IsOneLine, LineFits, MeasuresFit, VerdictFits}, ReadBack.{ReadsBack}, Values.{count_value, document_value, fault_value, finding_value, json_line, linted_value, refusal_value, run_value}, declared.document.DocumentVerdict.{DocumentVerdict}};

/// No line has a line feed or a carriage return but the line feed at its end, so that the lines of
/// an output are its results.
pub fn json_lines_are_lines()
    // The line of compiled modules is one line.
    ensures count { (nodes : ℕ) (measures : Option Measures) → Fits nodes → MeasuresFit measures
        → IsOneLine (json_line (count_value nodes measures)) }
    // So is that of refused modules.
    ensures refusal { (file : List ℕ) (line column offset : ℕ) (code : List ℕ) → Fits line
        → Fits column → Fits offset
        → IsOneLine (json_line (refusal_value file line column offset code)) }
    // So is that of a finding.
    ensures finding { (file : List ℕ) (line column offset : ℕ) (code : List ℕ) → Fits line
        → Fits column → Fits offset
        → IsOneLine (json_line (finding_value file line column offset code)) }
    // So is that of all findings.
    ensures linted { (findings : ℕ) → Fits findings
        → IsOneLine (json_line (linted_value findings)) }
    // So is that of a fault.
    ensures fault { (name : List ℕ) (line : Option ℕ) (f : Flaw) → LineFits line → Fits f.number
        → IsOneLine (json_line (fault_value name line f)) }
    // So is that of a document.
    ensures document { (name : List ℕ) (line : Option ℕ) (v : DocumentVerdict) → LineFits line
        → VerdictFits v → IsOneLine (json_line (document_value name line v)) }
    // So is that of all documents.
    ensures run { (documents valid : ℕ) → Fits documents → Fits valid
        → IsOneLine (json_line (run_value documents valid)) }
{}

/// Each line is read as an object that has the members of its definition, and no others. An object
/// that was read has them in the order of their names, so that they are looked up.
pub fn json_lines_read_back()
    // The line of compiled modules is read back.
    ensures count { (nodes : ℕ) (measures : Option Measures) → Fits nodes → MeasuresFit measures
        → ReadsBack (count_value nodes measures) }
    // So is that of refused modules.
    ensures refusal { (file : List ℕ) (line column offset : ℕ) (code : List ℕ) → Fits line
        → Fits column → Fits offset → ReadsBack (refusal_value file line column offset code) }
    // So is that of a finding.
    ensures finding { (file : List ℕ) (line column offset : ℕ) (code : List ℕ) → Fits line
        → Fits column → Fits offset → ReadsBack (finding_value file line column offset code) }
    // So is that of all findings.
    ensures linted { (findings : ℕ) → Fits findings → ReadsBack (linted_value findings) }
    // So is that of a fault.
    ensures fault { (name : List ℕ) (line : Option ℕ) (f : Flaw) → LineFits line → Fits f.number
        → ReadsBack (fault_value name line f) }
    // So is that of a document.
    ensures document { (name : List ℕ) (line : Option ℕ) (v : DocumentVerdict) → LineFits line
        → VerdictFits v → ReadsBack (document_value name line v) }
    // So is that of all documents.
    ensures run { (documents valid : ℕ) → Fits documents → Fits valid
        → ReadsBack (run_value documents valid) }
{}
