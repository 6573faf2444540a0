//! The law that bounds the steps of a validation.
ghost use Rattle.std.specs.Prelude.{◌≤◌, ◌+◌, ◌*◌};
ghost use Rattle.serde_json.specs.Data.{Data};
ghost use Rattle.yv_text_statement.specs.declared.document_kind.Kind.{Kind};
ghost use Rattle.yv_nodes.specs.Rows.{Rows, whole};
ghost use Rattle.yv_schema_tables.specs.{Measures.{measures_of}, Sound.{IsSound}};
ghost use Rattle.yv_validate.specs.{Size.{size}, Work.{work}};

/// The steps of a validation are at most as many as the measures of the schema and the size of the
/// document say, whatever these are, and whatever kind of document is asked for. Of each schema
/// holds what it asks: each reading of one says so. It does nothing: its contract is the law.
pub fn work_bound()
    ensures { (kind : Kind) (s : Rows) (document : Data) → IsSound s → work kind s document
        ≤ (size document + 1)
        * ((measures_of (whole s)).m + (measures_of (whole s)).u + (measures_of (whole s)).w + 1) }
{}
