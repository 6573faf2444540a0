//! The features of files.
ghost use Rattle.std.specs.Prelude.{◌≡◌, ◌≢◌, None, OnOk, IfOk, Some, Err};
ghost use Rattle.yv_text_statement.specs.{Order.{IsLeast}, declared.refusal.Refusal.{Refusal}, declared.refusal.Stop.TheVariants.{Fault, PatternBuild}, Selection.{ModuleChoice, selected_of}};
ghost use Rattle.yv_link_scopes.specs.{Views.{lent_in, rows_in}, Tables.{first_of, table_of}, declared.kind.NameKind.TheVariants.{Feature}};
ghost use Rattle.yv_link_features.specs.{Refusals.{BadFeatures}, Features.{AreFeatures, from_marks, truth_of}, InnerMarks.{AreOnIn, BadIn}, On.{Holds}};

use crate::if_features::if_features;
use crate::names::FeatureNames;
use std::alloc::Global;
use yv_base_graph::{Ranking, nodes_on_cycles, rank};
use yv_link_scopes::{NameKind, NamePlaces, Rows, first_places};
use yv_text_statement::{Selection, Stop};

/// Which features of files are on.
#[derive(Drop)]
pub struct Features<'a> {
    places: NamePlaces<'a>,
    on: Vec<bool>,
}

impl<'a> Features<'a> {
    /// The features of files. A feature is on if it is supported and its own conditions hold.
    /// Refused are a name in a condition that means no feature, and a feature that depends on
    /// itself, perhaps by way of others.
    pub fn read(
        alloc: Global,
        rows: &Rows<'a, '_>,
        selection: &Selection,
    ) -> Result<Features<'a>, Stop>
        // Features are returned only if none is unknown and none depends on itself.
        ensures clear { OnOk result (IsLeast (BadFeatures (lent_in rows.now)) None) }
        // A refusal is the least `UnknownFeature` or `FeatureCycle`.
        ensures refusal { (r : Refusal) → result ≡ Err (Fault r)
            → IsLeast (BadFeatures (lent_in rows.now)) (Some r) }
        // `PatternBuild` is never returned.
        ensures builds { result ≢ Err PatternBuild }
        // They are the features of these files under this selection.
        ensures features { IfOk result
            (AreFeatures (lent_in rows.now) (selected_of selection.now)) }
    {
        let places = first_places(alloc, NameKind::Feature, rows)?;
        let names = FeatureNames {
            rows,
            places: &places,
        };
        match names.marks(alloc, selection) {
            Ok(on) => Ok(Features { places, on }),
            Err(stop) => Err(stop),
        }
    }

    /// Whether the expression of an `if-feature` holds in a file. A text that is not an expression
    /// doesn't, nor does one with a name that means no feature.
    pub fn holds(&self, rows: &Rows<'a, '_>, file: usize, text: &'a str) -> bool
        // The result is that of one function of file and text.
        ensures truth { result ≡ truth_of self.now (lent_in rows.now) file text.now }
        // Whether the expression holds in the file.
        ensures holds { (choice : ModuleChoice) → AreFeatures (lent_in rows.now) choice self.now
            → Holds (lent_in rows.now) choice file text.now result }
    {
        yv_text_if_feature::laws::a_text_spells_one_if_feature();
        let names = FeatureNames {
            rows,
            places: &self.places,
        };
        names.value(&self.on, file, text)
    }
}

impl FeatureNames<'_, '_, '_> {
    // Marks the features that are on, where none is refused.
    fn marks(&self, alloc: Global, selection: &Selection) -> Result<Vec<bool>, Stop>
        requires { table_of self.now.places.now ≡ first_of Feature (rows_in self.now.rows.now) }
        ensures clear { OnOk result (IsLeast (BadIn self.now) None) }
        ensures refusal { (r : Refusal) → result ≡ Err (Fault r)
            → IsLeast (BadIn self.now) (Some r) }
        ensures builds { result ≢ Err PatternBuild }
        ensures on { IfOk result
            (λ on. AreOnIn self.now (selected_of selection.now) (from_marks on.items)) }
    {
        let lists = if_features(alloc, self.rows)?;
        let graph = self.graph(alloc, &lists)?;
        let cycles = nodes_on_cycles(alloc, &graph)?;
        if let Some(refusal) = self.first_refusal(&cycles) {
            return Err(Stop::Fault(refusal));
        }
        let Ranking::Ranks { order, .. } = rank(alloc, &graph)? else {
            unreachable!()
        };
        let on = self.truths(alloc, selection, &lists, &order)?;
        Ok(on)
    }
}
