//! Where the faults of a document are in its file.
use crate::document::NotedDocument;
use std::alloc::{AllocError, Global};
use yv_data_faults::{Fault, FaultKind};
use yv_note_places::{DocumentStep, FoundPlace, LineColumn, find_places};

/// The place of each of these faults in the file of a document.
pub(crate) fn places_of(
    alloc: Global,
    document: &NotedDocument<'_>,
    faults: &[&Fault],
) -> Result<Vec<LineColumn>, AllocError> {
    let mut paths = Vec::new(alloc);
    for fault in faults {
        paths.push(steps_of(alloc, fault)?)?;
    }
    let found = find_places(alloc, document.bytes, &paths)?;
    let mut places = Vec::new(alloc);
    for (fault, found) in faults.iter().zip(&found) {
        places.push(in_file(document, place_of(fault.kind, found)))?;
    }
    Ok(places)
}

// The steps to a fault's place. A choice is no member of the document.
fn steps_of(alloc: Global, fault: &Fault) -> Result<Vec<DocumentStep>, AllocError> {
    let path = fault.path.steps().to_vec(alloc)?;
    let mut steps = Vec::new(alloc);
    for part in &path {
        if !part.name.is_choice {
            steps.push(DocumentStep {
                member: part.member(alloc)?,
                item: part.item,
            })?;
        }
    }
    Ok(steps)
}

// The place that a fault of this kind is at: what is unknown is a name.
fn place_of(kind: FaultKind, found: &FoundPlace) -> LineColumn {
    match (kind, found.name) {
        (FaultKind::Unknown, Some(name)) => name,
        _ => found.value,
    }
}

/// A place in a document as one in its file.
pub(crate) fn in_file(document: &NotedDocument<'_>, place: LineColumn) -> LineColumn {
    LineColumn {
        line: document
            .first_line
            .saturating_add(place.line)
            .saturating_sub(1),
        column: place.column,
    }
}
