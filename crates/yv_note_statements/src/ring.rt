//! Statements that lead to one another, up to the first.
use crate::pieces::Message;
use crate::site::Site;

/// How many names of a cycle are listed.
const MOST_TOLD: usize = 10;

/// Adds the statements of a ring: first and last this one, which is the last of the numbers.
pub fn say_ring<'a>(telling: &mut Message<'a>, start: &Site<'_, 'a>, ring: &[usize]) {
    telling.quote(" The cycle: ", start.argument(), " -> ");
    for number in ring
        .iter()
        .take(ring.len().min(MOST_TOLD).saturating_sub(1))
    {
        if let Some(site) = Site::at(start.entries, *number) {
            say_link(telling, &site);
        }
    }
    say_rest(telling, ring.len());
    telling.quote("", start.argument(), ".");
}

// Adds a statement of a cycle with its place.
fn say_link<'a>(telling: &mut Message<'a>, site: &Site<'_, 'a>) {
    telling.quote("", site.argument(), "");
    telling.point(" (", site, ") -> ");
}

// Adds how many of the statements of a cycle are not listed.
fn say_rest(telling: &mut Message<'_>, count: usize) {
    if count > MOST_TOLD {
        telling.count("", count.saturating_sub(MOST_TOLD) as u64, " more -> ");
    }
}
