//! The search for the places that paths lead through.
use crate::names::Name;
use crate::place_tree::{PlaceTree, TOP};
use crate::places::DocumentStep;
use crate::tokens::{Container, Lexer, Quotation, Token};
use std::alloc::{AllocError, Global};

/// Where a path leads, in offsets of the text.
#[derive(Clone, Copy)]
pub(crate) struct FoundOffsets {
    pub(crate) value: usize,
    pub(crate) name: Option<usize>,
}

// What was found last at a place. Each value that is found is a visit with a number of its own. A
// find counts only if the visit around it is the last one there: of members with the same name the
// last one stands, and so do only the values inside of that one.
#[derive(Clone, Copy)]
struct Find {
    value: usize,
    name: Option<usize>,
    around: u64,
    visit: u64,
}

// A value that is about to begin at a place of the tree.
#[derive(Clone, Copy)]
struct Arrival {
    place: usize,
    name: Option<usize>,
}

// An object or an array around the next byte.
#[derive(Clone, Copy)]
struct OpenContainer {
    container: Container,
    place: usize,
    visit: u64,
    items: u64,
}

/// What was found of the places of paths, in the bytes of a text so far.
#[derive(Drop)]
pub(crate) struct PlaceSearch<'t, 'p> {
    text: &'t [u8],
    tree: &'p PlaceTree,
    finds: Vec<Option<Find>>,
    open: Vec<OpenContainer>,
    // How many objects and arrays around the next byte no path leads into.
    depth_outside: usize,
    arrival: Option<Arrival>,
    // Whether the colon was there of the member that the next byte is in.
    has_colon: bool,
    visits: u64,
}

impl<'t, 'p> PlaceSearch<'t, 'p> {
    /// A search through a whole text.
    pub(crate) fn through(
        alloc: Global,
        text: &'t [u8],
        tree: &'p PlaceTree,
    ) -> Result<PlaceSearch<'t, 'p>, AllocError> {
        let mut search = PlaceSearch::new(alloc, text, tree)?;
        let mut lexer = Lexer::new();
        for (offset, byte) in text.iter().enumerate() {
            let token = lexer.token(offset, *byte);
            search.take(alloc, token, offset)?;
        }
        Ok(search)
    }

    fn new(
        alloc: Global,
        text: &'t [u8],
        tree: &'p PlaceTree,
    ) -> Result<PlaceSearch<'t, 'p>, AllocError> {
        Ok(PlaceSearch {
            text,
            tree,
            finds: vec![in alloc; None; tree.len()]?,
            open: Vec::new(alloc),
            depth_outside: 0,
            arrival: Some(Arrival {
                place: TOP,
                name: None,
            }),
            has_colon: false,
            visits: 0,
        })
    }

    // Takes the token of the byte at an offset.
    fn take(&mut self, alloc: Global, token: Token, offset: usize) -> Result<(), AllocError> {
        match token {
            Token::Nothing => {}
            Token::Begin(container) => self.enter(container, offset)?,
            Token::End => self.leave(),
            _ if self.depth_outside > 0 => {}
            Token::Text(quotation) => self.take_text(alloc, quotation)?,
            Token::Scalar => {
                let _ = self.begin_value(offset);
            }
            Token::NameSeparator => self.has_colon = true,
            Token::ValueSeparator => self.has_colon = false,
        }
        Ok(())
    }

    fn take_text(&mut self, alloc: Global, quotation: Quotation) -> Result<(), AllocError> {
        match self.open.last() {
            Some(around) if around.container == Container::Object && !self.has_colon => {
                let place = around.place;
                self.begin_member(alloc, place, quotation)
            }
            _ => {
                let _ = self.begin_value(quotation.start);
                Ok(())
            }
        }
    }

    // A member begins, of the object at a place.
    fn begin_member(
        &mut self,
        alloc: Global,
        place: usize,
        quotation: Quotation,
    ) -> Result<(), AllocError> {
        let name = Name::read(alloc, self.text, quotation)?;
        self.arrival = self.tree.member(place, name.bytes()).map(|place| Arrival {
            place,
            name: Some(quotation.start),
        });
        Ok(())
    }

    // A value begins. It returns its place and its visit, where a path leads to it.
    fn begin_value(&mut self, offset: usize) -> Option<(usize, u64)> {
        let arrival = self.next_arrival()?;
        let around = self.open.last().map_or(0, |around| around.visit);
        self.visits = self.visits.saturating_add(1);
        let find = self.finds.get_mut(arrival.place)?;
        *find = Some(Find {
            value: offset,
            name: arrival.name,
            around,
            visit: self.visits,
        });
        Some((arrival.place, self.visits))
    }

    // Where the value is that begins next.
    fn next_arrival(&mut self) -> Option<Arrival> {
        match self.open.last_mut() {
            Some(around) if around.container == Container::Array => {
                around.items = around.items.saturating_add(1);
                let place = self.tree.item(around.place, around.items)?;
                Some(Arrival { place, name: None })
            }
            _ => self.arrival.take(),
        }
    }

    // An object or an array begins.
    fn enter(&mut self, container: Container, offset: usize) -> Result<(), AllocError> {
        if self.depth_outside > 0 {
            self.depth_outside = self.depth_outside.saturating_add(1);
            return Ok(());
        }
        match self.begin_value(offset) {
            Some((place, visit)) if self.tree.leads_into(place, container) => {
                self.has_colon = false;
                self.open.push(OpenContainer {
                    container,
                    place,
                    visit,
                    items: 0,
                })?;
            }
            _ => self.depth_outside = 1,
        }
        Ok(())
    }

    // An object or an array ends.
    fn leave(&mut self) {
        if self.depth_outside > 0 {
            self.depth_outside -= 1;
        } else {
            let _ = self.open.pop();
        }
    }

    /// Where a path leads.
    pub(crate) fn offsets(&self, path: &[DocumentStep]) -> FoundOffsets {
        let mut spot = self.top();
        for step in path {
            if spot.is_end {
                return FoundOffsets {
                    value: spot.find.value,
                    name: None,
                };
            }
            spot = self.below(spot, step);
        }
        FoundOffsets {
            value: spot.find.value,
            name: spot.find.name,
        }
    }

    // The whole document: the beginning of the text where it has no value.
    fn top(&self) -> Spot {
        Spot {
            place: TOP,
            find: self.finds.get(TOP).copied().flatten().unwrap_or(Find {
                value: 0,
                name: None,
                around: 0,
                visit: 0,
            }),
            is_end: false,
        }
    }

    // Where one step leads from a spot.
    fn below(&self, spot: Spot, step: &DocumentStep) -> Spot {
        let place = self.tree.member(spot.place, step.member.as_bytes());
        let Some(member) = self.spot_at(place, spot.find.visit) else {
            return Spot {
                find: Find {
                    name: None,
                    ..spot.find
                },
                is_end: true,
                ..spot
            };
        };
        match step.item {
            Some(item) => self.item_below(member, item),
            None => member,
        }
    }

    // An item of the array that a member is; the member itself where it has none of that number.
    fn item_below(&self, member: Spot, item: u64) -> Spot {
        let place = self.tree.item(member.place, item);
        match self.spot_at(place, member.find.visit) {
            Some(spot) => Spot {
                find: Find {
                    name: member.find.name,
                    ..spot.find
                },
                ..spot
            },
            None => Spot {
                is_end: true,
                ..member
            },
        }
    }

    // What was found at a place on the last visit around it.
    fn spot_at(&self, place: Option<usize>, around: u64) -> Option<Spot> {
        let place = place?;
        let find = self.finds.get(place).copied().flatten()?;
        if find.around != around {
            return None;
        }
        Some(Spot {
            place,
            find,
            is_end: false,
        })
    }
}

// Where the steps of a path have led so far.
#[derive(Clone, Copy)]
struct Spot {
    place: usize,
    find: Find,
    // Whether the text has nothing of the path after this.
    is_end: bool,
}
