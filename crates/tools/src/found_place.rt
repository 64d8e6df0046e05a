//! The first place of an object that is refused as the first line says, and its line.
ghost use Rattle.std.specs.Prelude.{◌≡◌, ◌++◌, map, option_map, OnOk};
ghost use Rattle.tools.specs.ItemPlaces.{item_text};
ghost use Rattle.tools.specs.PlaceViews.{place_text};
ghost use Rattle.tools.specs.Places.{first_so, is_so, where_line};
ghost use Rattle.tools.specs.Printing.{printed};

use crate::looked_keys::add_number;
use crate::printing::{add, add_line};
use octets::Refusal;
use std::alloc::{AllocError, Global};

/// A place that was found, and the item that it is in: what the item is called, and its number.
#[derive(Clone, Copy)]
pub(crate) struct FoundPlace {
    name: &'static str,
    item: Option<(&'static str, usize)>,
}

/// The name of the first of these places that is refused so.
#[tactic(auto, unfolding(crate::specs::Places::first_so))]
pub(crate) fn first_so(
    so: Refusal,
    places: &[(&'static str, Option<Refusal>)],
) -> Option<&'static str>
    ensures { option_map (λ name. name.now) result ≡ first_so so (map (λ place. (place.0.now, place.1)) places.now) }
{
    for place in places {
        if is_so(so, place.1) {
            return Some(place.0);
        }
    }
    None
}

/// Whether the refusal is shown as this one.
fn is_so(so: Refusal, refusal: Option<Refusal>) -> bool
    ensures { result ≡ is_so so refusal }
{
    match refusal {
        None => false,
        Some(refusal) => refusal.text() == so.text(),
    }
}

/// The place of this name in the object itself.
pub(crate) fn in_object(name: Option<&'static str>) -> Option<FoundPlace>
    ensures { option_map place_text result ≡ option_map (λ name. name.now) name.entry }
{
    match name {
        None => None,
        Some(name) => Some(FoundPlace { name, item: None }),
    }
}

/// The place of this name in the item of this number.
pub(crate) fn in_item(name: &'static str, item: &'static str, number: usize) -> FoundPlace
    ensures { place_text result ≡ name.now ++ item_text item.now number }
{
    FoundPlace {
        name,
        item: Some((item, number)),
    }
}

/// Adds the line of the place, if there is one.
pub(crate) fn add_where_line(
    alloc: Global,
    out: &mut Vec<u8>,
    found: Option<FoundPlace>,
) -> Result<(), AllocError>
    ensures { OnOk result (out.new.items ≡ out.old.items ++ printed (where_line (option_map place_text found))) }
{
    match found {
        None => Ok(()),
        Some(place) => {
            let mut line = Vec::new(alloc);
            add(&mut line, "where: ")?;
            add_place(alloc, &mut line, place)?;
            add_line(out, &line)
        }
    }
}

#[tactic(auto, using(std::proofs::Common::append_assoc))]
fn add_place(alloc: Global, line: &mut Vec<u8>, place: FoundPlace) -> Result<(), AllocError>
    ensures { OnOk result (line.new.items ≡ line.old.items ++ place_text place) }
{
    add(line, place.name)?;
    match place.item {
        None => Ok(()),
        Some((item, number)) => add_item(alloc, line, item, number),
    }
}

/// Adds what the item is called, and its number.
#[tactic(auto, using(std::proofs::Common::append_assoc))]
fn add_item(alloc: Global, line: &mut Vec<u8>, item: &str, number: usize) -> Result<(), AllocError>
    ensures { OnOk result (line.new.items ≡ line.old.items ++ item_text item.now number) }
{
    add(line, " of ")?;
    add(line, item)?;
    add(line, " ")?;
    add_number(alloc, line, number)
}
