//! The members of an object, and what stands at a name.

ghost use Rattle.std.specs.Prelude.{◌≡◌, IsTrue, length, option_map};
ghost use Rattle.serde_json.specs.Find.{as_object, get_member};
ghost use Rattle.graph_json.specs.View.{view as json_view, members_view, IsPlace, NamesRise, NamesRise-prop};

use crate::tree::Json;

/// The members of an object.
#[derive(Clone, Copy)]
pub(crate) struct Found<'a, 'b> {
    entries: &'a [(&'b str, Json<'b>)],
    /// Each name is below those behind it, as in all that is read.
    rises: bool,
    ghost order: { IsTrue rises → NamesRise entries.now } by { NamesRise-prop rises entries.now },
}

impl<'a, 'b> Found<'a, 'b> {
    /// How many names there are.
    pub(crate) fn len(self) -> usize
        ensures { result ≡ length self.entry.entries.now }
    {
        self.entries.len()
    }
}

/// The members, where it is an object.
pub(crate) fn object_in<'a, 'b>(json: &'a Json<'b>) -> Option<Found<'a, 'b>>
    ensures { option_map (λ found. members_view found.entries.now) result ≡ as_object (json_view json.now) }
{
    match json {
        Json::Object(entries) => {
            let entries = entries.as_slice();
            let rises = names_rise(entries);
            Some(Found { entries, rises })
        }
        _ => None,
    }
}

/// Whether each name is below the next.
pub(crate) fn names_rise(entries: &[(&str, Json<'_>)]) -> bool
    ensures { IsTrue result → NamesRise entries.now }
{
    let mut at = 1;
    while at < entries.len() {
        if entries[at - 1].0 < entries[at].0 {
            at += 1;
        } else {
            return false;
        }
    }
    true
}

/// What stands at a name.
pub(crate) fn named<'a, 'b>(found: Found<'a, 'b>, name: &str) -> Option<&'a Json<'b>>
    ensures { option_map (λ x. json_view x.now) result ≡ get_member name.now (members_view found.entry.entries.now) }
{
    if found.rises {
        halved(found.entries, name)
    } else {
        first_named(found.entries, name)
    }
}

/// The same among names that rise.
fn halved<'a, 'b>(entries: &'a [(&'b str, Json<'b>)], name: &str) -> Option<&'a Json<'b>>
    requires { NamesRise entries.now }
    ensures { option_map (λ x. json_view x.now) result ≡ get_member name.now (members_view entries.now) }
{
    let Some(entry) = entries.get(place_of(entries, name)) else {
        return None;
    };
    if entry.0 == name {
        Some(&entry.1)
    } else {
        None
    }
}

/// A place before which a name is below this one, and at which none is.
fn place_of(entries: &[(&str, Json<'_>)], name: &str) -> usize
    ensures { IsPlace name.now entries.now result }
{
    let mut low = 0;
    let mut high = entries.len();
    while low < high {
        let middle = low + (high - low) / 2;
        if entries[middle].0 < name {
            low = middle + 1;
        } else {
            high = middle;
        }
    }
    low
}

/// The same among names in any order, of which the first one counts.
fn first_named<'a, 'b>(entries: &'a [(&'b str, Json<'b>)], name: &str) -> Option<&'a Json<'b>>
    ensures { option_map (λ x. json_view x.now) result ≡ get_member name.now (members_view entries.now) }
{
    for entry in entries {
        if entry.0 == name {
            return Some(&entry.1);
        }
    }
    None
}
