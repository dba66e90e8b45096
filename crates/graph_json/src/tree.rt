//! JSON as a tree.

ghost use Rattle.std.specs.Prelude.{◌≡◌, option_map, option_and_then};
ghost use Rattle.std.specs.Option.{is_some};
ghost use Rattle.serde_json.specs.Find.{as_null, as_bool, as_number, as_str, as_array, as_i64, as_u64};

use serde_json::Number;

/// A value of JSON. Its texts are lent from the text that it was read from.
#[derive(Drop)]
pub enum Json<'a> {
    Null,
    Bool(bool),
    Number(Number),
    Text(&'a str),
    /// The items, in order.
    Array(Vec<Json<'a>>),
    /// What stands at each name. As it is read the names rise.
    Object(Vec<(&'a str, Json<'a>)>),
}

impl<'a> Json<'a> {
    ghost use Rattle.graph_json.specs.View.{view, items_view, number_view};

    pub(crate) fn is_null(&self) -> bool
        ensures { result ≡ is_some (as_null (view self.now)) }
    {
        matches!(self, Json::Null)
    }

    pub(crate) fn as_bool(&self) -> Option<bool>
        ensures { result ≡ as_bool (view self.now) }
    {
        match self {
            Json::Bool(truth) => Some(*truth),
            _ => None,
        }
    }

    pub(crate) fn as_number(&self) -> Option<&Number>
        ensures { option_map (λ n. number_view n.now) result ≡ as_number (view self.now) }
    {
        match self {
            Json::Number(number) => Some(number),
            _ => None,
        }
    }

    /// The number, where it is an integer of 64 bits with a sign.
    pub(crate) fn as_i64(&self) -> Option<i64>
        ensures { result ≡ option_and_then as_i64 (as_number (view self.now)) }
    {
        self.as_number()?.as_i64()
    }

    /// The number, where it is an integer of 64 bits without a sign.
    pub(crate) fn as_u64(&self) -> Option<u64>
        ensures { result ≡ option_and_then as_u64 (as_number (view self.now)) }
    {
        self.as_number()?.as_u64()
    }

    pub(crate) fn as_str(&self) -> Option<&'a str>
        ensures { option_map (λ s. s.now) result ≡ as_str (view self.now) }
    {
        match self {
            Json::Text(text) => Some(*text),
            _ => None,
        }
    }

    pub(crate) fn as_array(&self) -> Option<&Vec<Json<'a>>>
        ensures { option_map (λ items. items_view items.now.items) result ≡ as_array (view self.now) }
    {
        match self {
            Json::Array(items) => Some(items),
            _ => None,
        }
    }
}
