//! What a schema finds by name and by place.

ghost use Rattle.std.specs.Prelude.{◌≡◌, ◌↔◌, IfSome, IsTrue, map};
ghost use Rattle.std.specs.Option.{is_some};
ghost use Rattle.ice_types.specs.Tables.{IsTypeId, IsNewId, Names, HasTypeId, HasRowId, Finds, FindsKind, HasId};
ghost use Rattle.ice_types.specs.Tables.{class_ids, exception_ids, interface_ids, is_defined};
ghost use Rattle.ice_types.specs.declared.kind.TypeRef.{TypeRef};

use crate::kind::{RowRef, TypeRef};
use crate::list::List;
use crate::schema::Schema;

impl Schema {
    /// Whether a row of this id may be added: it is a type id, and no row of the schema has it.
    pub fn is_new_id(&self, id: &str) -> bool
        ensures { IsTrue result ↔ (IsTypeId id.now × IsNewId self.now id.now) }
    {
        is_type_id(id) && self.row_of_id(id).is_none()
    }

    /// The type that the text names: a built-in type by its one name (`Object` is the class of all
    /// instances, `Object*` a proxy of any interface), every other one by its type id. None where there
    /// is no such type: Slice's second word for `Object`, `Value`, is none. It takes no memory.
    pub fn type_named(&self, text: &str) -> Option<TypeRef>
        ensures named { FindsKind (Names self.now text.now) result }
        ensures only { IfSome result (λ kind. (other : TypeRef) → Names self.now text.now other → other ≡ kind) }
    {
        self.rules();
        match text {
            "bool" => Some(TypeRef::Bool),
            "byte" => Some(TypeRef::Byte),
            "short" => Some(TypeRef::Short),
            "int" => Some(TypeRef::Int),
            "long" => Some(TypeRef::Long),
            "string" => Some(TypeRef::Text),
            "Object" => Some(TypeRef::Class(None)),
            "Object*" => Some(TypeRef::Proxy(None)),
            _ => self.type_of_id(text),
        }
    }

    /// The type of this type id.
    fn type_of_id(&self, id: &str) -> Option<TypeRef>
        ensures { FindsKind (HasTypeId self.now id.now) result }
    {
        self.rules();
        match self.row_of_id(id)? {
            RowRef::Seq(at) => Some(TypeRef::Seq(at)),
            RowRef::Dict(at) => Some(TypeRef::Dict(at)),
            RowRef::Struct(at) => Some(TypeRef::Struct(at)),
            RowRef::Enum(at) => Some(TypeRef::Enum(at)),
            RowRef::Class(at) => Some(TypeRef::Class(Some(at))),
            RowRef::Exception(_) | RowRef::Interface(_) => None,
        }
    }

    /// The row of this type id, in whichever table it is. It takes no memory.
    pub fn row_of_id(&self, id: &str) -> Option<RowRef>
        ensures { Finds (HasRowId self.now id.now) result }
    {
        self.ids.get(id)
    }

    /// The class of this type id. It takes no memory.
    pub fn class(&self, id: &str) -> Option<u32>
        ensures { Finds (HasId (class_ids self.now) id.now) result }
    {
        self.rules();
        match self.row_of_id(id)? {
            RowRef::Class(at) => Some(at),
            _ => None,
        }
    }

    /// The exception of this type id. It takes no memory.
    pub fn exception(&self, id: &str) -> Option<u32>
        ensures { Finds (HasId (exception_ids self.now) id.now) result }
    {
        self.rules();
        match self.row_of_id(id)? {
            RowRef::Exception(at) => Some(at),
            _ => None,
        }
    }

    /// The interface of this type id. It takes no memory.
    pub fn interface(&self, id: &str) -> Option<u32>
        ensures { Finds (HasId (interface_ids self.now) id.now) result }
    {
        self.rules();
        match self.row_of_id(id)? {
            RowRef::Interface(at) => Some(at),
            _ => None,
        }
    }

    /// Whether the class at this place is there and defined. Others are only declared.
    pub fn is_class_defined(&self, at: u32) -> bool
        ensures { result ≡ is_defined self.now.defined_classes at }
    {
        has_beside(&self.rows.classes.beside, at)
    }

    /// Whether the interface at this place is there and defined. Others are only declared.
    pub fn is_interface_defined(&self, at: u32) -> bool
        ensures { result ≡ is_defined self.now.defined_interfaces at }
    {
        has_beside(&self.rows.interfaces.beside, at)
    }
}

/// Whether something stands beside the row at a place, as where it is defined.
fn has_beside<S>(beside: &List<Option<S>>, at: u32) -> bool
    ensures { result ≡ is_defined (map is_some beside.now) at }
{
    matches!(beside.get(at as usize), Some(Some(_)))
}

/// Whether the text begins with `::`, as every type id does.
fn is_type_id(id: &str) -> bool
    ensures { IsTrue result ↔ IsTypeId id.now }
{
    let bytes = id.as_bytes();
    bytes.len() >= 2 && &bytes[..2] == b"::".as_slice()
}
