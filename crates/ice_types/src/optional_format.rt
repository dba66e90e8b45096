//! In which format an optional member stands behind its tag.

ghost use Rattle.std.specs.Prelude.{◌≡◌};
ghost use Rattle.ice_types.specs.Formats.{is_fixed, of_parts, optional_format};

use crate::kind::TypeRef;
use crate::schema::Schema;

/// One byte.
pub const FORMAT_F1: u8 = 0;

/// Two bytes.
pub const FORMAT_F2: u8 = 1;

/// Four bytes.
pub const FORMAT_F4: u8 = 2;

/// Eight bytes.
pub const FORMAT_F8: u8 = 3;

/// A size.
pub const FORMAT_SIZE: u8 = 4;

/// A size that counts the bytes behind it.
pub const FORMAT_VSIZE: u8 = 5;

/// An int that counts the bytes behind it.
pub const FORMAT_FSIZE: u8 = 6;

/// A reference to a class instance.
pub const FORMAT_CLASS: u8 = 7;

impl Schema {
    /// The format in which an optional member of the type stands behind its tag, 0 to 7. A sequence or
    /// dictionary of another schema is one whose parts have no fixed length.
    /// (Ice manual, "Data Encoding for Optional Values".)
    pub fn optional_format(&self, kind: TypeRef) -> u8
        ensures { result ≡ optional_format self.now kind }
    {
        match kind {
            TypeRef::Bool | TypeRef::Byte => FORMAT_F1,
            TypeRef::Short => FORMAT_F2,
            TypeRef::Int => FORMAT_F4,
            TypeRef::Long => FORMAT_F8,
            TypeRef::Text => FORMAT_VSIZE,
            TypeRef::Seq(at) => match self.seqs().get(at as usize) {
                Some(decl) => of_parts(self.is_fixed(decl.element)),
                None => FORMAT_FSIZE,
            },
            TypeRef::Dict(at) => match self.dicts().get(at as usize) {
                Some(decl) => of_parts(self.is_fixed(decl.key) && self.is_fixed(decl.value)),
                None => FORMAT_FSIZE,
            },
            TypeRef::Struct(_) => of_parts(self.is_fixed(kind)),
            TypeRef::Enum(_) => FORMAT_SIZE,
            TypeRef::Proxy(_) => FORMAT_FSIZE,
            TypeRef::Class(_) => FORMAT_CLASS,
        }
    }

    /// Whether each spelling of the type is of one length.
    fn is_fixed(&self, kind: TypeRef) -> bool
        ensures { result ≡ is_fixed self.now kind }
    {
        self.fixed_size(kind).is_some()
    }
}

/// The format of what is made of parts, by whether they are all of fixed length.
fn of_parts(fixed: bool) -> u8
    ensures { result ≡ of_parts fixed }
{
    if fixed { FORMAT_VSIZE } else { FORMAT_FSIZE }
}
