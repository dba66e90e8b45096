//! Classes and interfaces, which are declared first and defined once after that.

ghost use Rattle.std.specs.Prelude.{◌≡◌, ◌+◌, ◌<◌, false, IfOk, OnErr, length};
ghost use Rattle.ice_types.specs.Tables.{IsTypeId, IsNewId, is_defined, with_class, with_interface, define_class};
ghost use Rattle.ice_types.specs.Tables.{define_interface};
ghost use Rattle.ice_types.specs.Fits.{ClassFits, CompactIdFits, InterfaceFits};
ghost use Rattle.ice_types.specs.Rules.{IsSchema};

use crate::declarations::{ClassDecl, InterfaceDecl, Member, OpDecl};
use crate::kind::RowRef;
use crate::list::List;
use crate::name::Name;
use crate::rows::{Above, MOST_ROWS, add_row, fill_class, fill_interface};
use crate::schema::Schema;
use std::alloc::AllocError;

impl Schema {
    /// Adds a class that is only declared, and answers its place. Out of memory leaves the schema as it was.
    pub fn add_class(&mut self, id: Name) -> Result<u32, AllocError>
        requires room { length self.old.classes + 1 < MOST_ROWS }
        requires type_id { IsTypeId id }
        requires new_id { IsNewId self.old id }
        ensures ok { IfOk result (λ at. (at ≡ length self.old.classes) × (self.new ≡ with_class self.old id)) }
        ensures err { OnErr result (self.new ≡ self.old) }
        ensures rules { IsSchema self.new }
    {
        let classes = self.rows.classes.decls.len();
        self.compact_ids.make_room(classes + 1)?;
        let at = classes as u32;
        let decl = ClassDecl {
            id,
            base: None,
            compact: None,
            members: List::new(self.ids.alloc()),
        };
        add_row(
            &mut self.rows.classes,
            &mut self.ids,
            decl,
            None,
            at,
            RowRef::Class(at),
        )
    }

    /// Defines a class that is only declared so far. It takes no memory.
    pub fn define_class(
        &mut self,
        at: u32,
        base: Option<u32>,
        compact: Option<u32>,
        members: List<Member>,
    )
        requires there { at < length self.old.classes }
        requires undefined { is_defined self.old.defined_classes at ≡ false }
        requires fits { ClassFits self.old base members }
        requires compact { CompactIdFits self.old compact }
        ensures filled { self.new ≡ define_class self.old at base compact members }
        ensures rules { IsSchema self.new }
    {
        let bases = self.class_bases_from(base);
        let far = self.far_base(at, base);
        fill_class(&mut self.rows.classes.decls, at, base, compact, members);
        self.rows
            .classes
            .beside
            .put(at as usize, Some(Above { bases, far }));
        if let Some(number) = compact {
            self.compact_ids.put(number, at);
        }
    }

    /// Adds an interface that is only declared, and answers its place. Out of memory leaves the schema as it was.
    pub fn add_interface(&mut self, id: Name) -> Result<u32, AllocError>
        requires room { length self.old.interfaces + 1 < MOST_ROWS }
        requires type_id { IsTypeId id }
        requires new_id { IsNewId self.old id }
        ensures ok { IfOk result (λ at.
            (at ≡ length self.old.interfaces) × (self.new ≡ with_interface self.old id)) }
        ensures err { OnErr result (self.new ≡ self.old) }
        ensures rules { IsSchema self.new }
    {
        let at = self.rows.interfaces.decls.len() as u32;
        let decl = InterfaceDecl {
            id,
            bases: List::new(self.ids.alloc()),
            ops: List::new(self.ids.alloc()),
        };
        add_row(
            &mut self.rows.interfaces,
            &mut self.ids,
            decl,
            None,
            at,
            RowRef::Interface(at),
        )
    }

    /// Defines an interface that is only declared so far. It takes no memory.
    pub fn define_interface(&mut self, at: u32, bases: List<u32>, ops: List<OpDecl>)
        requires there { at < length self.old.interfaces }
        requires undefined { is_defined self.old.defined_interfaces at ≡ false }
        requires fits { InterfaceFits self.old bases ops }
        ensures filled { self.new ≡ define_interface self.old at bases ops }
        ensures rules { IsSchema self.new }
    {
        let paths = self.paths_over(bases.as_slice());
        fill_interface(&mut self.rows.interfaces.decls, at, bases, ops);
        self.rows.interfaces.beside.put(at as usize, Some(paths));
    }
}
