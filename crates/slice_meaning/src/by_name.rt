//! Declarations by name and scope.

ghost use Rattle.slice_meaning.specs.Held.{AreIds};

use std::alloc::{AllocError, Global};
use std::collections::BTreeMap;

/// The numbers of declarations by their names and scopes. Each name has an id of its own, so that the scopes of one
/// name stand side by side.
#[derive(Drop)]
pub struct ByName<'a> {
    pub ids: BTreeMap<&'a str, usize>,
    pub numbers: BTreeMap<(usize, usize), usize>,
    ghost are_ids: { AreIds ids numbers },
}

impl<'a> ByName<'a> {
    ghost use Rattle.std.specs.Prelude.{◌≡◌, OnOk, OnErr, IfOk, List, ℕ, None, Some};
    ghost use Rattle.slice_meaning.specs.Held.{id_of};
    ghost use Rattle.slice_meaning.specs.Finding.{number_at, IsSame, IsChanged, IsNearest};

    /// No names.
    pub fn new(alloc: Global) -> ByName<'a>
        ensures { (word : List ℕ) (scope : ℕ) → number_at result word scope ≡ None }
    {
        ByName {
            ids: BTreeMap::new(alloc),
            numbers: BTreeMap::new(alloc),
        }
    }

    /// The declaration of this very name in this scope.
    pub fn get(&self, name: &str, scope: usize) -> Option<usize>
        ensures { result ≡ number_at self.now name.now scope }
    {
        let id = *self.ids.get(name)?;
        self.numbers.get(&(id, scope)).copied()
    }

    /// The last scope, up to this one, with a declaration of this very name, and that declaration.
    pub fn nearest(&self, name: &str, scope: usize) -> Option<(usize, usize)>
        ensures { IsNearest (number_at self.now name.now) scope result }
    {
        let id = *self.ids.get(name)?;
        let ((_, near), number) = self.numbers.range((id, 0)..=(id, scope)).next_back()?;
        Some((*near, *number))
    }

    /// The id of a name, which gets one where it has none. Want of memory leaves all as it was.
    fn id(&mut self, name: &'a str) -> Result<usize, AllocError>
        ensures id { IfOk result (λ id. id_of self.new.ids name.now ≡ Some id) }
        ensures same { IsSame (number_at self.old) (number_at self.new) }
    {
        if let Some(id) = self.ids.get(name) {
            return Ok(*id);
        }
        let id = self.ids.len();
        self.ids.insert(name, id)?;
        Ok(id)
    }

    /// Puts a name in, with the number of its declaration. Want of memory leaves what the others find.
    pub fn insert(&mut self, name: &'a str, scope: usize, number: usize) -> Result<(), AllocError>
        ensures ok { OnOk result (IsChanged name.now scope (Some number) (number_at self.old) (number_at self.new)) }
        ensures err { OnErr result (IsSame (number_at self.old) (number_at self.new)) }
    {
        let id = self.id(name)?;
        self.numbers.insert((id, scope), number)?;
        Ok(())
    }

    /// Takes a name out again.
    pub fn remove(&mut self, name: &str, scope: usize)
        ensures { IsChanged name.now scope None (number_at self.old) (number_at self.new) }
    {
        if let Some(id) = self.ids.get(name) {
            let id = *id;
            self.numbers.remove(&(id, scope));
        }
    }
}
