//! What a name stands for.

ghost use Rattle.std.specs.Prelude.{vec_len, vec_capacity, ◌++◌, reverse, ◌≡◌, ◌≤◌, ◌<◌, [], ◌∷◌, length, None, OnOk};
ghost use Rattle.std.specs.Prelude.{OnErr};
ghost use Rattle.slice_meaning.specs.Scopes.{number_in, AreFound, IsOuter};

use crate::by_name::ByName;
use crate::entry::Entry;
use crate::lowered::Lowered;
use crate::skip::next_skip;
use crate::standing::Standing;
use ice_types::Name;
use slice_syntax::Path;
use std::alloc::{AllocError, Global};
use std::marker::Model;

/// What was declared so far. Contracts see the declarations, the newest first.
///
/// Scopes have numbers: the outermost is 0, and the n-th declaration has the scope n inside it, counted from 1.
#[derive(Drop)]
pub struct Scopes<'a> {
    entries: Vec<Entry<'a>>,
    numbers: ByName<'a>,
    lowered: Lowered,
}

impl<'a> Model for Scopes<'a> {
    ghost use Rattle.std.specs.Prelude.{List, reverse};
    ghost use Rattle.slice_meaning.specs.Names.{Declared};
    ghost use Rattle.slice_meaning.specs.Scopes.{declarations, AreFound};

    ghost Value = { List Declared };

    ghost view = { λ s. declarations (reverse s.entries.items) };

    ghost invariant = { λ s. AreFound (reverse s.entries.items) s.numbers s.lowered };
}

impl<'a> Scopes<'a> {
    ghost use Rattle.std.specs.Prelude.{ℕ, ◌≡◌, ◌≤◌, ◌<◌, ◌+◌, List, [], ◌∷◌, length, suc, None, Some, OnOk, OnErr};
    ghost use Rattle.std.specs.Prelude.{IfOk, IfSome, true, option_and_then, option_map};
    ghost use Rattle.slice_meaning.specs.Adding.{with_declared};
    ghost use Rattle.slice_meaning.specs.Names.{Scope, taken_in, declared_in, outwards, inwards, first_of, stands_for};
    ghost use Rattle.slice_meaning.specs.Numbers.{scope_at, declared_at, stands_at, IsNumber, IsLast, FindsAlike};

    /// Nothing is declared.
    pub fn new(alloc: Global) -> Scopes<'a>
        ensures { result ≡ [] }
    {
        Scopes {
            entries: Vec::new(alloc),
            numbers: ByName::new(alloc),
            lowered: Lowered::new(alloc),
        }
    }

    /// How many declarations there are, which is the number of the last one.
    pub fn len(&self) -> usize
        ensures { result ≡ length self.now }
    {
        self.entries.len()
    }

    /// The number of the declaration of this very name in a scope.
    pub fn in_scope(&self, scope: usize, name: &str) -> Option<usize>
        requires { scope ≤ length self.now }
        ensures number { IsNumber self.now result (declared_in self.now name.now (scope_at self.now scope)) }
        ensures inside { IfSome result (λ k. scope_at self.now k ≡ name.now ∷ scope_at self.now scope) }
        ensures taken { IfSome result (λ k. taken_in self.now name.now (scope_at self.now scope) ≡ true) }
    {
        self.numbers.get(name, scope)
    }

    /// The scope round one that is not the outermost.
    pub fn around(&self, scope: usize) -> usize
        requires inner { 0 < scope }
        requires within { scope ≤ length self.now }
        ensures less { result < scope }
        ensures scope { (name : List ℕ) × (scope_at self.now scope ≡ name ∷ scope_at self.now result) }
    {
        self.entries[scope - 1].around
    }

    /// What the declaration of a number is.
    pub fn standing(&self, number: usize) -> Standing
        requires first { 0 < number }
        requires within { number ≤ length self.now }
        ensures { option_map (λ d. d.standing) (declared_at self.now number) ≡ Some result }
    {
        self.entries[number - 1].standing
    }

    /// The name of the declaration of a number.
    pub fn name(&self, number: usize) -> &'a str
        requires first { 0 < number }
        requires within { number ≤ length self.now }
        ensures { (outer : Scope) × (scope_at self.now number ≡ result.now ∷ outer) }
    {
        self.entries[number - 1].name
    }

    /// The file and the place of the declaration of a number.
    pub fn place(&self, number: usize) -> (u32, u32)
        requires first { 0 < number }
        requires within { number ≤ length self.now }
        ensures { option_map stands_at (declared_at self.now number) ≡ Some result }
    {
        let entry = &self.entries[number - 1];
        (entry.file, entry.place)
    }

    /// The last scope with this very name, up to this one, and the number of that declaration.
    fn nearest(&self, scope: usize, name: &str) -> Option<(usize, usize)>
        requires { scope ≤ length self.now }
        ensures { IsLast self.now name.now scope result }
    {
        self.numbers.nearest(name, scope)
    }

    /// A step outwards, not past the scope of a number.
    fn step(&self, scope: usize, near: usize) -> usize
        requires behind { near < scope }
        requires within { scope ≤ length self.now }
        ensures less { result < scope }
        ensures same { FindsAlike self.now near scope result }
    {
        let entry = &self.entries[scope - 1];
        if entry.skip.to < near {
            entry.around
        } else {
            entry.skip.to
        }
    }

    /// The first scope, on the way outwards, that has this number or a smaller one.
    fn outer(&self, scope: usize, near: usize) -> usize
        requires { scope ≤ length self.now }
        ensures near { result ≤ near }
        ensures less { result ≤ scope }
        ensures same { FindsAlike self.now near scope result }
    {
        let mut at = scope;
        while near < at {
            at = self.step(at, near);
        }
        at
    }

    /// The number of what a name stands for in a scope, or else in those round it.
    ///
    /// The scopes that have the name and those on the way outwards are gone through side by side, the ones with the
    /// greatest numbers first. So scopes on the way that lack the name take no time of their own.
    fn outwards(&self, scope: usize, name: &str) -> Option<usize>
        requires { scope ≤ length self.now }
        ensures { IsNumber self.now result (outwards self.now name.now (scope_at self.now scope)) }
    {
        let mut at = scope;
        while let Some((near, number)) = self.nearest(at, name) {
            at = self.outer(at, near);
            if at == near {
                return Some(number);
            }
        }
        None
    }

    /// The number of what names stand for, each inside what the one before it stands for.
    fn inwards(&self, number: usize, names: &[Name]) -> Option<usize>
        requires first { 0 < number }
        requires within { number ≤ length self.now }
        ensures { IsNumber self.now result
            (option_and_then (inwards self.now names.now) (declared_at self.now number)) }
    {
        let mut found = number;
        for name in names {
            match self.in_scope(found, name.as_str()) {
                Some(inner) => found = inner,
                None => return None,
            }
        }
        Some(found)
    }

    /// The number of what the first name of a scoped one stands for.
    fn first(&self, scope: usize, outer: bool, name: &str) -> Option<usize>
        requires { scope ≤ length self.now }
        ensures { IsNumber self.now result (first_of self.now (scope_at self.now scope) outer name.now) }
    {
        if outer {
            self.in_scope(0, name)
        } else {
            self.outwards(scope, name)
        }
    }

    /// The number of what a scoped name stands for where it is used in a scope.
    pub fn find(&self, scope: usize, path: &Path) -> Option<usize>
        requires { scope ≤ length self.now }
        ensures { IsNumber self.now result (stands_for self.now (scope_at self.now scope) path.now) }
    {
        let [first, others @ ..] = path.words.as_slice() else {
            return None;
        };
        match self.first(scope, path.outer, first.as_str()) {
            Some(number) => self.inwards(number, others),
            None => None,
        }
    }

    /// Whether some name of the scope is equal to this one without regard to case.
    pub fn is_taken(&self, alloc: Global, scope: usize, name: &str) -> Result<bool, AllocError>
        requires { scope ≤ length self.now }
        ensures { IfOk result (λ taken. taken ≡ taken_in self.now name.now (scope_at self.now scope)) }
    {
        self.lowered.has(alloc, name, scope)
    }

    /// Declares a name that the scope does not have. Want of memory leaves what was declared.
    pub fn declare(
        &mut self,
        alloc: Global,
        scope: usize,
        name: &'a str,
        standing: Standing,
        file: u32,
        place: u32,
    ) -> Result<(), AllocError>
        requires within { scope ≤ length self.old }
        requires new { declared_in self.old name.now (scope_at self.old scope) ≡ None }
        ensures ok { OnOk result (self.new ≡ with_declared self.old scope name.now standing file place) }
        ensures err { OnErr result (self.new ≡ self.old) }
    {
        let entry = Entry {
            around: scope,
            name,
            standing,
            file,
            place,
            skip: next_skip(self.entries.as_slice(), scope),
        };
        put(
            alloc,
            &mut self.entries,
            &mut self.numbers,
            &mut self.lowered,
            entry,
        )
    }
}

/// Puts a declaration behind the others. Want of memory leaves all as it was.
fn put<'a>(
    alloc: Global,
    entries: &mut Vec<Entry<'a>>,
    numbers: &mut ByName<'a>,
    lowered: &mut Lowered,
    entry: Entry<'a>,
) -> Result<(), AllocError>
    requires held { AreFound (reverse entries.old.items) numbers.old lowered.old }
    requires around { entry.around ≤ length entries.old.items }
    requires skip { IsOuter (reverse entries.old.items) entry.around entry.skip.to }
    requires new { number_in (reverse entries.old.items) entry.around entry.name.now ≡ None }
    ensures held { AreFound (reverse entries.new.items) numbers.new lowered.new }
    ensures ok { OnOk result (entries.new.items ≡ entries.old.items ++ entry.entry ∷ []) }
    ensures err { OnErr result (entries.new.items ≡ entries.old.items) }
{
    let number = entries.len() + 1;
    entries.reserve(1)?;
    numbers.insert(entry.name, entry.around, number)?;
    match lowered.insert(alloc, entry.name, entry.around) {
        Ok(()) => {
            add(entries, entry);
            Ok(())
        }
        Err(error) => {
            numbers.remove(entry.name, entry.around);
            Err(error)
        }
    }
}

/// Puts an entry last where there is room.
fn add<'a>(entries: &mut Vec<Entry<'a>>, entry: Entry<'a>)
    requires { vec_len entries.old < vec_capacity entries.old }
    ensures { entries.new.items ≡ entries.old.items ++ entry.entry ∷ [] }
{
    if entries.push(entry).is_err() {
        unreachable!()
    }
}
