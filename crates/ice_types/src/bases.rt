//! How many bases classes, exceptions and interfaces have.

ghost use Rattle.std.specs.Prelude.{◌≡◌, ◌≤◌, ◌<◌, suc, length};
ghost use Rattle.ice_types.specs.Measures.{paths_of};
ghost use Rattle.ice_types.specs.Fits.{ClassBaseFits, ExceptionBaseFits, paths_over};
ghost use Rattle.ice_types.specs.Bases.{HasBases, HasBasesFrom, class_base, exception_base};
ghost use Rattle.ice_types.specs.Rules.{defined};
ghost use Rattle.ice_types.specs.Kept.{above_of, counted};
ghost use Rattle.ice_types.specs.Inherited.{CountsClassBases, HasFarBases, IsA, IsFarBase};

use crate::list::List;
use crate::rows::{Above, ClassRows, MOST_ROWS};
use crate::schema::{MOST_BASES, Schema};

impl Schema {
    /// How many bases the interface at this place has, counted by the paths that lead to them; 0 of
    /// one that is only declared. It takes no time that grows with the schema.
    pub fn paths(&self, at: u32) -> u32
        ensures { result ≡ paths_of self.now (suc MOST_BASES) at }
    {
        counted(&self.rows.interfaces.beside, at)
    }

    /// How many bases, by paths, an interface has whose next bases are these.
    pub(crate) fn paths_over(&self, bases: &[u32]) -> u32
        requires { paths_over self.now bases.now ≤ MOST_BASES }
        ensures { result ≡ paths_over self.now bases.now }
    {
        let mut paths = 0;
        for base in bases {
            paths += 1 + self.paths(*base);
        }
        paths
    }

    /// How many bases the class at this place has, one above the other; 0 of one that is only declared.
    pub(crate) fn class_bases(&self, at: u32) -> u32
        requires { at < length self.now.classes }
        ensures bases { HasBases (class_base self.now) at result }
        ensures most { result ≤ defined self.now.defined_classes }
        ensures room { result < MOST_ROWS }
    {
        above_of(&self.rows.classes.beside, at).bases
    }

    /// How many bases the exception at this place has, one above the other.
    pub(crate) fn exception_bases(&self, at: u32) -> u32
        requires { at < length self.now.exceptions }
        ensures bases { HasBases (exception_base self.now) at result }
        ensures most { result ≤ at }
    {
        match self.rows.exceptions.beside.get(at as usize) {
            Some(bases) => *bases,
            None => 0,
        }
    }

    /// How many bases a class has whose base is this one.
    pub(crate) fn class_bases_from(&self, base: Option<u32>) -> u32
        requires { ClassBaseFits self.now base }
        ensures bases { HasBasesFrom (class_base self.now) base result }
        ensures most { result ≤ suc (defined self.now.defined_classes) }
    {
        self.rules();
        match base {
            Some(base) => self.class_bases(base) + 1,
            None => 0,
        }
    }

    /// The far base of the class at this place, once this is its base.
    pub(crate) fn far_base(&self, at: u32, base: Option<u32>) -> u32
        ensures { IsFarBase self.now.classes at base result }
    {
        match base {
            Some(base) => far_over(&self.rows.classes, base),
            None => at,
        }
    }

    /// How many bases an exception has whose base is this one.
    pub(crate) fn exception_bases_from(&self, base: Option<u32>) -> u32
        requires { ExceptionBaseFits self.now base }
        ensures bases { HasBasesFrom (exception_base self.now) base result }
        ensures most { result ≤ length self.now.exceptions }
    {
        self.rules();
        match base {
            Some(base) => self.exception_bases(base) + 1,
            None => 0,
        }
    }
}

/// The far base of a class whose base is this one: the end of the next two leaps where these are of one
/// length, else this base. So leaps grow as numbers do in binary, and few lead to any base.
fn far_over(rows: &ClassRows, base: u32) -> u32
    requires counts { CountsClassBases rows.now.decls rows.now.beside }
    requires far { HasFarBases rows.now.decls rows.now.beside }
    ensures { IsA rows.now.decls base result }
{
    let first = above_of(&rows.beside, base);
    let second = above_of(&rows.beside, first.far);
    let third = above_of(&rows.beside, second.far);
    if first.bases - second.bases == second.bases - third.bases {
        second.far
    } else {
        base
    }
}

/// What stands beside the class at this place. One that is only declared has no base, and is its own far base.
pub(crate) fn above_of(beside: &List<Option<Above>>, at: u32) -> Above
    ensures { result ≡ above_of beside.now at }
{
    let declared = Above { bases: 0, far: at };
    match beside.get(at as usize) {
        Some(above) => above.unwrap_or(declared),
        None => declared,
    }
}

/// The number beside the row at this place, 0 where the row is only declared.
pub(crate) fn counted(beside: &List<Option<u32>>, at: u32) -> u32
    ensures { result ≡ counted beside.now at }
{
    match beside.get(at as usize) {
        Some(number) => number.unwrap_or(0),
        None => 0,
    }
}
