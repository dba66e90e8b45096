//! The words OBJECT of the command line.

ghost use Rattle.std.specs.Prelude.{codes, ◌++◌, ◌≢◌};
ghost use Rattle.serve_command.specs.ObjectWords.{LacksEquals, Spells};

/// What one word asks for.
#[derive(Clone, Copy)]
pub enum ObjectWord<'a> {
    /// `store=IDENTITY=INTERFACE`: an object that keeps a number and a value.
    Store {
        identity: &'a str,
        interface: &'a str,
    },
    /// `echo=IDENTITY=INTERFACE`: an object that gives its arguments as results.
    Echo {
        identity: &'a str,
        interface: &'a str,
    },
    /// `locator=IDENTITY`: an object that tells where others are.
    Locator {
        identity: &'a str,
    },
    /// `place=IDENTITY=PROXY`: where an object is, for each locator.
    Place {
        identity: &'a str,
        proxy: &'a str,
    },
    /// `adapter=ID=PROXY`: where an adapter is, for each locator.
    Adapter {
        id: &'a str,
        proxy: &'a str,
    },
}

/// What the word asks for, None where it is none of the forms. Its parts are cut at the first and the second `=`.
pub(crate) fn object_of(word: &str) -> Option<ObjectWord<'_>>
    ensures { Spells word.now result }
{
    let (sort, parts) = word.split_once('=')?;
    match sort {
        "locator" => locator_of(parts),
        _ => of_two_parts(sort, parts),
    }
}

/// The locator of this identity, which has no `=`.
fn locator_of(identity: &str) -> Option<ObjectWord<'_>>
    ensures { Spells (codes "locator=" ++ identity.now) result }
{
    match identity.split_once('=') {
        Some(_) => None,
        None => Some(ObjectWord::Locator { identity }),
    }
}

/// What a word of two parts behind its sort asks for.
fn of_two_parts<'a>(sort: &str, parts: &'a str) -> Option<ObjectWord<'a>>
    requires sort { LacksEquals sort.now }
    requires other { sort.now ≢ codes "locator" }
    ensures { Spells (sort.now ++ (codes "=" ++ parts.now)) result }
{
    let (name, second) = parts.split_once('=')?;
    match sort {
        "store" => Some(ObjectWord::Store {
            identity: name,
            interface: second,
        }),
        "echo" => Some(ObjectWord::Echo {
            identity: name,
            interface: second,
        }),
        "place" => Some(ObjectWord::Place {
            identity: name,
            proxy: second,
        }),
        "adapter" => Some(ObjectWord::Adapter {
            id: name,
            proxy: second,
        }),
        _ => None,
    }
}
