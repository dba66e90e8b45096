//! What the definitions promise of user exceptions, one law a function.

ghost use Rattle.std.specs.Prelude.{◌≤◌, ℕ, List, length};
ghost use Rattle.ice_types.specs.Rules.{IsSchema};
ghost use Rattle.ice_types.specs.Tables.{Tables};
ghost use Rattle.ice_prims.specs.Rest.{IsBytes};
ghost use Rattle.ice_encoding.specs.declared.limits.TheConstants.{LARGEST};
ghost use Rattle.ice_encoding.specs.CanonicalGraph.{Format, compact};
ghost use Rattle.ice_encoding.specs.Exceptions.{UserException, SpellsException};
ghost use Rattle.ice_encoding.specs.Flags.{Reach, all_slices, known_classes};
ghost use Rattle.ice_encoding.specs.Instances.{most_instances};
ghost use Rattle.ice_encoding.specs.UserExceptionTyped.{OfUserException};
ghost use Rattle.ice_encoding.specs.UserExceptionWritten.{order_of, exception_bytes, CanBeWritten, SameUserException};
ghost use Rattle.ice_encoding.specs.UserExceptionWritten.{SpellsSame};

/// An exception that is read is of its type, and its instances are within the limit.
pub fn exceptions_typed()
    ensures { (t : Tables) (reach : Reach) (bytes : List ℕ) (x : UserException)
        → IsSchema t → IsBytes bytes → SpellsException t reach bytes x
        → OfUserException t x × (length x.instances ≤ most_instances) }
{}

/// Within the limits, what is written for an exception of its type spells one that is the same; where no slice of
/// it and of the instances that it reaches is kept, also for those who read known slices alone, in each format.
pub fn exceptions_written()
    ensures all { (t : Tables) (format : Format) (x : UserException)
        → IsSchema t → OfUserException t x → CanBeWritten format x
        → length (order_of x) ≤ most_instances → length (exception_bytes t format x) ≤ LARGEST
        → SpellsSame t all_slices (exception_bytes t format x) x }
    ensures known { (t : Tables) (format : Format) (x : UserException)
        → IsSchema t → OfUserException t x → CanBeWritten compact x
        → length (order_of x) ≤ most_instances → length (exception_bytes t format x) ≤ LARGEST
        → SpellsSame t known_classes (exception_bytes t format x) x }
{}

/// Whoever reads what is written for an exception, of those who can, reads one that is the same.
pub fn written_exceptions_apart()
    ensures all { (t : Tables) (format : Format) (x y : UserException)
        → IsSchema t → OfUserException t x → CanBeWritten format x → length (order_of x) ≤ most_instances
        → SpellsException t all_slices (exception_bytes t format x) y → SameUserException y x }
    ensures known { (t : Tables) (format : Format) (x y : UserException)
        → IsSchema t → OfUserException t x → CanBeWritten compact x → length (order_of x) ≤ most_instances
        → SpellsException t known_classes (exception_bytes t format x) y → SameUserException y x }
{}
