//! What the definitions promise of each other, one law a function.

ghost use Rattle.std.specs.Prelude.{◌≡◌, List, None, Option, Some, ℕ};
ghost use Rattle.std.specs.Io.KnownBytes.{Consumes};
ghost use Rattle.ice_prims.specs.declared.fault.Fault.{Fault};
ghost use Rattle.ice_prims.specs.Rest.{IsBytes};
ghost use Rattle.message_dump.specs.declared.dump.Dump.TheVariants.{Finished, Refused};
ghost use Rattle.message_dump.specs.Dumps.{IsDump};
ghost use Rattle.message_dump.specs.Sources.{IsTold};

/// An input is told by one list of lines alone, with one fault behind them or none.
pub fn dumps_apart()
    ensures { (input a b : List ℕ) (e f : Option Fault) → IsDump input a e → IsDump input b f → (a ≡ b) × (e ≡ f) }
{}

/// Every list of bytes is told by some lines.
pub fn dumps_all()
    ensures { (input : List ℕ) → IsBytes input → (lines : List ℕ) × (end : Option Fault) × IsDump input lines end }
{}

/// What was read of an input decides it: no fault is told of an input that goes on without it.
pub fn reading_decides()
    ensures refused { (input got lines : List ℕ) (left : Option (List ℕ)) (fault : Fault)
        → Consumes (Some input) left got → IsTold left got lines (Refused fault) → IsDump input lines (Some fault) }
    ensures finished { (input got lines : List ℕ) (left : Option (List ℕ))
        → Consumes (Some input) left got → IsTold left got lines Finished → IsDump input lines None }
{}
