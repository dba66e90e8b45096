//! What is told of bytes that spell nothing, one law a function.

ghost use Rattle.std.specs.Prelude.{◌≡◌, ◌≤◌, ◌+◌, ◌++◌, ◌⊎◌, ◌↔◌, ℕ, suc, Bool, List, Option, Err, length};
ghost use Rattle.ice_types.specs.declared.declarations.Shape.{Shape};
ghost use Rattle.ice_types.specs.declared.kind.TypeRef.{TypeRef};
ghost use Rattle.ice_types.specs.Fits.{AreOf, IsOf, ShapeFits};
ghost use Rattle.ice_types.specs.Rules.{IsSchema};
ghost use Rattle.ice_types.specs.Tables.{Tables};
ghost use Rattle.ice_prims.specs.declared.fault.Fault.{Fault};
ghost use Rattle.ice_prims.specs.declared.fault.Kind.TheVariants.{Short};
ghost use Rattle.ice_prims.specs.Rest.{Rest, IsBytes, fault, whole};
ghost use Rattle.ice_encoding.specs.declared.limits.TheConstants.{LARGEST, SMALLEST};
ghost use Rattle.ice_encoding.specs.Encapsulation.{SpellsEncapsulation, encapsulation_at};
ghost use Rattle.ice_encoding.specs.Opening.{encapsulated_bytes, opened_at};
ghost use Rattle.ice_encoding.specs.Port.{Reader, by_number};
ghost use Rattle.ice_encoding.specs.Tree.{Tree};
ghost use Rattle.ice_encoding.specs.Value.{plain_value_at};
ghost use Rattle.ice_encoding.specs.Exceptions.{UserException, SpellsException, exception_at};
ghost use Rattle.ice_encoding.specs.Flags.{Before, Reach};
ghost use Rattle.ice_encoding.specs.Graph.{Graph};
ghost use Rattle.ice_encoding.specs.Instances.{SpellsNumbered, numbered_at};
ghost use Rattle.ice_encoding.specs.OptionalMembers.{content_at, slice_members_at};
ghost use Rattle.ice_encoding.specs.References.{State, seen};
ghost use Rattle.ice_encoding.specs.Slices.{slices_at};
ghost use Rattle.graph_laws.specs.Defects.{SizeBreaks};
ghost use Rattle.graph_laws.specs.Encapsulations.{ValueInputBreaks};
ghost use Rattle.graph_laws.specs.Graphs.{GraphInputBreaks};
ghost use Rattle.graph_laws.specs.Heads.{HeadBreaks, HeadStands};
ghost use Rattle.graph_laws.specs.Members.{ContentBreaks, SliceMembersBreak};
ghost use Rattle.graph_laws.specs.Values.{PlainValueBreaks};

/// An encapsulation that is cut is too short, wherever it is cut: as an input, at its first byte, whether it is
/// one of a graph, of a user exception or of a value by itself; and where it stands behind others, at its own.
pub fn cut_value()
    ensures graphs { (t : Tables) (reach : Reach) (shape : Shape) (bytes more : List ℕ) (g : Graph)
        → SpellsNumbered t reach shape (bytes ++ more) g → 1 ≤ length more
        → numbered_at t reach shape (whole bytes) ≡ fault 0 Short }
    ensures exceptions { (t : Tables) (reach : Reach) (bytes more : List ℕ) (x : UserException)
        → SpellsException t reach (bytes ++ more) x → 1 ≤ length more
        → exception_at t reach (whole bytes) ≡ fault 0 Short }
    ensures values { (t : Tables) (kind : TypeRef) (bytes more : List ℕ) (v : Tree)
        → SpellsEncapsulation t kind (bytes ++ more) v → 1 ≤ length more
        → encapsulation_at t kind (whole bytes) ≡ fault 0 Short }
    ensures behind { (r : Rest) (more content : List ℕ)
        → r.bytes ++ more ≡ encapsulated_bytes content → SMALLEST + length content ≤ LARGEST → 1 ≤ length more
        → opened_at r ≡ fault r.place Short }
{}

/// A defect in the head of a slice, whatever stands before that slice and behind it, is the fault that is told; and
/// where a slice or one behind it has another fault, its head stands: flags and an id, and the class of the id passes
/// the tests. A head has one first defect at most.
pub fn slice_heads()
    ensures breaks { (refer : Option ℕ → Reader (State ℕ) (Option ℕ)) (t : Tables) (reach : Reach) (count : ℕ)
        (before : Before) (s : State ℕ) (r : Rest) (fault : Fault)
        → HeadBreaks t reach before (seen s) r.place r.bytes fault
        → slices_at refer t reach (suc count) before s r ≡ Err fault }
    ensures broken { (refer : Option ℕ → Reader (State ℕ) (Option ℕ)) (t : Tables) (reach : Reach) (count : ℕ)
        (before : Before) (s : State ℕ) (r : Rest) (fault : Fault)
        → IsBytes r.bytes → slices_at refer t reach (suc count) before s r ≡ Err fault
        → HeadBreaks t reach before (seen s) r.place r.bytes fault ⊎ HeadStands t reach before (seen s) r.bytes }
    ensures one { (t : Tables) (reach : Reach) (before : Before) (s : State ℕ) (r : Rest) (a b : Fault)
        → HeadBreaks t reach before (seen s) r.place r.bytes a
        → HeadBreaks t reach before (seen s) r.place r.bytes b → a ≡ b }
{}

/// A value by itself, each reference in it a number, is refused exactly where it has the defect; and so is an input
/// that has to be one encapsulation of such a value.
pub fn values_break()
    ensures values { (t : Tables) (kind : TypeRef) (r : Rest) (fault : Fault) → IsOf t kind → IsBytes r.bytes
        → (plain_value_at t kind r ≡ Err fault) ↔ PlainValueBreaks t kind r.place r.bytes fault }
    ensures inputs { (t : Tables) (kind : TypeRef) (bytes : List ℕ) (fault : Fault) → IsOf t kind → IsBytes bytes
        → (encapsulation_at t kind (whole bytes) ≡ Err fault) ↔ ValueInputBreaks t kind 0 bytes fault }
{}

/// The members of a shape, each reference in them a number, are refused exactly where they have the defect: as a whole
/// content, whose optional members go on to the end, and as those of a slice, with their marker.
pub fn members_break()
    ensures contents { (t : Tables) (shape : Shape) (r : Rest) (fault : Fault) → ShapeFits t shape → IsBytes r.bytes
        → (content_at by_number.read t shape tt r ≡ Err fault)
        ↔ ContentBreaks by_number (λ declared from. SizeBreaks) t shape tt r.place r.bytes fault }
    ensures slices { (t : Tables) (flagged : Bool) (shape : Shape) (r : Rest) (fault : Fault) → ShapeFits t shape
        → IsBytes r.bytes → (slice_members_at by_number.read t flagged shape tt r ≡ Err fault)
        ↔ SliceMembersBreak by_number (λ declared from. SizeBreaks) t flagged shape tt r.place r.bytes fault }
{}

/// An input that has to be one encapsulation of a graph is refused exactly where it has the defect, with all instances
/// that begin in it: under a schema, for each shape of members of its types.
pub fn graphs_break()
    ensures { (t : Tables) (reach : Reach) (shape : Shape) (bytes : List ℕ) (fault : Fault)
        → IsSchema t → AreOf t shape.required → AreOf t shape.optional → IsBytes bytes
        → (numbered_at t reach shape (whole bytes) ≡ Err fault) ↔ GraphInputBreaks t reach shape 0 bytes fault }
{}
