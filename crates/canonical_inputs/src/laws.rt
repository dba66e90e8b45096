//! One law a function.

ghost use Rattle.std.specs.Prelude.{◌≡◌, ◌≤◌, ℕ, suc, List, Option, length, slice_get};
ghost use Rattle.ice_types.specs.Tables.{Tables};
ghost use Rattle.ice_types.specs.declared.kind.TypeRef.TheVariants as kinds;
ghost use Rattle.ice_encoding.specs.Pausing.{written_in_place};
ghost use Rattle.ice_encoding.specs.OptionalMembers.{Members};
ghost use Rattle.ice_encoding.specs.Graph.{Graph, Slice, known};
ghost use Rattle.ice_encoding.specs.Classes.{own_members};
ghost use Rattle.ice_encoding.specs.Members.{written_slice_members};
ghost use Rattle.ice_encoding.specs.Names.{names_of, renamed_members};
ghost use Rattle.ice_encoding.specs.References.{entry_in};
ghost use Rattle.ice_encoding.specs.CanonicalGraph.{Pen, sliced, put_inline, written_instance, written_names};
ghost use Rattle.ice_encoding.specs.CanonicalGraph.{table_of, by_size, sized_bytes};
ghost use Rattle.ice_encoding.specs.Visiting.{visit_each, visit_at};
ghost use Rattle.canonical_inputs.specs.Standing.{Has, AreGood, upto};
ghost use Rattle.canonical_inputs.specs.Fitting.{Classes, IsOf, EntriesStand, Whole};
ghost use Rattle.canonical_inputs.specs.Written.{IsWritten, one_member};
ghost use Rattle.canonical_inputs.specs.Tables.{IsTableOf};

/// Where the places in the members of a slice stand by first use, and its table names no instance twice, the table
/// and the members are written as they stand.
pub fn canonical_slices_stay()
    ensures { (t : Tables) (class : ℕ) (table : List ℕ) (c : Members) → IsTableOf (names_of c) table
        → (table_of (known class (renamed_members (entry_in table) c)) ≡ table)
        × (sized_bytes t (known class (renamed_members (entry_in table) c))
        ≡ (written_slice_members by_size t (own_members t class) c tt).0) }
{}

/// References in a stretch of bytes, as they stand, with the instances that begin at them: whichever graph has those
/// from their numbers on, the stretch is what is written for them, and a visit comes to them first in the order of
/// their numbers. Each of them is an instance of the class of its number.
pub fn canonical_instances_stay()
    ensures written { (t : Tables) (classes : Classes) (g : Graph) (depth : ℕ) (names : List ℕ) (p q : Pen)
        (bytes : List ℕ) (news : List (List Slice))
        → EntriesStand t classes depth names p bytes q news → Has g p.begun news
        → written_names t (written_in_place put_inline (written_instance t sliced g depth)) names p ≡ (bytes, q) }
    ensures numbered { (t : Tables) (classes : Classes) (g : Graph) (levels depth : ℕ) (names : List ℕ) (p q : Pen)
        (bytes : List ℕ) (news : List (List Slice))
        → levels ≤ depth → EntriesStand t classes levels names p bytes q news → Has g p.begun news
        → visit_each (visit_at (suc depth) g) names (upto p.begun) ≡ upto q.begun }
    ensures classed { (t : Tables) (classes : Classes) (depth : ℕ) (names : List ℕ) (p q : Pen)
        (bytes : List ℕ) (news : List (List Slice))
        → EntriesStand t classes depth names p bytes q news → AreGood (IsOf t classes) p.begun news }
{}

/// A content that is a reference to an instance as it stands, with all instances that begin in it, is the canonical one
/// of the graph of these instances, whatever its one member is called.
pub fn canonical_references_written()
    ensures { (t : Tables) (name : List ℕ) (declared : Option ℕ) (content met : List ℕ) (q : Pen)
        → length met ≤ 100000 → q.begun ≡ length met → Whole t declared (slice_get met) content q
        → IsWritten t (one_member name (kinds.Class declared)) content }
{}
