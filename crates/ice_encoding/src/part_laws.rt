//! What the definitions promise of proxies, encapsulations and tags. (Ice manual, "The Ice Encoding".)

ghost use Rattle.std.specs.Prelude.{◌≡◌, ◌≤◌, ◌<◌, ◌+◌, ◌++◌, ◌^◌, ℕ, List, Ok, Option, length};
ghost use Rattle.ice_types.specs.declared.proxy.Proxy.{Proxy};
ghost use Rattle.ice_prims.specs.Rest.{Rest, IsBytes, Took};
ghost use Rattle.ice_prims.specs.Laws.{FoundPart, OnlyPart};
ghost use Rattle.ice_encoding.specs.declared.limits.TheConstants.{LARGEST, SMALLEST};
ghost use Rattle.ice_encoding.specs.Proxy.{proxy, CanBeWritten, HasProxySizes};
ghost use Rattle.ice_encoding.specs.Opening.{opened_at, encapsulated_bytes};
ghost use Rattle.ice_encoding.specs.Tags.{tag};
ghost use Rattle.ice_encoding.specs.Skipping.{Passes, passed_at};

/// What is read is spelled by the bytes that were taken, none less and none more.
pub fn proxies_found()
    ensures { FoundPart proxy.read proxy.Spells }
{}

/// What is spelled is read, whatever follows it.
pub fn proxies_only()
    ensures { OnlyPart proxy.read proxy.Spells }
{}

/// No spelling begins another: bytes begin with one proxy at most.
pub fn proxies_apart()
    ensures { (a b x y : List ℕ) (p q : Option Proxy)
        → proxy.Spells a p → proxy.Spells b q → a ++ x ≡ b ++ y → (a ≡ b) × (p ≡ q) }
{}

/// The bytes that are put for each proxy that can be read spell it, and so are read as it again: for each that
/// can be written, where they are within the limit. What bytes spell can be read, and no spelling is shorter than
/// what is put.
pub fn proxies_canonical()
    ensures within { (p : Option Proxy) → CanBeWritten p → length (proxy.put p) ≤ LARGEST → proxy.Is p }
    ensures written { (p : Option Proxy) → proxy.Is p → CanBeWritten p }
    ensures spelled { (p : Option Proxy) → proxy.Is p → proxy.Spells (proxy.put p) p }
    ensures read { (p : Option Proxy) (r s : Rest) → proxy.Is p → Took r (proxy.put p) s → proxy.read r ≡ Ok (p, s) }
    ensures shortest { (bytes : List ℕ) (p : Option Proxy) → IsBytes bytes → proxy.Spells bytes p
        → proxy.Is p × (length (proxy.put p) ≤ length bytes) }
{}

/// Each size in a proxy that can be written is at most the greatest int.
pub fn proxies_sized()
    ensures { (p : Option Proxy) → CanBeWritten p → HasProxySizes p }
{}

/// An encapsulation is opened exactly where its bytes stand: a size that counts them, the version, and
/// the content, which is handed out behind both.
pub fn encapsulations_opened()
    ensures found { (r : Rest) (x : Rest × Rest) → IsBytes r.bytes → opened_at r ≡ Ok x
        → Took r (encapsulated_bytes x.0.bytes) x.1 × (x.0.place ≡ r.place + SMALLEST)
        × (SMALLEST + length x.0.bytes ≤ LARGEST) }
    ensures only { (r s : Rest) (content : List ℕ) → SMALLEST + length content ≤ LARGEST
        → Took r (encapsulated_bytes content) s
        → opened_at r ≡ Ok (record { place = r.place + SMALLEST; bytes = content }, s) }
{}

/// A tag and its format are read exactly where they are spelled.
pub fn tags_read()
    ensures found { FoundPart tag.read tag.Spells }
    ensures only { OnlyPart tag.read tag.Spells }
{}

/// No spelling of a tag and its format begins another.
pub fn tags_apart()
    ensures { (a b x y : List ℕ) (s t : ℕ × ℕ) → tag.Spells a s → tag.Spells b t → a ++ x ≡ b ++ y → (a ≡ b) × (s ≡ t) }
{}

/// What is put for each tag and format spells them, and no spelling is shorter. There are the tags that
/// are sizes, with formats up to 7.
pub fn tags_put()
    ensures spelled { (number format : ℕ) → number < 2 ^ 31 → format ≤ 7
        → tag.Spells (tag.put (number, format)) (number, format) }
    ensures shortest { (bytes : List ℕ) (t : ℕ × ℕ) → IsBytes bytes → tag.Spells bytes t
        → (t.0 < 2 ^ 31) × (t.1 ≤ 7) × (length (tag.put t) ≤ length bytes) }
{}

/// A value of a format below that of references is passed over exactly where bytes of that format stand.
pub fn values_passed()
    ensures found { (format : ℕ) (r s : Rest) → format ≤ 6 → IsBytes r.bytes → passed_at format r ≡ Ok s
        → (bytes : List ℕ) × Took r bytes s × Passes format bytes }
    ensures only { (format : ℕ) (r s : Rest) (bytes : List ℕ) → Took r bytes s → Passes format bytes
        → passed_at format r ≡ Ok s }
{}
