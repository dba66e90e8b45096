//! What the definitions promise of each other, one law a function.

ghost use Rattle.std.specs.Prelude.{ℕ, ◌≡◌, ◌<◌, ◌^◌, ◌↔◌, ◌⊎◌, ◌++◌, List, length, Some, Ok, Err};
ghost use Rattle.ice_types.specs.declared.proxy.Proxy.{Proxy};
ghost use Rattle.ice_encoding.specs.Proxy.{HasProxySizes};
ghost use Rattle.ice_proxy.specs.Grammar.{proxy_text};
ghost use Rattle.ice_types.specs.declared.identity.Identity.{Identity};
ghost use Rattle.ice_proxy.specs.Breaks.{Breaks, IdentityBreaks, ProxyBreaks};
ghost use Rattle.ice_proxy.specs.Misplaced.{NoProxy};
ghost use Rattle.ice_proxy.specs.Pieces.{HasPieces, Pieces};
ghost use Rattle.ice_prims.specs.Rest.{whole};
ghost use Rattle.ice_proxy.specs.IdentityText.{identity_text};
ghost use Rattle.ice_proxy.specs.Spelled.{IsProxy, SpellsIdentity, SpellsProxy};
ghost use Rattle.ice_proxy.specs.Printed.{printed_proxy, HasText};

/// What is printed of a proxy is read as that proxy.
pub fn texts_read_back()
    ensures { (p : Proxy) → HasText p → proxy_text (printed_proxy p) ≡ Ok p }
{}

/// What a text is read as can be printed, and is then read as the same proxy.
pub fn texts_typed()
    ensures { (text : List ℕ) (p : Proxy) → proxy_text text ≡ Ok p → HasText p }
{}

/// A proxy that a text spells is not longer than the text: its sizes can be written.
pub fn texts_sized()
    ensures { (text : List ℕ) (p : Proxy) → length text < 2 ^ 30 → proxy_text text ≡ Ok p → HasProxySizes (Some p) }
{}

/// A text is read as what its words, `:` and `@` stand for by the grammar, a proxy or an identity, and as nothing else.
pub fn texts_spelled()
    ensures proxy { (text : List ℕ) (p : Proxy) → (proxy_text text ≡ Ok p) ↔ SpellsProxy text p }
    ensures identity { (text : List ℕ) (i : Identity) → (identity_text text ≡ Ok i) ↔ SpellsIdentity text i }
{}

/// A text is refused exactly at the place where it breaks: at the first word, `:` or `@`, or at the end, that no proxy
/// (no identity) goes on with; at its type where an opaque endpoint is TCP.
pub fn texts_break()
    ensures proxy { (text : List ℕ) (place : ℕ) → (proxy_text text ≡ Err place) ↔ ProxyBreaks text place }
    ensures identity { (text : List ℕ) (place : ℕ) → (identity_text text ≡ Err place) ↔ IdentityBreaks text place }
{}

/// Each text stands for one proxy or breaks at one place, and not both.
pub fn proxies_or_breaks()
    ensures each { (text : List ℕ) → ((p : Proxy) × SpellsProxy text p) ⊎ ((place : ℕ) × ProxyBreaks text place) }
    ensures one_proxy { (text : List ℕ) (p q : Proxy) → SpellsProxy text p → SpellsProxy text q → p ≡ q }
    ensures one_place { (text : List ℕ) (a b : ℕ) → ProxyBreaks text a → ProxyBreaks text b → a ≡ b }
    ensures apart { (text : List ℕ) (p : Proxy) (place : ℕ) → SpellsProxy text p → ¬ ProxyBreaks text place }
{}

/// Each text stands for one identity or breaks at one place, and not both.
pub fn identities_or_breaks()
    ensures each { (text : List ℕ)
        → ((i : Identity) × SpellsIdentity text i) ⊎ ((place : ℕ) × IdentityBreaks text place) }
    ensures one_identity { (text : List ℕ) (i j : Identity) → SpellsIdentity text i → SpellsIdentity text j → i ≡ j }
    ensures one_place { (text : List ℕ) (a b : ℕ) → IdentityBreaks text a → IdentityBreaks text b → a ≡ b }
    ensures apart { (text : List ℕ) (i : Identity) (place : ℕ) → SpellsIdentity text i → ¬ IdentityBreaks text place }
{}

/// The pieces of a text break exactly before the one that is not of the kind that is due: an identity, an option that
/// does not stand yet, its value, the name of a transport, each word of an opaque endpoint, an adapter, or the end.
pub fn kinds_of_breaks()
    ensures { (text : List ℕ) (ps before behind : Pieces) → HasPieces (whole text) ps
        → Breaks IsProxy ps before behind ↔ ((ps ≡ before ++ behind) × NoProxy before behind) }
{}
