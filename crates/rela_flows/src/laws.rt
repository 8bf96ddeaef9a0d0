//! What holds of all prefixes. Each law is a function that does nothing, and its contract is the law.

ghost use Rattle.std.specs.Prelude.{◌≡◌, ◌↔◌, ℕ, List, Some};
ghost use Rattle.rela_flows.specs.Address.{Overlap};
ghost use Rattle.rela_flows.specs.Notation.{IsTextOf, text_of};
ghost use Rattle.rela_flows.specs.Written.{prefix_of};
ghost use Rattle.rela_flows.specs.declared.prefix.Ipv4Prefix.{Ipv4Prefix};
ghost use Rattle.rela_flows.specs.declared.prefix.Ipv6Prefix.{Ipv6Prefix};
ghost use Rattle.rela_flows.specs.declared.prefix.Prefix.{Prefix};
ghost use Rattle.rela_flows.specs.declared.prefix.Prefix.TheVariants.{V4, V6};

/// The canonical text of a prefix is one of its texts.
pub fn canonical_texts_write_their_prefixes()
    ensures { (p : Prefix) → IsTextOf (text_of p) p }
{}

/// A text writes the prefix that `prefix_of` gives of it, and no other.
pub fn prefixes_are_read_exactly()
    ensures { (text : List ℕ) (p : Prefix) → (prefix_of text ≡ Some p) ↔ IsTextOf text p }
{}

/// Prefixes of one length that have an address in common are equal.
pub fn prefixes_of_one_length_are_apart()
    ensures ipv4 { (p q : Ipv4Prefix) → p.length ≡ q.length → Overlap (V4 p) (V4 q) → p ≡ q }
    ensures ipv6 { (p q : Ipv6Prefix) → p.length ≡ q.length → Overlap (V6 p) (V6 q) → p ≡ q }
{}
