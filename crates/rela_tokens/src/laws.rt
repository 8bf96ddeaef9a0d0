//! How values that are held make up longer ones. The law is a function that does nothing.

ghost use Rattle.std.specs.Prelude.{◌≡◌, ℕ, ◌+◌, ◌++◌, ◌≤◌, [], ◌∷◌, List, Some, None};
ghost use Rattle.json.specs.Json.{after_end_array, read_key};
ghost use Rattle.json.specs.Lex.{tokens};
ghost use Rattle.json.specs.Token.{Token, begin_array, begin_object};
ghost use Rattle.serde_json.specs.Data.{Data};
ghost use Rattle.serde_json.specs.Read.{read};
ghost use Rattle.rela_tokens.specs.Holds.{Holds, HoldsAll, HoldsMembers};
ghost use Rattle.rela_tokens.specs.Objects.{object_of};
ghost use Rattle.rela_tokens.specs.Pieces.{list};

/// Values before a closing bracket are an array, members before a closing brace are an object, and
/// a text is the value that all its tokens are. A value is the same where more may nest, and one
/// that follows others is the last of them.
pub fn what_holds()
    ensures array { (k : ℕ) (old mid new : List Token) (ds : List Data) → HoldsAll k old ds mid →
        after_end_array mid ≡ Some new → Holds (k + 1) (begin_array ∷ old) (list ds) new }
    ensures object { (k : ℕ) (old mid new : List Token) (ms : List (List ℕ × Data)) →
        HoldsMembers k old ms mid → read_key mid ≡ Some (None, new) →
        Holds (k + 1) (begin_object ∷ old) (object_of ms) new }
    ensures text { (k : ℕ) (bytes : List ℕ) (d : Data) → k ≤ 127 →
        Holds k (tokens bytes) d [] → read bytes ≡ Some d }
    ensures deeper { (k l : ℕ) (old new : List Token) (d : Data) → k ≤ l →
        Holds k old d new → Holds l old d new }
    ensures one_more { (k : ℕ) (old mid new : List Token) (ds : List Data) (d : Data) →
        HoldsAll k old ds mid → Holds k mid d new → HoldsAll k old (ds ++ d ∷ []) new }
{}
