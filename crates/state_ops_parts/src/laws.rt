//! What holds of the encodings of all operations.

ghost use Rattle.std.specs.Prelude.{◌≡◌, ◌++◌, ℕ, List, length, Ok};
ghost use Rattle.merkle_forest.specs.Codec.{Outcome};
ghost use Rattle.state_ops_parts.specs.Operation.{Operation, fixed_size, fixed_encoding, variable_encoding};
ghost use Rattle.state_ops_parts.specs.Grammar.{Found, HasFields, HasSizes, fixed_at, variable_at};

/// What is written in the fixed encoding is found again, whatever follows it. Here `U` is what an update says.
pub fn fixed_is_found_again<U>()
    ensures { (key value : List ℕ → Outcome) (updated : List ℕ → Found U) (spelled : U → List ℕ)
        (key_size value_size updated_size : ℕ) (operation : Operation U) (rest : List ℕ)
        → HasFields key value updated spelled operation → HasSizes spelled key_size value_size updated_size operation
        → fixed_at key value updated key_size value_size updated_size
        (fixed_encoding spelled key_size value_size updated_size operation ++ rest) ≡ Ok (operation, rest) }
{}

/// All operations have one size in the fixed encoding.
pub fn fixed_ones_have_one_size<U>()
    ensures { (spelled : U → List ℕ) (key_size value_size updated_size : ℕ) (operation : Operation U)
        → HasSizes spelled key_size value_size updated_size operation
        → length (fixed_encoding spelled key_size value_size updated_size operation)
        ≡ fixed_size key_size value_size updated_size }
{}

/// What is written in the variable encoding is found again, whatever follows it.
pub fn variable_is_found_again<U>()
    ensures { (key value : List ℕ → Outcome) (updated : List ℕ → Found U) (spelled : U → List ℕ)
        (operation : Operation U) (rest : List ℕ) → HasFields key value updated spelled operation
        → variable_at key value updated (variable_encoding spelled operation ++ rest) ≡ Ok (operation, rest) }
{}

/// Different operations have different spellings in the fixed encoding, and no spelling begins another.
pub fn fixed_spellings_differ<U>()
    ensures { (key value : List ℕ → Outcome) (updated : List ℕ → Found U) (spelled : U → List ℕ)
        (key_size value_size updated_size : ℕ) (one other : Operation U) (rest more : List ℕ)
        → HasFields key value updated spelled one → HasSizes spelled key_size value_size updated_size one
        → HasFields key value updated spelled other → HasSizes spelled key_size value_size updated_size other
        → fixed_encoding spelled key_size value_size updated_size one ++ rest
        ≡ fixed_encoding spelled key_size value_size updated_size other ++ more
        → (one ≡ other) × (rest ≡ more) }
{}

/// Different operations have different spellings in the variable encoding, and no spelling begins another.
pub fn variable_spellings_differ<U>()
    ensures { (key value : List ℕ → Outcome) (updated : List ℕ → Found U) (spelled : U → List ℕ)
        (one other : Operation U) (rest more : List ℕ)
        → HasFields key value updated spelled one → HasFields key value updated spelled other
        → variable_encoding spelled one ++ rest ≡ variable_encoding spelled other ++ more
        → (one ≡ other) × (rest ≡ more) }
{}
