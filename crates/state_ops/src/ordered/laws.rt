//! What holds of the fixed encoding of all ordered operations.

ghost use Rattle.std.specs.Prelude.{◌≡◌, ◌++◌, ℕ, List, Ok};
ghost use Rattle.merkle_forest.specs.Codec.{Outcome};
ghost use Rattle.state_ops.specs.Operation.{Operation, fixed_encoding};
ghost use Rattle.state_ops.specs.Reading.{HasEncoding, operation_at};

/// What is encoded is read again, whatever follows it.
pub fn encoded_is_read_again()
    ensures { (key value : List ℕ → Outcome) (key_size value_size : ℕ) (operation : Operation) (rest : List ℕ)
        → HasEncoding key value key_size value_size operation
        → operation_at key value key_size value_size (fixed_encoding key_size value_size operation ++ rest)
        ≡ Ok (operation, rest) }
{}

/// Different operations have different encodings, and no encoding begins another.
pub fn encodings_differ()
    ensures { (key value : List ℕ → Outcome) (key_size value_size : ℕ) (one other : Operation) (rest more : List ℕ)
        → HasEncoding key value key_size value_size one → HasEncoding key value key_size value_size other
        → fixed_encoding key_size value_size one ++ rest ≡ fixed_encoding key_size value_size other ++ more
        → (one ≡ other) × (rest ≡ more) }
{}
