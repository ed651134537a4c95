//! What is said of words on which several parties take turns, and that every turn keeps it.

ghost use Rattle.std.specs.Prelude.{◌≡◌, ◌≢◌, ℕ, ◌<◌, ◌^◌, List, [], ◌∷◌, length, slice_index, IsPermutation};
ghost use Rattle.call_steps.specs.declared.step.Step.{Step};
ghost use Rattle.call_steps.specs.declared.step.Step.TheVariants.{Ended};
ghost use Rattle.call_steps.specs.Steps.{place_of, applied, IsInside};

/// What is to hold at every moment. `R` is the record of a party: what is known of it, its machine
/// among that. `K` is what is fixed when the words are made.
pub trait Lawful<R, K> {
    /// What holds of the words and of the records of all parties.
    ghost lawful: { K → List ℕ → List R → Type 0 };

    /// The records at the start.
    ghost opening: { K → List R };
}

/// What a turn of a party is, and that it keeps the words and records lawful, in whatever order the
/// parties take their turns.
pub trait Law<R, K>: Lawful<R, K> {
    /// How many words there are.
    ghost width: { K → ℕ };

    /// How many parties there are.
    ghost parties: { K → ℕ };

    /// The step that the record's machine asks for.
    ghost asks: { R → Step };

    /// The record after its turn: of the other records, of the record before, and of the word found.
    ghost turned: { K → List R → R → ℕ → R };

    /// What a party may do without a step: by itself the first record may have become the second.
    ghost begins: { K → R → R → Type 0 };

    /// It may also do nothing.
    ghost rests: { (k : K) (r : R) → begins k r r };

    /// Lawful words have the width.
    ghost wide: { (k : K) (ws : List ℕ) (rs : List R) → Self.lawful k ws rs
        → length ws ≡ width k };

    /// There is a record for each party.
    ghost counted: { (k : K) (ws : List ℕ) (rs : List R) → Self.lawful k ws rs
        → length rs ≡ parties k };

    /// A party asks for steps on words that are there.
    ghost inside: { (k : K) (ws : List ℕ) (others : List R) (r : R) → Self.lawful k ws (r ∷ others)
        → IsInside (width k) (asks r) };

    /// The order of the records means nothing.
    ghost regroups: { (k : K) (ws : List ℕ) (rs qs : List R) → IsPermutation rs qs
        → Self.lawful k ws rs → Self.lawful k ws qs };

    /// What a party does without a step keeps the law.
    ghost starts: { (k : K) (ws : List ℕ) (others : List R) (r now : R)
        → Self.lawful k ws (r ∷ others) → begins k r now → Self.lawful k ws (now ∷ others) };

    /// A turn keeps the law: the step is done to the words, and the record is that after its turn.
    ghost keeps: { (k : K) (ws : List ℕ) (others : List R) (r : R) → Self.lawful k ws (r ∷ others)
        → asks r ≢ Ended → slice_index ws (place_of (asks r)) < 2 ^ 64
        → Self.lawful k (applied (asks r) ws)
        (turned k others r (slice_index ws (place_of (asks r))) ∷ others) };
}
