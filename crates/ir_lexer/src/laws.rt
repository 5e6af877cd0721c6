ghost use Rattle.std.specs.Prelude.{◌≡◌, ◌⊎◌, ℕ, true, false, ◌==◌, List, [], ◌∷◌, ◌++◌, Result};
ghost use Rattle.std.specs.List.{list_any};
ghost use Rattle.oi_base.specs.declared.ids.Place.{Place};
ghost use Rattle.ir_lexer.specs.declared.fault.LexFault.{LexFault};
ghost use Rattle.ir_lexer.specs.declared.table.Token.{Token};
ghost use Rattle.ir_lexer.specs.declared.table.Spot.{Spot};
ghost use Rattle.ir_lexer.specs.declared.table.Token.TheVariants as tokens;
ghost use Rattle.ir_lexer.specs.Alphabet.{is_separator, begins_with};
ghost use Rattle.ir_lexer.specs.Places.{next_place, place_after};
ghost use Rattle.ir_lexer.specs.Spellings.{Spells, continues};
ghost use Rattle.ir_lexer.specs.Lexing.{Unread, unread, next_token, is_end, Lexes};

/// What a text gives is a function of its bytes: it has one list of tokens with their places, or one first fault, and
/// not both. The end comes only where no byte is left, at the place after the last byte, and comes again and again.
#[tactic(auto, using(crate::proofs::Total::some_answer, crate::proofs::Total::end_stays, crate::proofs::Stops::one_answer))]
pub fn lexing_is_a_function()
    ensures some { (u : Unread) → (o : Result (List Spot) LexFault) × Lexes u o }
    ensures one { (u : Unread) (a b : Result (List Spot) LexFault) → Lexes u a → Lexes u b → a ≡ b }
    ensures end { (u : Unread) (p : Place) (v : Unread) → next_token u ≡ Ok ((tokens.End, p), v) →
        (v ≡ unread [] p) × (next_token v ≡ Ok ((tokens.End, p), v)) }
{}

/// The tokens are those of the table. What is taken is what separates tokens and then a form of the token; a separator
/// or a comment before a token changes its place alone; and a form of a token is read as that token where the byte
/// after it, if there is one, is no byte of a run, no `:` and no quote.
#[tactic(auto, using(crate::proofs::After::in_parts, crate::proofs::After::past_separator, crate::proofs::After::past_comment, crate::proofs::After::read_here))]
pub fn tokens_are_those_of_the_table()
    ensures form { (u v : Unread) (t : Token) (p : Place) → next_token u ≡ Ok ((t, p), v) →
        (gap bs : List ℕ) × (u.bytes ≡ gap ++ (bs ++ v.bytes)) × Spells t bs ×
        (p ≡ place_after u.place gap) × (v.place ≡ place_after p bs) }
    ensures read { (t : Token) (bs after : List ℕ) (p : Place) →
        Spells t bs → is_end t ≡ false → continues after ≡ false →
        next_token (unread (bs ++ after) p) ≡ Ok ((t, p), unread after (place_after p bs)) }
    ensures separator { (b : ℕ) (after : List ℕ) (p : Place) → is_separator b ≡ true →
        next_token (unread (b ∷ after) p) ≡ next_token (unread after (next_place p b)) }
    ensures comment { (body after : List ℕ) (p : Place) →
        list_any (λ b. b == 10) body ≡ false → (after ≡ []) ⊎ (begins_with 10 after ≡ true) →
        next_token (unread (59 ∷ (body ++ after)) p) ≡
        next_token (unread after (place_after p (59 ∷ body))) }
{}
