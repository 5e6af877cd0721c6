ghost use Rattle.std.specs.Prelude.{◌≡◌, ◌<◌, ℕ, All, List, [], ◌∷◌, ◌++◌, Ok, Err};
ghost use Rattle.ir_lexer.specs.declared.table.Spot.{Spot};
ghost use Rattle.ir_core.specs.declared.module.Module as modules;
ghost use Rattle.ir_grammar.specs.declared.which.Which.{Which};
ghost use Rattle.ir_grammar.specs.Names.{Names};
ghost use Rattle.ir_grammar.specs.Pieces.{Piece, Is, pieces};
ghost use Rattle.ir_grammar.specs.Forms.{Left, Fault, Refused, Exceeds};
ghost use Rattle.ir_grammar.specs.Tokens.{unlimited};
ghost use Rattle.ir_grammar.specs.Reading.{ReadsPieces, Reads, ReadsWithinLimits, IsReadable, IsReadableWithinLimits, IsFront, FirstRefused, ExceedsAt, read};

/// A text is that of one module at most, with limits and without them.
pub fn a_text_has_one_module()
    ensures reads { (bytes : List ℕ) (m n : modules.Module) → Reads bytes m → Reads bytes n → m ≡ n }
    ensures within { (bytes : List ℕ) (m n : modules.Module) → ReadsWithinLimits bytes m → ReadsWithinLimits bytes n → m ≡ n }
{}

/// Exactly the texts of a module within the limits are read, each to its end, and what is read is that module.
pub fn a_text_is_read_exactly()
    ensures module_of_it { (bytes : List ℕ) (m : modules.Module) (l : Left) → read bytes ≡ Ok (m, l) → ReadsWithinLimits bytes m }
    ensures to_its_end { (bytes : List ℕ) (m : modules.Module) → ReadsWithinLimits bytes m → (s : Names) × (read bytes ≡ Ok (m, record { names = s; tokens = [] })) }
{}

/// What has a module within the limits, or with any number of levels, has it without limits.
pub fn limits_leave_the_module()
    ensures lifted { (bytes : List ℕ) (m : modules.Module) → ReadsWithinLimits bytes m → Reads bytes m }
    ensures levels { (bytes : List ℕ) (n : ℕ) (m : modules.Module) → ReadsPieces (unlimited n) (pieces bytes) m → Reads bytes m }
{}

/// A text of bytes that is read is that of a readable module, also within the limits.
pub fn a_read_module_is_readable()
    ensures readable { (bytes : List ℕ) (m : modules.Module) → All (λ b. b < 256) bytes → ReadsWithinLimits bytes m → IsReadable m }
    ensures within { (bytes : List ℕ) (m : modules.Module) → All (λ b. b < 256) bytes → ReadsWithinLimits bytes m → IsReadableWithinLimits m }
{}

/// What is refused is the first piece with which no accepted text goes on, whatever the limits. A text has one such piece
/// at most, and it is refused unless a limit is exceeded.
pub fn the_refused_token_is_the_first()
    ensures first { (bytes : List ℕ) (at : List Piece) → read bytes ≡ Err (record { at = at; why = Refused }) → (u rest : List Piece) × (t : Piece) × (at ≡ t ∷ rest) × FirstRefused bytes u t rest }
    ensures one { (bytes : List ℕ) (u v : List Piece) (t q : Piece) (rest more : List Piece) → FirstRefused bytes u t rest → FirstRefused bytes v q more → u ≡ v }
    ensures told { (bytes : List ℕ) (u : List Piece) (t : Piece) (rest : List Piece) → FirstRefused bytes u t rest → ((w : Which) (v : List Piece) (q : Spot) (more : List Piece) → ExceedsAt bytes w v q more → ⊥) → read bytes ≡ Err (record { at = t ∷ rest; why = Refused }) }
{}

/// A limit is told exactly where a token exceeds it. A text has one such token at most, and an accepted text begins with
/// what stands before it.
pub fn a_limit_is_exceeded_there()
    ensures there { (bytes : List ℕ) (at : List Piece) (w : Which) → read bytes ≡ Err (record { at = at; why = Exceeds w }) → (u rest : List Piece) × (t : Spot) × (at ≡ Is t ∷ rest) × ExceedsAt bytes w u t rest }
    ensures told { (bytes : List ℕ) (w : Which) (u : List Piece) (t : Spot) (rest : List Piece) → ExceedsAt bytes w u t rest → read bytes ≡ Err (record { at = Is t ∷ rest; why = Exceeds w }) }
    ensures one { (bytes : List ℕ) (w x : Which) (u v : List Piece) (t q : Spot) (rest more : List Piece) → ExceedsAt bytes w u t rest → ExceedsAt bytes x v q more → (w ≡ x) × (u ≡ v) }
    ensures front { (bytes : List ℕ) (w : Which) (u : List Piece) (t : Spot) (rest : List Piece) → ExceedsAt bytes w u t rest → IsFront u }
{}

/// A fault stands at a piece of the text, and never after the last one.
pub fn a_fault_stands_at_a_piece()
    ensures { (bytes : List ℕ) (d : Fault) → read bytes ≡ Err d → (u rest : List Piece) × (t : Piece) × (d.at ≡ t ∷ rest) × (pieces bytes ≡ u ++ t ∷ rest) }
{}
