ghost use Rattle.std.specs.Prelude.{◌≡◌, ℕ, false, List, [], ◌++◌, length};
ghost use Rattle.oi_base.specs.declared.ids.Place.{Place};
ghost use Rattle.ir_core.specs.declared.module.Module as modules;
ghost use Rattle.ir_core.specs.Places.{AreSameButForPlaces};
ghost use Rattle.call_graph.specs.Sites.{all_sites};
ghost use Rattle.ir_lexer.specs.Lexing.{unread};
ghost use Rattle.ir_lexer.specs.Spellings.{continues};
ghost use Rattle.ir_grammar.specs.Pieces.{Piece, pieces_of};
ghost use Rattle.ir_printer.specs.declared.marks.Mark.{Mark};
ghost use Rattle.ir_printer.specs.Layout.{Tables, marks_text};
ghost use Rattle.ir_printer.specs.Tokens.{tokens_of, Are, AreSpellable};

/// The text of marks that can be spelled is read as their tokens, and what stands after it as after a line's end.
pub fn a_text_has_the_tokens_of_its_marks()
    ensures { (n : Tables) (ms : List Mark) (rest : List ℕ) (p : Place) → AreSpellable n ms → continues rest ≡ false →
        (us : List Piece) × (q : Place) × Are us (tokens_of n ms) × (pieces_of (unread (marks_text n [] ms ++ rest) p) ≡ us ++ pieces_of (unread rest q)) }
{}

/// Modules that are the same but for places have as many call sites; so where a text was read within the limit on them, the text
/// that is printed of its module is within it too. It does nothing: its contract is the law.
pub fn places_change_no_count_of_sites()
    ensures { (m n : modules.Module) → AreSameButForPlaces m n → length (all_sites m.funcs) ≡ length (all_sites n.funcs) }
{}
