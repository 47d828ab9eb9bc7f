//! Laws of the definitions.

ghost use Rattle.std.specs.Prelude.{◌≡◌, ℕ, List};
ghost use Rattle.reading.specs.Reading.{Shortens};
ghost use Rattle.express_decl.specs.declared.decl.Decls.{Decls};
ghost use Rattle.express_decl.specs.Tokens.{Token, gap_turn, remark_turn};
ghost use Rattle.express_decl.specs.Steps.{to_word_turn, to_semicolon_turn, parenthesis_turn};
ghost use Rattle.express_decl.specs.Entities.{name_turn, body_turn};
ghost use Rattle.express_decl.specs.Schemas.{declaration_turn};
ghost use Rattle.express_decl.specs.Lexical.{Tokens};
ghost use Rattle.express_decl.specs.Grammar.{Declares};

/// A text has one list of tokens at most.
pub fn one_token_list()
    ensures { (text : List ℕ) (xs ys : List Token) → Tokens text xs → Tokens text ys → xs ≡ ys }
{}

/// Bytes declare one thing at most.
pub fn one_result()
    ensures { (bytes : List ℕ) (x y : Decls) → Declares bytes x → Declares bytes y → x ≡ y }
{}

/// Each turn of a loop that goes on leaves less. So turns never run out (`reading::turns_never_run_out`): no fault comes from the
/// bound of a loop.
pub fn turns_shorten()
    ensures gap { Shortens gap_turn }
    ensures remark { Shortens remark_turn }
    ensures words { (wanted opened : List ℕ) → Shortens (to_word_turn wanted opened) }
    ensures semicolons { (opened : List ℕ) → Shortens (to_semicolon_turn opened) }
    ensures parentheses { (opened : List ℕ) → Shortens (parenthesis_turn opened) }
    ensures names { (opened : List ℕ) → Shortens (name_turn opened) }
    ensures bodies { (opened : List ℕ) → Shortens (body_turn opened) }
    ensures declarations { (opened : List ℕ) → Shortens (declaration_turn opened) }
{}
