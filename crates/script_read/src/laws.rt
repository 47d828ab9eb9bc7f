//! Laws of the definitions.

ghost use Rattle.std.specs.Prelude.{◌≡◌, ◌+◌, ◌==◌, ℕ, List, length};
ghost use Rattle.std.specs.List.{count_by};
ghost use Rattle.script_read.specs.Grammar.{ReadsScript};
ghost use Rattle.script_read.specs.Lines.{script_lines};
ghost use Rattle.script_read.specs.declared.read.Script.{Script};

/// Bytes spell one script at most.
pub fn one_script()
    ensures { (bytes : List ℕ) (x y : Script) → ReadsScript bytes x → ReadsScript bytes y → x ≡ y }
{}

/// There is one line more than there are line feeds.
pub fn lines_and_feeds()
    ensures { (bytes : List ℕ) → length (script_lines bytes) ≡ count_by (λ b. b == 10) bytes + 1 }
{}
