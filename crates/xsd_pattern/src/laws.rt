//! Laws of the definitions.

ghost use Rattle.std.specs.Prelude.{◌≡◌, ℕ, List};
ghost use Rattle.pattern_tree.specs.declared.tree.Tree.{Tree};
ghost use Rattle.reading.specs.Reading.{Shortens};
ghost use Rattle.xsd_pattern.specs.Grammar.{Parses};
ghost use Rattle.xsd_pattern.specs.Parts.{sides_turn, below};
ghost use Rattle.xsd_pattern.specs.Sets.{class_turn};

/// A text is the pattern of one tree at most.
pub fn one_tree()
    ensures { (text : List ℕ) (x y : Tree) → Parses text x → Parses text y → x ≡ y }
{}

/// Each turn of reading a class, and of reading the sides of a group, that goes on leaves less. So turns never run out
/// (`reading::turns_never_run_out`): no fault comes from the bound of a loop.
pub fn turns_shorten()
    ensures class { Shortens class_turn }
    ensures sides { (depth : ℕ) → Shortens (sides_turn (below depth)) }
{}
