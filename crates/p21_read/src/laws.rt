//! Laws of the definitions.

ghost use Rattle.std.specs.Prelude.{◌≡◌, ℕ, Bool, List};
ghost use Rattle.ifc_base.specs.declared.value.Instance.{Instance};
ghost use Rattle.ifc_base.specs.declared.value.Value.{Value};
ghost use Rattle.reading.specs.Reading.{Shortens};
ghost use Rattle.p21_read.specs.FileGrammar.{ReadsFile};
ghost use Rattle.p21_read.specs.Files.{data_turn, section_turn};
ghost use Rattle.p21_read.specs.Gap.{gap_turn};
ghost use Rattle.p21_read.specs.Headers.{further_turn};
ghost use Rattle.p21_read.specs.Quoted.{groups_turn, piece};
ghost use Rattle.p21_read.specs.Values.{series_turn, value};
ghost use Rattle.p21_read.specs.Grammar.{ReadsInstance, ReadsValue};
ghost use Rattle.p21_read.specs.declared.file.P21File.{P21File};

/// Bytes spell one value at most.
pub fn one_value()
    ensures { (bytes : List ℕ) (x y : Value) → ReadsValue bytes x → ReadsValue bytes y → x ≡ y }
{}

/// Bytes spell one instance at most.
pub fn one_instance()
    ensures { (bytes : List ℕ) (x y : Instance) → ReadsInstance bytes x → ReadsInstance bytes y → x ≡ y }
{}

/// Bytes spell one file at most, however many instances are allowed.
pub fn one_file()
    ensures { (most : ℕ) (bytes : List ℕ) (x y : P21File) → ReadsFile most bytes x → ReadsFile most bytes y → x ≡ y }
{}

/// Each turn of a loop of reading that goes on leaves less: of blanks and comments, of groups of
/// hexadecimal digits, of the pieces of a string, of values in parentheses, of header entities, of
/// instances, of data sections. So turns never run out (`reading::turns_never_run_out`): no fault comes
/// from the bound of a loop.
pub fn turns_shorten()
    ensures gap { Shortens gap_turn }
    ensures groups { (is_long : Bool) (q : List ℕ) → Shortens (groups_turn is_long q) }
    ensures pieces { (q : List ℕ) → Shortens (piece q) }
    ensures values { (depth : ℕ) (at : List ℕ) → Shortens (series_turn (value depth) at) }
    ensures header { Shortens further_turn }
    ensures rows { (most : ℕ) → Shortens (data_turn most) }
    ensures sections { (most : ℕ) → Shortens (section_turn most) }
{}
