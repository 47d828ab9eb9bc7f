use express_decl::{Decls, read_declarations};
use ifc_base::Memory;
use schema_table::SchemaTable;
use std::alloc::Global;
use std::test::Fail;

/// The head of the first entity, which has no supertype.
const TOPMOST: &str = "
ENTITY Made@ ABSTRACT SUPERTYPE OF (ONEOF (Made1, (Made2) ANDOR Made3)); -- ; END_ENTITY;
    A@, b@ : REAL;";

/// The head of another entity. The first attribute is its own, the last one redeclared.
const SUBTYPE: &str = "
entity Made@ SUBTYPE OF (Made^); (* ENTITY Made@; (* nested *) *)
    A@, b@ : OPTIONAL LIST [1:?] OF UNIQUE Type0; -- DERIVE
    SELF\\Made^.b^ : REAL;";

/// What entities of an odd number derive: an attribute of their own, and the first one of their supertype.
const DERIVED: &str = "
DERIVE
    c@ : REAL := SELF\\Made^.b^; (* SELF\\Made^.b^ : REAL; *)
    SELF\\Made^.A^ : REAL := SELF.b@ + 1.0;";

/// The other sections of every entity, and its end.
const SECTIONS: &str = "
INVERSE
    Parts@ : SET [0:?] OF Made0 FOR A0;
UNIQUE
    UR1 : A@, SELF\\Made0.b0;
WHERE
    WR1 : EXISTS(SELF\\Made0.b0) OR ('END_ENTITY; -- (*' <> b@);
END_ENTITY;
";

/// What stands behind every eighth entity.
const BLOCKS: &str = "
TYPE Type@ = ENUMERATION OF (one, two); WHERE WR1 : SELF <> two; END_TYPE;
CONSTANT Constant@ : REAL := 1.0E-6; END_CONSTANT;
FUNCTION Function@ (x : REAL) : REAL; LOCAL y : REAL; END_LOCAL; IF x > 0 THEN RETURN(x); END_IF; END_FUNCTION;
RULE Rule@ FOR (Made@); WHERE WR1 : 'END_RULE;' = 'ENTITY'; END_RULE; -- RULE
";

/// Adds the text, with the number for each `@`, and a fifth of the number before it for each `^`.
pub fn add(alloc: Global, out: &mut Vec<u8>, text: &str, number: u32) -> Result<(), Memory> {
    let parent = format!(in alloc; "{}", number.saturating_sub(1) / 5)?;
    let number = format!(in alloc; "{number}")?;
    for byte in text.as_bytes() {
        match *byte {
            b'@' => out.extend_from_slice(number.as_bytes())?,
            b'^' => out.extend_from_slice(parent.as_bytes())?,
            other => out.push(other)?,
        }
    }
    Ok(())
}

/// Adds the entity of this number, and the blocks behind it.
fn add_entity(alloc: Global, out: &mut Vec<u8>, number: u32) -> Result<(), Memory> {
    let head = if number == 0 { TOPMOST } else { SUBTYPE };
    let derived = if number % 2 == 1 { DERIVED } else { "" };
    let blocks = if number % 8 == 0 { BLOCKS } else { "" };
    for text in [head, derived, SECTIONS, blocks] {
        add(alloc, out, text, number)?;
    }
    Ok(())
}

/// The text of 776 entities in five levels (1, 5, 25, 125 and 620), a supertype before or behind its subtypes.
fn large(alloc: Global) -> Result<Vec<u8>, Memory> {
    let mut out = Vec::new(alloc);
    add(alloc, &mut out, "(* Made *) SCHEMA Made;", 0)?;
    for turn in 0..776 {
        add_entity(alloc, &mut out, turn * 7 % 776)?;
    }
    add(alloc, &mut out, "END_SCHEMA;", 0)?;
    Ok(out)
}

/// What is built of these declarations.
pub fn large_table(alloc: Global) -> Result<SchemaTable, Fail> {
    let text = large(alloc)?;
    let Decls { entities, types } = read_declarations(alloc, text.as_slice())?;
    Ok(SchemaTable::build(alloc, entities, types)?)
}
