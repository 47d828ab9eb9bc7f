ghost use Rattle.std.specs.Prelude.{◌≡◌, ◌==◌, IfOk, length, option_copied, chars, bytes_eq};
ghost use Rattle.schema_table.specs.Attributes.{attribute, text};
ghost use Rattle.schema_table.specs.Values.{text_of};
ghost use Rattle.restrictions.specs.Admitting.{admits_text};
ghost use Rattle.audit_model.specs.Asked.{admits_text_if_asked};

use audit_model::Restriction;
use ifc_base::{Instance, Memory, Name, Value, ValueNode};
use schema_table::SchemaTable;
use std::alloc::Global;

/// Whether the name has no characters.
pub(crate) fn is_empty(name: &Name) -> bool
    ensures { result ≡ (length name.now == 0) }
{
    name.as_str().is_empty()
}

/// Whether the name has the characters of this word. `O(n)`.
pub fn is_word(name: &Name, word: &str) -> bool
    ensures { result ≡ bytes_eq name.now (chars word.now) }
{
    name.is(word)
}

/// The parameter at the place of the attribute of this name, if the instance has one. One look-up of the
/// entity, and `O(a)` in the number of its attributes.
pub fn attribute_of<'a>(schema: &SchemaTable, x: &'a Instance, attr: &str) -> Option<&'a Value>
    ensures { option_copied result ≡ attribute schema.now x.entry.now (chars attr.now) }
{
    match schema.place_named(&x.entity, attr) {
        None => None,
        Some(at) => x.params.as_slice().get(at as usize),
    }
}

/// The text of the value, its typed wrappers taken off, if it is one and isn't empty. `O(d)` in the number of
/// wrappers; its recursion is as deep as the value.
fn text_of(value: &Value) -> Option<&Name>
    ensures { option_copied result ≡ text_of value.now }
{
    match &value.node {
        ValueNode::Text(text) => { if is_empty(text) { None } else { Some(text) } }
        ValueNode::Typed(_, inner) => text_of(inner.get()),
        _ => None,
    }
}

/// The text of the attribute of this name, if it has one that isn't empty. As `attribute_of`, and `O(d)` in
/// the number of wrappers.
pub fn text_at<'a>(schema: &SchemaTable, x: &'a Instance, attr: &str) -> Option<&'a Name>
    ensures { option_copied result ≡ text schema.now x.entry.now (chars attr.now) }
{
    match attribute_of(schema, x, attr) {
        None => None,
        Some(value) => text_of(value),
    }
}

/// Whether the condition admits the characters of the name. The one refusal is want of memory.
pub fn admits_name(alloc: Global, condition: &Restriction, name: &Name) -> Result<bool, Memory>
    ensures { IfOk result (λ b. b ≡ admits_text condition.now name.now) }
{
    let admitted = condition.admits_text(alloc, name.as_str())?;
    Ok(admitted)
}

/// Whether the condition, if there is one, admits the name, which has to be there then. The one refusal is
/// want of memory.
pub fn admits_name_if_asked(
    alloc: Global,
    condition: &Option<Restriction>,
    name: Option<&Name>,
) -> Result<bool, Memory>
    ensures { IfOk result (λ b. b ≡ admits_text_if_asked condition.now (option_copied name.entry)) }
{
    match condition {
        None => Ok(true),
        Some(condition) => match name {
            None => Ok(false),
            Some(name) => {
                let admitted = admits_name(alloc, condition, name)?;
                Ok(admitted)
            }
        },
    }
}
