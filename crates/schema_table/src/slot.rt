ghost use Rattle.std.specs.Prelude.{◌≡◌, position, bytes_eq};
ghost use Rattle.std.specs.Str.{chars};

use ifc_base::Name;

/// An attribute of an entity, its own or an inherited one.
#[derive(Debug, PartialEq, Eq, Drop)]
pub struct AttrSlot {
    /// The attribute's name, as declared.
    pub name: Name,
    /// Whether the entity or a supertype redeclares it as derived, so that `*` stands for it.
    pub derived: bool,
}

/// Whether the name has the characters of this text.
pub(crate) fn is_named(name: &Name, text: &str) -> bool
    ensures { result ≡ bytes_eq name.now (chars text.now) }
{
    name.is(text)
}

/// The first place of an attribute with the characters of this text.
pub(crate) fn slot_place(slots: &[AttrSlot], text: &str) -> Option<usize>
    ensures { result ≡ position (λ a. bytes_eq a.name (chars text.now)) slots.now }
{
    slots.iter().position(|slot| is_named(&slot.name, text))
}
