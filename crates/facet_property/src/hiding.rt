ghost use Rattle.std.specs.Prelude.{◌≡◌, ◌++◌, ◌&&◌, OnOk, IfOk, not, map, filter, bytes_eq};
ghost use Rattle.std.specs.List.{list_any, list_all};
ghost use Rattle.audit_model.specs.Properties.{with_inherited};
ghost use Rattle.facet_property.specs.Held.{HasNames, HasTexts, are_texts, is_text, properties_of, texts_of};

use crate::find::Found;
use ifc_base::{Memory, Name};
use std::alloc::Global;
use std::collections::BTreeSet;

/// The set names and names of these, in UTF-8 and ordered. `O(n log n)`.
fn names_of<'a>(alloc: Global, own: &[Found<'a>]) -> Result<BTreeSet<(&'a str, &'a str)>, Memory>
    ensures { IfOk result (λ names. HasNames names.keys (properties_of own.now)) }
{
    let mut names = BTreeSet::new(alloc);
    for p in own {
        names.insert((p.set.as_str(), p.name.as_str()))?;
    }
    Ok(names)
}

/// Whether the set has the set name and the name of the property. `O(log n)`.
fn has_names<'a>(names: &BTreeSet<(&'a str, &'a str)>, p: &Found<'a>) -> bool
    ensures { result ≡ list_any (are_texts p.now.set.now p.now.name.now) names.now.keys }
{
    names.contains(&(p.set.as_str(), p.name.as_str()))
}

/// Appends those whose set name and name aren't among these.
fn push_apart<'a>(
    names: &BTreeSet<(&'a str, &'a str)>,
    inherited: &[Found<'a>],
    reaching: &mut Vec<Found<'a>>,
) -> Result<(), Memory>
    ensures { OnOk result (reaching.new.items ≡ reaching.old.items ++ filter (λ q. not (list_any (are_texts q.set.now q.name.now) names.now.keys)) inherited.now) }
{
    for p in inherited {
        if !has_names(names, p) {
            reaching.push(*p)?;
        }
    }
    Ok(())
}

/// Appends those that none of the own ones hides: one of the same set name and name. `O(n log n)`.
pub(crate) fn push_unhidden<'a>(
    alloc: Global,
    own: &mut Vec<Found<'a>>,
    inherited: &[Found<'a>],
) -> Result<(), Memory>
    ensures { OnOk result (properties_of own.new.items ≡ with_inherited (properties_of own.old.items) (properties_of inherited.now)) }
{
    let names = names_of(alloc, own.as_slice())?;
    push_apart(&names, inherited, own)?;
    Ok(())
}

/// The texts of these names, in UTF-8 and ordered. `O(n log n)`.
fn texts_in<'a>(alloc: Global, names: &[&'a Name]) -> Result<BTreeSet<&'a str>, Memory>
    ensures { IfOk result (λ texts. HasTexts texts.keys (texts_of names.now)) }
{
    let mut texts = BTreeSet::new(alloc);
    for name in names {
        texts.insert(name.as_str())?;
    }
    Ok(texts)
}

/// Whether the set has the text of the name. `O(log n)`.
fn has_text<'a>(texts: &BTreeSet<&'a str>, name: &'a Name) -> bool
    ensures { result ≡ list_any (is_text name.entry.now) texts.now.keys }
{
    texts.contains(name.as_str())
}

/// Whether the set has the text of each of the names. `O(n log n)`.
fn has_all<'a>(texts: &BTreeSet<&'a str>, names: &[&'a Name]) -> bool
    ensures { result ≡ list_all (λ n. list_any (is_text n.now) texts.now.keys) names.now }
{
    for name in names {
        if !has_text(texts, *name) {
            return false;
        }
    }
    true
}

/// Whether each of the names is among the others. `O(n log n)`.
pub(crate) fn are_among<'a>(
    alloc: Global,
    names: &[&'a Name],
    others: &[&'a Name],
) -> Result<bool, Memory>
    ensures { IfOk result (λ b. b ≡ list_all (λ n. list_any (bytes_eq n) (texts_of others.now)) (texts_of names.now)) }
{
    let texts = texts_in(alloc, others)?;
    let all = has_all(&texts, names);
    Ok(all)
}
