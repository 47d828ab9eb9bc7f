//! The lines of entries: what an editor is told of each of its calls.
ghost use Rattle.std.specs.Prelude.{◌≡◌, ◌++◌, codes, OnOk};
ghost use Rattle.std.specs.Fmt.{decimal};
ghost use Rattle.script_rules.specs.Output.{a_number, an_id, key_text, reply_text, role_word};
ghost use Rattle.script_rules.specs.Output.{edit_fault_text, instance_fault_text, refusal_text};
ghost use Rattle.serial_run.specs.Lines.{entry_line, entry_lines};

use audit_model::{CommitRefusal, EditFault, Limits, Pair, Reply, StepRec};
use ifc_base::{InstId, Key, Memory, Role};
use report_text::{push_decimal, push_text};
use schema_table::InstanceFault;

/// Appends the lines of the entries, in their order.
pub fn push_entries(out: &mut Vec<u8>, limits: &Limits, entries: &[StepRec]) -> Result<(), Memory>
    ensures { OnOk result (out.new.items ≡ out.old.items ++ entry_lines limits.now entries.now) }
{
    for entry in entries {
        push_entry(out, limits, entry)?;
    }
    Ok(())
}

fn push_entry(out: &mut Vec<u8>, limits: &Limits, entry: &StepRec) -> Result<(), Memory>
    ensures { OnOk result (out.new.items ≡ out.old.items ++ entry_line limits.now entry.now) }
{
    push_decimal(out, u64::from(entry.actor))?;
    push_text(out, " ")?;
    push_reply(out, limits, &entry.reply)?;
    push_text(out, "\n")
}

fn push_reply(out: &mut Vec<u8>, limits: &Limits, reply: &Reply) -> Result<(), Memory>
    ensures { OnOk result (out.new.items ≡ out.old.items ++ reply_text limits.now reply.now) }
{
    match reply {
        Reply::Began { revision } => push_numbered(out, "open", *revision),
        Reply::Accepted { revision } => push_numbered(out, "commit", *revision),
        Reply::Refused(refusal) => push_refusal(out, limits, refusal),
        Reply::Claimed {
            number: _,
            pair,
            revision,
        } => push_claimed(out, pair, *revision),
        Reply::Idle => push_text(out, "idle"),
        Reply::Used => push_text(out, "give used"),
        Reply::Stale { key, revision } => push_stale(out, key, *revision),
        Reply::Back => push_text(out, "back"),
        Reply::Pending(pair) => push_pair(out, "pending", pair),
        Reply::Report { revision: _ } => push_text(out, "published"),
    }
}

fn push_claimed(out: &mut Vec<u8>, pair: &Pair, revision: u32) -> Result<(), Memory>
    ensures { OnOk result (out.new.items ≡ out.old.items ++
        (codes "take" ++ a_number pair.now.spec ++ an_id pair.now.elem ++ a_number revision)) }
{
    push_pair(out, "take", pair)?;
    push_number(out, revision)
}

fn push_stale(out: &mut Vec<u8>, key: &Key, revision: u32) -> Result<(), Memory>
    ensures { OnOk result (out.new.items ≡ out.old.items ++
        (codes "give stale " ++ key_text key.now ++ a_number revision)) }
{
    push_text(out, "give stale ")?;
    push_key(out, key)?;
    push_number(out, revision)
}

/// Appends a word and a number behind it.
fn push_numbered(out: &mut Vec<u8>, word: &str, number: u32) -> Result<(), Memory>
    ensures { OnOk result (out.new.items ≡ out.old.items ++ (word.now ++ a_number number)) }
{
    push_text(out, word)?;
    push_number(out, number)
}

/// Appends a blank and the number.
fn push_number(out: &mut Vec<u8>, number: u32) -> Result<(), Memory>
    ensures { OnOk result (out.new.items ≡ out.old.items ++ a_number number) }
{
    push_text(out, " ")?;
    push_decimal(out, u64::from(number))
}

/// Appends a blank, `#` and the id.
fn push_id(out: &mut Vec<u8>, id: InstId) -> Result<(), Memory>
    ensures { OnOk result (out.new.items ≡ out.old.items ++ an_id id) }
{
    push_text(out, " #")?;
    push_decimal(out, u64::from(id.get()))
}

/// Appends a word and the pair behind it.
fn push_pair(out: &mut Vec<u8>, word: &str, pair: &Pair) -> Result<(), Memory>
    ensures { OnOk result (out.new.items ≡ out.old.items ++ (word.now ++ a_number pair.now.spec ++ an_id pair.now.elem)) }
{
    push_text(out, word)?;
    push_number(out, pair.spec)?;
    push_id(out, pair.elem)
}

fn push_key(out: &mut Vec<u8>, key: &Key) -> Result<(), Memory>
    ensures { OnOk result (out.new.items ≡ out.old.items ++ key_text key.now) }
{
    match key {
        Key::Inst(id) => {
            push_text(out, "inst")?;
            push_id(out, *id)
        }
        Key::Refs(id, role) => {
            push_text(out, "refs")?;
            push_id(out, *id)?;
            push_text(out, " ")?;
            push_text(out, role_word(*role))
        }
    }
}

fn role_word(role: Role) -> &'static str
    ensures { result.now ≡ role_word role }
{
    match role {
        Role::Properties => "properties",
        Role::Kind => "type",
        Role::Classification => "classification",
        Role::Material => "material",
        Role::Aggregates => "aggregates",
        Role::Nests => "nests",
        Role::Contained => "contained",
        Role::Group => "group",
        Role::Voids => "voids",
        Role::Fills => "fills",
    }
}

fn push_refusal(out: &mut Vec<u8>, limits: &Limits, refusal: &CommitRefusal) -> Result<(), Memory>
    ensures { OnOk result (out.new.items ≡ out.old.items ++ refusal_text limits.now refusal.now) }
{
    match refusal {
        CommitRefusal::RevisionsFull => push_numbered(out, "refused revisions", limits.revisions),
        CommitRefusal::Edit { number, fault } => {
            push_numbered(out, "refused", *number)?;
            push_edit_fault(out, limits, fault)
        }
        CommitRefusal::Dangling { from, to } => push_dangling(out, *from, *to),
    }
}

fn push_dangling(out: &mut Vec<u8>, from: InstId, to: InstId) -> Result<(), Memory>
    ensures { OnOk result (out.new.items ≡ out.old.items ++
        (codes "refused dangling from" ++ an_id from ++ codes " to" ++ an_id to)) }
{
    push_text(out, "refused dangling from")?;
    push_id(out, from)?;
    push_text(out, " to")?;
    push_id(out, to)
}

fn push_edit_fault(out: &mut Vec<u8>, limits: &Limits, fault: &EditFault) -> Result<(), Memory>
    ensures { OnOk result (out.new.items ≡ out.old.items ++ edit_fault_text limits.now fault.now) }
{
    match fault {
        EditFault::Conflict { id, revision } => push_conflict(out, *id, *revision),
        EditFault::IdTaken { id } => {
            push_text(out, " taken")?;
            push_id(out, *id)
        }
        EditFault::NoInstance { id } => {
            push_text(out, " missing")?;
            push_id(out, *id)
        }
        EditFault::NoAttribute { id, attr } => {
            push_text(out, " attribute")?;
            push_id(out, *id)?;
            push_text(out, " ")?;
            push_text(out, attr.as_str())
        }
        EditFault::Schema { id, fault } => {
            push_text(out, " schema")?;
            push_id(out, *id)?;
            push_instance_fault(out, fault)
        }
        EditFault::TooManyInstances => push_numbered(out, " instances", limits.instances),
    }
}

fn push_conflict(out: &mut Vec<u8>, id: InstId, revision: u32) -> Result<(), Memory>
    ensures { OnOk result (out.new.items ≡ out.old.items ++
        (codes " conflict" ++ an_id id ++ a_number revision)) }
{
    push_text(out, " conflict")?;
    push_id(out, id)?;
    push_number(out, revision)
}

fn push_instance_fault(out: &mut Vec<u8>, fault: &InstanceFault) -> Result<(), Memory>
    ensures { OnOk result (out.new.items ≡ out.old.items ++ instance_fault_text fault.now) }
{
    match fault {
        InstanceFault::UnknownEntity { name } => {
            push_text(out, " unknown ")?;
            push_text(out, name.as_str())
        }
        InstanceFault::AbstractEntity { name } => {
            push_text(out, " abstract ")?;
            push_text(out, name.as_str())
        }
        InstanceFault::ParamCount { found, wanted } => {
            push_numbered(out, " count", *found)?;
            push_number(out, *wanted)
        }
        InstanceFault::MisplacedDerived { place } => push_numbered(out, " derived", *place),
    }
}
